//! The tables of a program: texts, ints and types, each kept once.

use crate::known::known;
use crate::number::number;
use crate::places::Places;
use crate::type_code::{PlainType, TypeCode};
use gd_bytecode::{Operand, Tag};
use gd_infer::Typed;
use gd_model::{Fixed, Ty};
use gd_syntax::{Pos, Seq, Text};
use indexmap::IndexSet;
use no_memory::NoMemory;
use std::alloc::Global;

/// The texts, ints and types that a program names, in the order in which they were met.
#[derive(Drop)]
pub struct Tables {
    texts: IndexSet<Text>,
    ints: IndexSet<i64>,
    types: IndexSet<TypeCode>,
    // The values of constants, by the places of the names that declare them.
    constants: Places<Operand>,
    empty: Text,
}

impl Tables {
    /// Nothing was met yet.
    pub fn new(alloc: Global) -> Result<Tables, NoMemory> {
        Ok(Tables {
            texts: IndexSet::new(alloc),
            ints: IndexSet::new(alloc),
            types: IndexSet::new(alloc),
            constants: Places::new(alloc),
            empty: empty_text(alloc)?,
        })
    }

    /// The number of a text.
    pub fn text(&mut self, text: &Text) -> Result<u32, NoMemory> {
        let (place, _) = self.texts.insert_full(text.share()?)?;
        number(place)
    }

    /// The number of `""`.
    pub fn empty_text(&mut self) -> Result<u32, NoMemory> {
        let (place, _) = self.texts.insert_full(self.empty.share()?)?;
        number(place)
    }

    /// The number of an int.
    pub fn int(&mut self, n: i64) -> Result<u32, NoMemory> {
        let (place, _) = self.ints.insert_full(n)?;
        number(place)
    }

    /// The number of a type. The types of elements, keys and values stand before those that have them.
    pub fn ty(&mut self, ty: TypeCode) -> Result<u32, NoMemory> {
        match ty {
            TypeCode::Plain(_) => {}
            TypeCode::ArrayOf(element) => self.plain_type(element)?,
            TypeCode::DictOf(key, value) => {
                self.plain_type(key)?;
                self.plain_type(value)?;
            }
        }
        let (place, _) = self.types.insert_full(ty)?;
        number(place)
    }

    fn plain_type(&mut self, ty: PlainType) -> Result<(), NoMemory> {
        self.types.insert(TypeCode::Plain(ty))?;
        Ok(())
    }

    /// A value of a constant.
    pub fn fixed(&mut self, value: &Fixed) -> Result<Operand, NoMemory> {
        Ok(match value {
            Fixed::Nil => plain_operand(Tag::Null),
            Fixed::Bool(false) => plain_operand(Tag::False),
            Fixed::Bool(true) => plain_operand(Tag::True),
            Fixed::Int(n) => Operand {
                tag: Tag::Int,
                number: self.int(*n)?,
            },
            Fixed::Str(text) => Operand {
                tag: Tag::Text,
                number: self.text(text)?,
            },
            Fixed::Thing(thing) => Operand {
                tag: Tag::Constant,
                number: *thing,
            },
        })
    }

    /// The value of the constant that the name at this place declares.
    pub fn constant(&mut self, typed: &Typed, declares: Pos) -> Result<Operand, NoMemory> {
        if let Some(operand) = self.constants.get(declares) {
            return Ok(*operand);
        }
        let value = known(typed.value(declares))?;
        let operand = self.fixed(value)?;
        self.constants.put(declares, operand)?;
        Ok(operand)
    }

    /// The texts in the order of their numbers.
    pub fn text_list(&self, alloc: Global) -> Result<Seq<Text>, NoMemory> {
        let mut texts = Vec::new(alloc);
        for text in self.texts.as_slice() {
            texts.push(text.share()?)?;
        }
        Ok(Seq::of(texts))
    }

    /// The ints in the order of their numbers.
    pub fn int_list(&self, alloc: Global) -> Result<Seq<i64>, NoMemory> {
        let mut ints = Vec::new(alloc);
        for n in self.ints.as_slice() {
            ints.push(*n)?;
        }
        Ok(Seq::of(ints))
    }

    /// The types in the order of their numbers.
    pub fn type_list(&self, alloc: Global) -> Result<Seq<Ty>, NoMemory> {
        let mut types = Vec::new(alloc);
        for ty in self.types.as_slice() {
            types.push(ty.ty(alloc)?)?;
        }
        Ok(Seq::of(types))
    }
}

fn plain_operand(tag: Tag) -> Operand {
    Operand { tag, number: 0 }
}

fn empty_text(alloc: Global) -> Result<Text, NoMemory> {
    match Text::of_slice(alloc, &[]) {
        Ok(text) => Ok(text),
        Err(_) => Err(NoMemory),
    }
}
