//! The names that classes declare.
use crate::number::number;
use gd_members::Found;
use gd_syntax::{Pos, Text};
use indexmap::{IndexMap, IndexSet};
use no_memory::NoMemory;
use std::alloc::Global;

/// What a declared name is, as far as look-ups ask.
#[derive(Clone, Copy, Debug, PartialEq, Eq)]
pub enum Sort {
    /// Whether it is static.
    Variable(bool),
    /// Whether it is static.
    Function(bool),
    Signal,
    Constant,
    EnumName,
    /// A value of an enum without a name.
    EnumValue,
    ClassName,
}

/// A name that a class declares.
#[derive(Clone, Copy, Debug)]
pub struct Declared {
    pub class: u32,
    /// The number of its text.
    pub name: u32,
    pub pos: Pos,
    pub sort: Sort,
    pub found: Found,
}

/// All declarations of a project in their order, to be found by class and name.
#[derive(Drop)]
pub struct Members {
    // each name once
    texts: IndexSet<Text>,
    declared: Vec<Declared>,
    // the place of the first declaration of a name in a class
    places: IndexMap<(u32, u32), u32>,
}

impl Members {
    pub fn new(alloc: Global) -> Members {
        Members {
            texts: IndexSet::new(alloc),
            declared: Vec::new(alloc),
            places: IndexMap::new(alloc),
        }
    }

    /// All declarations in their order.
    pub fn declared(&self) -> &[Declared] {
        self.declared.as_slice()
    }

    /// The number of a text that has one.
    pub fn number_of(&self, text: &Text) -> Option<u32> {
        match u32::try_from(self.texts.get_index_of(text)?) {
            Ok(number) => Some(number),
            Err(_) => None,
        }
    }

    /// The number of a text, which is a new one where it has none.
    pub fn intern(&mut self, text: &Text) -> Result<u32, NoMemory> {
        if let Some(found) = self.number_of(text) {
            return Ok(found);
        }
        let (place, _) = self.texts.insert_full(text.share()?)?;
        number(place)
    }

    /// Adds a declaration at the end.
    pub fn declare(&mut self, declared: Declared) -> Result<(), NoMemory> {
        let place = number(self.declared.len())?;
        let key = (declared.class, declared.name);
        if self.places.get(&key).is_none() {
            self.places.insert(key, place)?;
        }
        self.declared.push(declared)?;
        Ok(())
    }

    /// The place of the first declaration of a name in a class itself.
    pub fn first(&self, class: u32, name: u32) -> Option<u32> {
        self.places.get(&(class, name)).copied()
    }

    /// The declaration at a place.
    pub fn at(&self, place: u32) -> Option<&Declared> {
        self.declared.get(place as usize)
    }
}
