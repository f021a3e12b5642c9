//! The code of a function with the numbers of what it names.

use crate::action::{Action, Literal, Step};
use crate::draft::Draft;
use crate::function_key::FunctionKey;
use crate::known::known;
use crate::number::number;
use crate::places::Places;
use crate::tables::Tables;
use gd_bytecode::{Instr, Opcode, Operand, Tag};
use gd_infer::Typed;
use gd_syntax::{Pos, Seq};
use indexmap::IndexSet;
use no_memory::NoMemory;
use std::alloc::Global;

/// What numbers are found in.
#[derive(Clone, Copy)]
pub struct Linker<'a> {
    pub alloc: Global,
    pub typed: &'a Typed,
    pub functions: &'a IndexSet<FunctionKey>,
}

// An operation with its numbers.
#[derive(Clone, Copy)]
struct Numbered {
    op: Opcode,
    a: u32,
    b: u32,
}

impl<'a> Linker<'a> {
    /// The types of the locals of a function.
    pub fn types(&self, tables: &mut Tables, draft: &Draft<'a>) -> Result<Seq<u32>, NoMemory> {
        let mut types = Vec::new(self.alloc);
        for local in &draft.locals {
            types.push(tables.ty(local.ty)?)?;
        }
        Ok(Seq::of(types))
    }

    /// The instructions of a function.
    pub fn code(&self, tables: &mut Tables, draft: &Draft<'a>) -> Result<Seq<Instr>, NoMemory> {
        let slots = self.slots(draft)?;
        let mut code = Vec::new(self.alloc);
        for step in &draft.steps {
            code.push(self.instruction(tables, &slots, *step)?)?;
        }
        Ok(Seq::of(code))
    }

    // The slots of locals, by the places of the names that declare them.
    fn slots(&self, draft: &Draft<'a>) -> Result<Places<u32>, NoMemory> {
        let mut slots = Places::new(self.alloc);
        for (slot, local) in draft.locals.iter().enumerate() {
            slots.put(local.at, number(slot)?)?;
        }
        Ok(slots)
    }

    fn instruction(
        &self,
        tables: &mut Tables,
        slots: &Places<u32>,
        step: Step<'a>,
    ) -> Result<Instr, NoMemory> {
        let Numbered { op, a, b } = self.numbered(tables, slots, step.action)?;
        Ok(Instr {
            op,
            a,
            b,
            line: step.pos.line,
            column: step.pos.column,
        })
    }

    fn numbered(
        &self,
        tables: &mut Tables,
        slots: &Places<u32>,
        action: Action<'a>,
    ) -> Result<Numbered, NoMemory> {
        Ok(match action {
            Action::Plain(op, a, b) | Action::Go(op, a, b) => Numbered { op, a, b },
            Action::Push(literal) => self.push(tables, literal)?,
            Action::Local(op, declares) => with_a(op, slot_of(slots, declares)?),
            Action::Named(op, name) => with_a(op, tables.text(name)?),
            Action::Static(op, name, class) => Numbered {
                op,
                a: tables.text(name)?,
                b: class,
            },
            Action::Call(count, name) => Numbered {
                op: Opcode::Call,
                a: count,
                b: tables.text(name)?,
            },
            Action::Direct(count, function) => Numbered {
                op: Opcode::Direct,
                a: count,
                b: self.function(function)?,
            },
            Action::Func(function) => with_a(Opcode::Func, self.function(function)?),
            Action::Typed(op, ty) => with_a(op, tables.ty(ty)?),
            Action::Made(op, count, ty) => Numbered {
                op,
                a: count,
                b: tables.ty(ty)?,
            },
        })
    }

    fn push(&self, tables: &mut Tables, literal: Literal<'a>) -> Result<Numbered, NoMemory> {
        Ok(match literal {
            Literal::Null => pushed(Tag::Null, 0),
            Literal::Bool(b) => pushed(if b { Tag::True } else { Tag::False }, 0),
            Literal::Int(n) => pushed(Tag::Int, tables.int(n)?),
            Literal::Text(text) => pushed(Tag::Text, tables.text(text)?),
            Literal::EmptyText => pushed(Tag::Text, tables.empty_text()?),
            Literal::Constant(declares) => {
                let Operand { tag, number } = tables.constant(self.typed, declares)?;
                pushed(tag, number)
            }
        })
    }

    /// The number of a function. All that are called were numbered.
    pub fn function(&self, key: FunctionKey) -> Result<u32, NoMemory> {
        number(known(self.functions.get_index_of(&key))?)
    }
}

fn with_a(op: Opcode, a: u32) -> Numbered {
    Numbered { op, a, b: 0 }
}

fn pushed(tag: Tag, number: u32) -> Numbered {
    Numbered {
        op: Opcode::Push,
        a: tag as u32,
        b: number,
    }
}

// The slot of a local. Each local that is named was declared.
fn slot_of(slots: &Places<u32>, declares: Pos) -> Result<u32, NoMemory> {
    Ok(*known(slots.get(declares))?)
}
