//! The code of a function while it is written.

use crate::action::{Action, Literal, Step};
use crate::loops::Loop;
use crate::number::number;
use crate::type_code::TypeCode;
use gd_bytecode::Opcode;
use gd_syntax::{Pos, Text};
use no_memory::NoMemory;
use std::alloc::Global;

/// A local: the place of the name that declares it, and its type.
#[derive(Clone, Copy)]
pub struct Slot {
    pub at: Pos,
    pub ty: TypeCode,
}

/// The code of a function as far as it is written, and its locals, each in a slot of its own.
#[derive(Drop)]
pub struct Draft<'a> {
    pub steps: Vec<Step<'a>>,
    pub locals: Vec<Slot>,
    /// How many subjects of `for` and `match` statements stand on the stack.
    pub subjects: u32,
    /// The loops around, the innermost last.
    pub loops: Vec<Loop>,
}

/// A jump whose target is not known yet, by its place in the code.
#[derive(Clone, Copy)]
pub struct Leap {
    at: u32,
}

impl<'a> Draft<'a> {
    /// No code.
    pub fn new(alloc: Global) -> Draft<'a> {
        Draft {
            steps: Vec::new(alloc),
            locals: Vec::new(alloc),
            subjects: 0,
            loops: Vec::new(alloc),
        }
    }

    /// Adds an instruction.
    pub fn add(&mut self, action: Action<'a>, pos: Pos) -> Result<(), NoMemory> {
        self.steps.push(Step { action, pos })?;
        Ok(())
    }

    /// Adds an operation whose numbers mean themselves.
    pub fn plain(&mut self, op: Opcode, a: u32, b: u32, pos: Pos) -> Result<(), NoMemory> {
        self.add(Action::Plain(op, a, b), pos)
    }

    /// Adds a Push.
    pub fn value(&mut self, literal: Literal<'a>, pos: Pos) -> Result<(), NoMemory> {
        self.add(Action::Push(literal), pos)
    }

    /// Adds an operation with a name.
    pub fn named(&mut self, op: Opcode, name: &'a Text, pos: Pos) -> Result<(), NoMemory> {
        self.add(Action::Named(op, name), pos)
    }

    /// Adds a test of the top against a type, unless every value fits.
    pub fn test(&mut self, ty: TypeCode, pos: Pos) -> Result<(), NoMemory> {
        if ty.is_variant() {
            return Ok(());
        }
        self.add(Action::Typed(Opcode::Test, ty), pos)
    }

    // ---- jumps

    /// Where the next instruction will stand.
    pub fn place(&self) -> Result<u32, NoMemory> {
        number(self.steps.len())
    }

    /// Adds a jump whose target is told later.
    pub fn leap(&mut self, op: Opcode, a: u32, pos: Pos) -> Result<Leap, NoMemory> {
        let at = self.place()?;
        self.add(Action::Go(op, a, 0), pos)?;
        Ok(Leap { at })
    }

    /// Adds a jump to a place that is known.
    pub fn jump(&mut self, op: Opcode, target: u32, pos: Pos) -> Result<(), NoMemory> {
        self.add(Action::Go(op, 0, target), pos)
    }

    /// The jump leads to where the next instruction will stand.
    pub fn land(&mut self, leap: Leap) -> Result<(), NoMemory> {
        let target = self.place()?;
        self.land_at(leap, target);
        Ok(())
    }

    /// The jumps lead to where the next instruction will stand.
    pub fn land_all(&mut self, leaps: &[Leap]) -> Result<(), NoMemory> {
        let target = self.place()?;
        for leap in leaps {
            self.land_at(*leap, target);
        }
        Ok(())
    }

    /// The jump leads to this place.
    pub fn land_at(&mut self, leap: Leap, target: u32) {
        if let Some(step) = self.steps.get_mut(leap.at as usize) {
            step.action = led_to(step.action, target);
        }
    }

    // ---- locals and subjects

    /// The slot that the next local will have.
    pub fn next_slot(&self) -> Result<u32, NoMemory> {
        number(self.locals.len())
    }

    /// Declares a local.
    pub fn declare(&mut self, at: Pos, ty: TypeCode) -> Result<(), NoMemory> {
        self.locals.push(Slot { at, ty })?;
        Ok(())
    }

    /// Gives up the locals from this slot on together, if there are any.
    pub fn clear_from(&mut self, first: u32, pos: Pos) -> Result<(), NoMemory> {
        let end = self.next_slot()?;
        if first < end {
            self.plain(Opcode::Clear, first, end, pos)?;
        }
        Ok(())
    }

    /// Gives up so many entries of the stack together, if there are any.
    pub fn give_up(&mut self, entries: u32, pos: Pos) -> Result<(), NoMemory> {
        if entries > 0 {
            self.plain(Opcode::Drop, entries, 0, pos)?;
        }
        Ok(())
    }
}

fn led_to(action: Action<'_>, target: u32) -> Action<'_> {
    match action {
        Action::Go(op, a, _) => Action::Go(op, a, target),
        other => other,
    }
}
