//! The locals of a function, and which of them a name means.

use gd_model::{Ty, Value};
use gd_syntax::{Pos, Text};
use no_memory::NoMemory;
use std::alloc::Global;
use std::collections::HashMap;

/// A local variable, a parameter, a loop variable, a binding or a local constant.
#[derive(Drop)]
pub struct Local {
    /// The place of the name that declares it.
    pub pos: Pos,
    pub ty: Ty,
    pub is_constant: bool,
    /// Of a constant that has one.
    pub value: Option<Value>,
}

/// Which local each name means at one place. Blocks stand in blocks; a local is in force from its declaration to the end
/// of its block, and an inner one hides an outer one of its name.
#[derive(Drop)]
pub struct Scope {
    names: HashMap<Text, usize>,
    /// For each local in force its name and the local that it hides.
    hidden: Vec<(Text, Option<usize>)>,
    /// For each open block how many locals were in force when it began.
    blocks: Vec<usize>,
}

impl Scope {
    /// No local is in force.
    pub fn new(alloc: Global) -> Scope {
        Scope {
            names: HashMap::new(alloc),
            hidden: Vec::new(alloc),
            blocks: Vec::new(alloc),
        }
    }

    /// A block begins.
    pub fn enter(&mut self) -> Result<(), NoMemory> {
        self.blocks.push(self.hidden.len())?;
        Ok(())
    }

    /// The block that began last ends, and its locals are in force no more.
    pub fn leave(&mut self) -> Result<(), NoMemory> {
        let Some(before) = self.blocks.pop() else {
            return Ok(());
        };
        for _ in before..self.hidden.len() {
            self.end_last()?;
        }
        Ok(())
    }

    fn end_last(&mut self) -> Result<(), NoMemory> {
        let Some((name, outer)) = self.hidden.pop() else {
            return Ok(());
        };
        match outer {
            Some(local) => {
                self.names.insert(name, local)?;
            }
            None => {
                let _ = self.names.remove(&name);
            }
        }
        Ok(())
    }

    /// The local with this number is in force from here on.
    pub fn declare(&mut self, name: &Text, local: usize) -> Result<(), NoMemory> {
        let outer = self.names.insert(name.share()?, local)?;
        self.hidden.push((name.share()?, outer))?;
        Ok(())
    }

    /// The number of the local that the name means here.
    pub fn find(&self, name: &Text) -> Option<usize> {
        match self.names.get(name) {
            Some(local) => Some(*local),
            None => None,
        }
    }
}
