//! What inference has found so far.

use crate::constants::Constants;
use crate::known::KnownTypes;
use crate::making::Making;
use crate::places::Places;
use crate::scope::{Local, Scope};
use crate::seen::Seen;
use cycle_resolver::Item;
use gd_model::{Ty, Value};
use gd_rules::{Diag, Rule};
use gd_syntax::{Pos, Text};
use indexmap::IndexSet;
use no_memory::NoMemory;
use std::alloc::Global;
use std::collections::HashSet;

/// The types and meanings that were found, and the state of the walk that finds them.
#[derive(Drop)]
pub struct Inference {
    pub notes: Places<Seen>,
    /// The places of calls of something other than a name or an attribute, which are Bad.
    pub called_values: Places<Ty>,
    /// All locals of the project, in the order in which they were come to.
    pub locals: Vec<Local>,
    /// The number of the local that a name declares, by the name's place.
    pub declared_at: Places<usize>,
    /// The places at which a local has the name of one that is in force.
    pub repeated: Vec<Pos>,
    pub scope: Scope,
    pub known: KnownTypes,
    pub constants: Constants,
    pub making: Making,
    pub faults: Vec<Diag>,
    /// Whether the types of items are being found, before all else is typed.
    pub is_finding: bool,
    /// Whether the items are noted that a value comes to.
    pub notes_items: bool,
    /// The items that the running value came to, and those whose types it waits for.
    pub met: IndexSet<Item>,
    pub waits: IndexSet<Item>,
    /// The items whose values wait for others.
    pub open: HashSet<Item>,
}

impl Inference {
    /// Nothing was found yet.
    pub fn new(alloc: Global) -> Inference {
        Inference {
            notes: Places::new(alloc),
            called_values: Places::new(alloc),
            locals: Vec::new(alloc),
            declared_at: Places::new(alloc),
            repeated: Vec::new(alloc),
            scope: Scope::new(alloc),
            known: KnownTypes::new(alloc),
            constants: Constants::new(alloc),
            making: Making::new(alloc),
            faults: Vec::new(alloc),
            is_finding: true,
            notes_items: true,
            met: IndexSet::new(alloc),
            waits: IndexSet::new(alloc),
            open: HashSet::new(alloc),
        }
    }

    /// The rule holds at this place.
    pub fn report(&mut self, pos: Pos, rule: Rule) -> Result<(), NoMemory> {
        self.faults.push(Diag { pos, rule })?;
        Ok(())
    }

    /// A local variable, parameter, loop variable or binding is in force from here on.
    pub fn declare(&mut self, name: &Text, pos: Pos, ty: Ty) -> Result<(), NoMemory> {
        self.declare_local(
            name,
            Local {
                pos,
                ty,
                is_constant: false,
                value: None,
            },
        )
    }

    /// A local constant is in force from here on.
    pub fn declare_constant(
        &mut self,
        name: &Text,
        pos: Pos,
        ty: Ty,
        value: Option<Value>,
    ) -> Result<(), NoMemory> {
        self.declare_local(
            name,
            Local {
                pos,
                ty,
                is_constant: true,
                value,
            },
        )
    }

    fn declare_local(&mut self, name: &Text, local: Local) -> Result<(), NoMemory> {
        if self.scope.find(name).is_some() && !self.is_finding {
            self.repeated.push(local.pos)?;
        }
        let number = self.locals.len();
        self.declared_at.put(local.pos, number)?;
        self.scope.declare(name, number)?;
        self.locals.push(local)?;
        Ok(())
    }
}
