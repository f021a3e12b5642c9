//! The types of items, found on demand.

use crate::constant::Fixation;
use crate::inference::Inference;
use crate::needs::ItemNeeds;
use crate::site::Site;
use crate::thing_order::Span;
use cycle_resolver::Item;
use gd_model::Ty;
use gd_syntax::DeclKind;
use gd_typing::{Declared, Known};
use indexmap::IndexSet;
use no_memory::NoMemory;
use script_table::Table;
use std::alloc::Global;

impl Inference {
    /// Finds the types of all items, and notes what each needs.
    pub fn find_items(
        &mut self,
        alloc: Global,
        table: &Table,
        declared: &Declared,
        needs: &mut ItemNeeds,
    ) -> Result<(), NoMemory> {
        let items = needs.items(alloc)?;
        for &item in &items {
            self.find_item(alloc, table, declared, needs, item)?;
        }
        // The last of them may have been settled as one of a cycle, still waiting; nothing waits behind this.
        self.waits = IndexSet::new(alloc);
        Ok(())
    }

    // Finds the type of an item and of all that it needs, and notes what each needs. Each value is looked at as a whole, and
    // again once all that it waited for is known. An item that waits for one that is open leads to a cycle and is Bad.
    fn find_item(
        &mut self,
        alloc: Global,
        table: &Table,
        declared: &Declared,
        needs: &mut ItemNeeds,
        first: Item,
    ) -> Result<(), NoMemory> {
        let mut path = Vec::new(alloc);
        path.push(first)?;
        // Each turn settles an item, opens one or passes over one; 2^64 of them are never reached.
        for _ in 0..u64::MAX {
            let Some(top) = path.pop() else {
                return Ok(());
            };
            if self.known.item(top).is_none() {
                self.try_item(alloc, table, declared, needs, &mut path, top)?;
            }
        }
        Ok(())
    }

    // Settles the item that was taken off the path, or puts it back with those that it waits for behind it.
    fn try_item(
        &mut self,
        alloc: Global,
        table: &Table,
        declared: &Declared,
        needs: &mut ItemNeeds,
        path: &mut Vec<Item>,
        top: Item,
    ) -> Result<(), NoMemory> {
        self.met = IndexSet::new(alloc);
        self.waits = IndexSet::new(alloc);
        let first = self.constants.count();
        let found = self.item(alloc, table, declared, top)?;
        self.open.insert(top)?;
        if self.waits.is_empty() {
            needs.set_needs(top, Vec::from_slice(alloc, self.met.as_slice())?)?;
            return self.settle(top, first, found);
        }
        if self.waits_for_open() {
            needs.set_needs(top, Vec::from_slice(alloc, self.met.as_slice())?)?;
            return self.settle(top, first, Fixation::bad());
        }
        path.push(top)?;
        for next in self.waits.iter().rev() {
            path.push(*next)?;
        }
        Ok(())
    }

    // The item is this, and made the things from the first of these numbers on.
    fn settle(&mut self, item: Item, first: u32, found: Fixation) -> Result<(), NoMemory> {
        let Fixation { ty, value } = found;
        let end = self.constants.count();
        self.making.set(item, Span { first, end })?;
        if let Some(value) = value {
            self.constants.set(item, value)?;
        }
        self.known.set_item(item, ty)
    }

    fn waits_for_open(&self) -> bool {
        for item in self.waits.iter() {
            if self.open.contains(item) {
                return true;
            }
        }
        false
    }

    // What the item is, as far as what it needs is known.
    fn item<'x>(
        &mut self,
        alloc: Global,
        table: &'x Table,
        declared: &'x Declared,
        item: Item,
    ) -> Result<Fixation, NoMemory> {
        let Some(declaration) = table.declaration(item.member) else {
            return Ok(Fixation::bad());
        };
        let fixed = Site::in_class(table, declared, item.member.class, true);
        match &declaration.kind {
            DeclKind::Var(variable) => {
                let site = Site {
                    is_static: variable.is_static,
                    ..fixed
                };
                let ty = match &variable.value {
                    Some(value) => self.value(alloc, &site, value, None)?,
                    None => Ty::Bad,
                };
                Ok(Fixation { ty, value: None })
            }
            DeclKind::Const(constant) => self.constant(alloc, &fixed, constant),
            DeclKind::Enum(Some((_, pos)), values) if item.value == 0 => {
                self.whole_enum(alloc, &fixed, item.member, *pos, values.items())
            }
            DeclKind::Enum(_, values) => self.enum_value(alloc, &fixed, values.items(), item),
            _ => Ok(Fixation::bad()),
        }
    }
}
