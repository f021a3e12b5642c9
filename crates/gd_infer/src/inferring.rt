//! Items settled in the order of their needs.
ghost use Rattle.std.specs.Prelude.{◌≡◌, IfOk};
ghost use Rattle.cycle_resolver.specs.Order.{AreDistinct};
ghost use Rattle.gd_infer.specs.Needs.{IsFresh, needs_in, settled_in};

use crate::inference::Inference;
use crate::items::{is_whole_enum, items_of, name_of};
use crate::needs::{ItemNeeds, Progress};
use cycle_resolver::{Item, Unfold, Visit, order};
use gd_model::Ty;
use gd_rules::Rule;
use gd_typing::{Declared, declare};
use no_memory::NoMemory;
use script_table::Table;
use std::alloc::Global;

/// The items of a project with what each needs, to be settled in an order of needs.
///
/// What an item needs depends on the types of what it names, so both are found together before any item is settled. An enum
/// as a whole, for which its name stands, counts as an item beside its values.
#[derive(Drop)]
pub struct Inferring {
    pub(crate) table: Table,
    pub(crate) declared: Declared,
    pub(crate) inference: Inference,
    pub(crate) needs: ItemNeeds,
    pub(crate) progress: Progress,
}

impl Inferring {
    /// The items of this project, none of which is settled.
    pub fn new(alloc: Global, table: Table) -> Result<Inferring, NoMemory>
        ensures { IfOk result (λ i. IsFresh i.progress) }
    {
        let declared = declare(alloc, &table)?;
        let mut needs = items_of(alloc, &table)?;
        let mut inference = Inference::new(alloc);
        inference.find_items(alloc, &table, &declared, &mut needs)?;
        Ok(Inferring {
            table,
            declared,
            inference,
            needs,
            progress: Progress::new(alloc),
        })
    }

    /// A copy of the items in the order of their classes and places.
    pub fn items(&self, alloc: Global) -> Result<Vec<Item>, NoMemory>
        ensures items { IfOk result (λ all. all.items ≡ self.now.needs.items.keys) }
        ensures distinct { IfOk result (λ all. AreDistinct all.items) }
    {
        self.needs.items(alloc)
    }

    /// Settles all items in an order of their needs. Those that lead to a cycle of needs are Bad.
    pub(crate) fn settle(&mut self, alloc: Global) -> Result<(), NoMemory>
        requires { IsFresh self.old.progress }
    {
        let items = self.items(alloc)?;
        let found = order(alloc, &items, self)?;
        give_up_all(&self.table, &mut self.inference, found.cyclic.items())
    }

    /// Types all that is no item, once the items are settled.
    pub(crate) fn type_all(&mut self, alloc: Global) -> Result<(), NoMemory> {
        let inference = &mut self.inference;
        inference.find_parameters(alloc, &self.table, &self.declared)?;
        inference.is_finding = false;
        inference.notes_items = false;
        inference.type_classes(alloc, &self.table, &self.declared)
    }
}

fn give_up_all(table: &Table, inference: &mut Inference, items: &[Item]) -> Result<(), NoMemory> {
    for &item in items {
        give_up(table, inference, item)?;
    }
    Ok(())
}

// The item leads to a cycle of needs: it is Bad, and that is reported at its name.
fn give_up(table: &Table, inference: &mut Inference, item: Item) -> Result<(), NoMemory> {
    inference.known.set_item(item, Ty::Bad)?;
    inference.constants.forget(item);
    if is_whole_enum(table, item) {
        return Ok(());
    }
    match name_of(table, item) {
        Some(pos) => inference.report(pos, Rule::CyclicInference),
        None => Ok(()),
    }
}

impl Unfold for Inferring {
    ghost needs = { λ s item. needs_in s.needs item };

    ghost settled = { λ s. settled_in s.progress };

    fn visit(&mut self, _alloc: Global, item: Item) -> Result<Visit, NoMemory> {
        match self.needs.cause(&self.progress, item) {
            Visit::Typed => {
                self.progress.add_typed(item)?;
                Ok(Visit::Typed)
            }
            Visit::Needs(next) => Ok(Visit::Needs(next)),
            Visit::Cyclic => Ok(Visit::Cyclic),
        }
    }

    fn give_up(&mut self, item: Item) -> Result<(), NoMemory> {
        self.progress.add_given_up(item)
    }
}
