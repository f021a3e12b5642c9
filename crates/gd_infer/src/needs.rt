//! What each item needs, and which items are settled.
ghost use Rattle.std.specs.Prelude.{◌≡◌, ◌↔◌, [], IfOk, IsTrue, filter};
ghost use Rattle.std.specs.List.{Contains};
ghost use Rattle.cycle_resolver.specs.Unfold.{IsCause, IsOpen, after_give_up};
ghost use Rattle.cycle_resolver.specs.Order.{AreDistinct};
ghost use Rattle.gd_infer.specs.Needs.{after_typing, is_item, needs_in, settled_in};

use cycle_resolver::{Item, Visit};
use gd_syntax::Seq;
use indexmap::{IndexMap, IndexSet};
use no_memory::NoMemory;
use std::alloc::Global;

/// The items that are settled, in the order in which that came about.
#[derive(Drop)]
pub struct Progress {
    typed: IndexSet<Item>,
    given_up: IndexSet<Item>,
}

impl Progress {
    /// Nothing is settled.
    pub fn new(alloc: Global) -> Progress
        ensures typed { (settled_in result).typed ≡ [] }
        ensures given_up { (settled_in result).given_up ≡ [] }
    {
        Progress {
            typed: IndexSet::new(alloc),
            given_up: IndexSet::new(alloc),
        }
    }

    fn is_typed(&self, item: Item) -> bool
        ensures { IsTrue result ↔ Contains (settled_in self.now).typed item }
    {
        self.typed.contains(&item)
    }

    fn is_given_up(&self, item: Item) -> bool
        ensures { IsTrue result ↔ Contains (settled_in self.now).given_up item }
    {
        self.given_up.contains(&item)
    }

    /// The item is settled as typed.
    pub fn add_typed(&mut self, item: Item) -> Result<(), NoMemory>
        requires { IsOpen (settled_in self.old) item }
        ensures { settled_in self.new ≡ after_typing (settled_in self.old) item result }
    {
        self.typed.insert(item)?;
        Ok(())
    }

    /// The item is settled as given up.
    pub fn add_given_up(&mut self, item: Item) -> Result<(), NoMemory>
        requires { IsOpen (settled_in self.old) item }
        ensures { settled_in self.new ≡ after_give_up (settled_in self.old) item result }
    {
        self.given_up.insert(item)?;
        Ok(())
    }
}

/// The items of a project, in the order of their classes and places, and what each needs.
#[derive(Drop)]
pub struct ItemNeeds {
    items: IndexSet<Item>,
    rows: IndexMap<Item, Seq<Item>>,
}

impl ItemNeeds {
    /// No items.
    pub fn new(alloc: Global) -> ItemNeeds {
        ItemNeeds {
            items: IndexSet::new(alloc),
            rows: IndexMap::new(alloc),
        }
    }

    /// One item more, at the end.
    pub fn add(&mut self, item: Item) -> Result<(), NoMemory> {
        self.items.insert(item)?;
        Ok(())
    }

    /// From now on the item needs these.
    pub fn set_needs(&mut self, item: Item, needs: Vec<Item>) -> Result<(), NoMemory> {
        self.rows.insert(item, Seq::of(needs))?;
        Ok(())
    }

    /// What the item needs, in the order in which its value names it.
    pub fn row(&self, item: Item) -> &[Item] {
        match self.rows.get(&item) {
            Some(row) => row.items(),
            None => &[],
        }
    }

    /// Whether it is one of the items.
    pub fn has(&self, item: Item) -> bool
        ensures { result ≡ is_item self.now item }
    {
        self.items.contains(&item)
    }

    /// The items in order.
    pub fn all(&self) -> &[Item]
        ensures items { result.now ≡ self.now.items.keys }
        ensures distinct { AreDistinct result.now }
    {
        self.items.as_slice()
    }

    /// A copy of the items in order.
    pub fn items(&self, alloc: Global) -> Result<Vec<Item>, NoMemory>
        ensures items { IfOk result (λ all. all.items ≡ self.now.items.keys) }
        ensures distinct { IfOk result (λ all. AreDistinct all.items) }
    {
        let all = self.all();
        Ok(Vec::from_slice(alloc, all)?)
    }

    /// What a visit of the item comes to, of which nothing is settled yet: whether all that it needs is typed, or what it waits for.
    pub fn cause(&self, progress: &Progress, item: Item) -> Visit
        ensures { IsCause (needs_in self.now item) (settled_in progress.now) result }
    {
        match self.rows.get(&item) {
            Some(row) => self.cause_of(progress, row.items()),
            None => Visit::Typed,
        }
    }

    fn cause_of(&self, progress: &Progress, row: &[Item]) -> Visit
        ensures { IsCause (filter (is_item self.now) row.now) (settled_in progress.now) result }
    {
        for &next in row {
            if !self.has(next) {
                continue;
            }
            if progress.is_given_up(next) {
                return Visit::Cyclic;
            }
            if !progress.is_typed(next) {
                return Visit::Needs(next);
            }
        }
        Visit::Typed
    }
}
