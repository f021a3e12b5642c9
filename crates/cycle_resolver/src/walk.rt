//! A walk along needs, one item at a time.
ghost use Rattle.std.specs.Prelude.{◌≡◌, [], OnOk, false};
ghost use Rattle.cycle_resolver.specs.Unfold.{IsOpen};
ghost use Rattle.cycle_resolver.specs.Walk.{GivesUp, Steps, has_met};

use crate::unfold::{Unfold, Visit};
use gd_members::Item;
use no_memory::NoMemory;
use std::alloc::Global;
use std::collections::HashSet;

/// How far a walk has come.
#[derive(Drop)]
pub struct Walk {
    /// All items that it has come to.
    pub met: HashSet<Item>,
    /// The items that it has come to and not settled: each needs the one behind it.
    pub path: Vec<Item>,
    pub sequence: Vec<Item>,
    pub cyclic: Vec<Item>,
}

impl Walk {
    /// A walk that has come to no item.
    pub fn new(alloc: Global) -> Walk
        ensures met { (item : _) → has_met result item ≡ false }
        ensures path { result.path.items ≡ [] }
        ensures sequence { result.sequence.items ≡ [] }
        ensures cyclic { result.cyclic.items ≡ [] }
    {
        Walk {
            met: HashSet::new(alloc),
            path: Vec::new(alloc),
            sequence: Vec::new(alloc),
            cyclic: Vec::new(alloc),
        }
    }

    /// Visits the item that stood last on the path and was taken off it: settles it, or puts it back with an item that
    /// it needs behind it.
    pub fn step<U: Unfold>(
        &mut self,
        alloc: Global,
        visitor: &mut U,
        top: Item,
    ) -> Result<(), NoMemory>
        requires { IsOpen (U.settled visitor.old) top }
        ensures needs { U.needs visitor.new ≡ U.needs visitor.old }
        ensures steps { OnOk result (Steps (U.needs visitor.old) top (U.settled visitor.old) (U.settled visitor.new) self.old self.new) }
    {
        match visitor.visit(alloc, top)? {
            Visit::Typed => {
                self.sequence.push(top)?;
                Ok(())
            }
            Visit::Needs(next) => {
                // An item that was met and is not settled is on the path, so the needs go round.
                if self.met.insert(next)? {
                    self.path.push(top)?;
                    self.path.push(next)?;
                    Ok(())
                } else {
                    self.give_up(visitor, top)
                }
            }
            Visit::Cyclic => self.give_up(visitor, top),
        }
    }

    // Gives up the item that was taken off the path.
    fn give_up<U: Unfold>(&mut self, visitor: &mut U, top: Item) -> Result<(), NoMemory>
        requires { IsOpen (U.settled visitor.old) top }
        ensures needs { U.needs visitor.new ≡ U.needs visitor.old }
        ensures gives_up { OnOk result (GivesUp top (U.settled visitor.old) (U.settled visitor.new) self.old self.new) }
    {
        visitor.give_up(top)?;
        self.cyclic.push(top)?;
        Ok(())
    }
}
