//! What is asked about one item at a time.
ghost use Rattle.std.specs.Prelude.{◌≡◌, List, IfOk};
ghost use Rattle.gd_members.specs.declared.Item.{Item};
ghost use Rattle.cycle_resolver.specs.Unfold.{IsCause, IsOpen, Settled, after_give_up, after_visit};

use gd_members::Item;
use no_memory::NoMemory;
use std::alloc::Global;

/// What a visit of an item comes to.
#[derive(Clone, Copy, Debug, PartialEq, Eq)]
pub enum Visit {
    /// The item is typed now. All that it needs was typed before.
    Typed,
    /// The item needs this one, which is not settled.
    Needs(Item),
    /// The item needs one that was given up.
    Cyclic,
}

/// Items that are settled one by one, each as typed or as given up.
pub trait Unfold {
    /// The items that an item needs. No call changes them.
    ghost needs: { Self → Item → List Item };

    /// The items that are settled so far.
    ghost settled: { Self → Settled };

    /// Types an item that is not settled, or says what it waits for. Only `Typed` changes what is settled.
    fn visit(&mut self, alloc: Global, item: Item) -> Result<Visit, NoMemory>
        requires { IsOpen (settled self.old) item }
        ensures needs { needs self.new ≡ needs self.old }
        ensures settled { settled self.new ≡ after_visit (settled self.old) item result }
        ensures cause { IfOk result (IsCause (needs self.old item) (settled self.old)) };

    /// Gives up an item that is not settled. After `NoMemory` it is still not settled.
    fn give_up(&mut self, item: Item) -> Result<(), NoMemory>
        requires { IsOpen (settled self.old) item }
        ensures needs { needs self.new ≡ needs self.old }
        ensures settled { settled self.new ≡ after_give_up (settled self.old) item result };
}
