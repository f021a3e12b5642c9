//! The things of a heap and the names of classes, lent to operators and builtins.
ghost use Rattle.std.specs.Prelude.{◌≡◌, map, Some};
ghost use Rattle.std.specs.Option.{option_copied};
ghost use Rattle.gd_model.specs.View.{array_in, dict_in, class_in};
ghost use Rattle.rooted_heap.specs.Rooted.{bare, seen, store_of, names_of, thing_view};

use counted_heap::{Heap, Thing};
use gd_containers::{Look, OrderedDict, TypedArray};
use gd_syntax::Text;
use slot_arena::{Handle, SlabSlots};

/// The things of a heap, by their handles, and the names of the classes by number.
#[derive(Drop)]
pub struct Things<'a> {
    pub(crate) heap: &'a Heap<Thing, SlabSlots<Thing>>,
    pub(crate) names: &'a [Text],
}

impl<'a> Look for Things<'a> {
    ghost use Rattle.rooted_heap.specs.Stored.{seen_is_stored};

    ghost things = { λ s. seen (map bare s.heap.now.things) };

    ghost store = { λ s. store_of (map bare s.heap.now.things) };

    ghost names = { λ s. names_of s.names.now };

    ghost by_serial = { λ s h thing is. seen_is_stored (map bare s.heap.now.things) h thing is };

    fn array(&self, h: Handle) -> Option<&TypedArray> {
        self.heap.rising_law();
        let thing = self.heap.read(h)?;
        array_of(thing)
    }

    fn dict(&self, h: Handle) -> Option<&OrderedDict> {
        self.heap.rising_law();
        let thing = self.heap.read(h)?;
        dict_of(thing)
    }

    fn class_of(&self, h: Handle) -> Option<u32> {
        self.heap.rising_law();
        let thing = self.heap.read(h)?;
        class_of(thing)
    }

    fn class_name(&self, class: u32) -> Option<&Text> {
        self.names.get(class as usize)
    }
}

/// The array that a thing is.
pub(crate) fn array_of(thing: &Thing) -> Option<&TypedArray>
    ensures { option_copied result ≡ array_in (Some (thing_view thing.now)) }
{
    match thing {
        Thing::Array(array) => Some(array),
        Thing::Object(_, _) | Thing::Dict(_) => None,
    }
}

/// The dictionary that a thing is.
pub(crate) fn dict_of(thing: &Thing) -> Option<&OrderedDict>
    ensures { option_copied result ≡ dict_in (Some (thing_view thing.now)) }
{
    match thing {
        Thing::Dict(dict) => Some(dict.get()),
        Thing::Object(_, _) | Thing::Array(_) => None,
    }
}

/// The class of the object that a thing is.
pub(crate) fn class_of(thing: &Thing) -> Option<u32>
    ensures { result ≡ class_in (Some (thing_view thing.now)) }
{
    match thing {
        Thing::Object(class, _) => Some(*class),
        Thing::Array(_) | Thing::Dict(_) => None,
    }
}
