//! New arrays and dictionaries with what operators, builtins and literals put into them.
ghost use Rattle.std.specs.Prelude.{◌≡◌, ◌<◌, ◌^◌, [], length, IsTrue, OnOk, OnErr};
ghost use Rattle.std.specs.List.{All};
ghost use Rattle.gd_model.specs.Whole.{key_value, pair_values};
ghost use Rattle.gd_containers.specs.Answers.{RefusedBy};
ghost use Rattle.counted_heap.specs.declared.thing.Thing.TheVariants as thing;
ghost use Rattle.rooted_heap.specs.Rooted.{CanHold, contents};
ghost use Rattle.rooted_heap.specs.Making.{kind_in, limit_fault, PushesThing, IsContainer, MayRefuse};

use crate::RootedHeap;
use crate::keeping::{keep_contents, named_by};
use crate::making::{kind_of, value_of};
use crate::uncounted::make;
use counted_heap::Thing;
use gd_containers::{OnHeap, OrderedDict, ThingFault, TypedArray};
use gd_model::{Key, Ty, Value};

impl RootedHeap {
    /// Whether each of these values may be held once more.
    pub fn can_hold_all(&self, values: &[Value]) -> bool
        ensures { IsTrue result → All (CanHold self.now) values.now }
    {
        for value in values {
            if !self.can_hold(value) {
                return false;
            }
        }
        true
    }

    /// Whether what a key names may be held once more.
    pub fn can_hold_key(&self, key: &Key) -> bool
        ensures { IsTrue result → CanHold self.now (key_value key.now) }
    {
        self.can_hold(&named_by(key))
    }

    /// Whether each key and value may be held once more.
    pub fn can_hold_pairs(&self, dict: &OrderedDict) -> bool
        ensures { IsTrue result → All (CanHold self.now) (pair_values dict.now.pairs) }
    {
        for (key, value) in dict.iter() {
            if !self.can_hold_key(key) || !self.can_hold(value) {
                return false;
            }
        }
        true
    }

    /// Makes an array whose elements may be held once more, and pushes its value; the elements are counted. It is refused as
    /// `push_thing` is, and then nothing has changed.
    pub fn push_array(&mut self, array: TypedArray) -> Result<(), ThingFault>
        requires held { All (CanHold self.old) array.items }
        requires room { length self.old.values < self.old.slots }
        ensures faults { RefusedBy (limit_fault self.old) result }
        ensures ok { OnOk result (PushesThing self.old (thing.Array array) self.new) }
        ensures err { OnErr result (self.new ≡ self.old) }
    {
        let alloc = *self.slots.allocator();
        let empty = Thing::Array(TypedArray::new(alloc, Ty::Variant, false));
        let _size = array.size();
        self.push_filled(empty, Thing::Array(array))
    }

    /// Makes a dictionary whose keys and values may be held once more, and pushes its value; they are counted. It is refused
    /// as `push_thing` is, or for want of memory, and then nothing has changed.
    pub fn push_dict(&mut self, dict: OrderedDict) -> Result<(), ThingFault>
        requires held { All (CanHold self.old) (pair_values dict.pairs) }
        requires room { length self.old.values < self.old.slots }
        ensures faults { MayRefuse (limit_fault self.old) result }
        ensures ok { OnOk result (PushesThing self.old (thing.Dict dict) self.new) }
        ensures err { OnErr result (self.new ≡ self.old) }
    {
        let alloc = *self.slots.allocator();
        let _size = dict.size();
        let empty = OnHeap::new(alloc, OrderedDict::new(alloc, false))?;
        let full = OnHeap::new(alloc, dict)?;
        self.push_filled(Thing::Dict(empty), Thing::Dict(full))
    }

    // Makes an empty thing, and then gives it what may be held once more.
    fn push_filled(&mut self, empty: Thing, full: Thing) -> Result<(), ThingFault>
        requires free { contents empty ≡ [] }
        requires kind { kind_in full ≡ kind_in empty }
        requires container { IsContainer full }
        requires held { All (CanHold self.old) (contents full) }
        requires few { length (contents full) < 2 ^ 65 }
        requires room { length self.old.values < self.old.slots }
        ensures faults { RefusedBy (limit_fault self.old) result }
        ensures ok { OnOk result (PushesThing self.old full self.new) }
        ensures err { OnErr result (self.new ≡ self.old) }
    {
        let kind = kind_of(&empty);
        self.heap.rising_law();
        let h = make(&mut self.heap, empty)?;
        self.heap.rising_law();
        keep_contents(&mut self.heap, &full);
        self.heap.rising_law();
        *self.heap.thing_mut(h) = full;
        self.heap.rising_law();
        self.slots[self.top] = value_of(kind, h);
        self.top += 1;
        Ok(())
    }
}
