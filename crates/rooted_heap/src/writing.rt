//! Values pass between things and the stack.
ghost use Rattle.std.specs.Prelude.{◌≡◌, ◌+◌, ◌^◌, ◌<◌, false, length, slice_index_or, IsTrue, OnOk, OnErr};
ghost use Rattle.gd_model.specs.declared.value.Value.TheVariants as v;
ghost use Rattle.counted_heap.specs.Thing.{thing_values};
ghost use Rattle.rooted_heap.specs.Writing.{Exchanges, SwapsValue};

use crate::RootedHeap;
use crate::named::named_object;
use counted_heap::Thing;
use gd_model::Value;
use std::mem;

/// Exchanges variable `k` of an object with a value. False, with nothing changed, where there is no such variable.
fn exchange_variable(thing: &mut Thing, k: usize, value: &mut Value) -> bool
    ensures exchanged { IsTrue result → Exchanges k thing.old value.old thing.new value.new }
    ensures few { IsTrue result → length (thing_values thing.new) < 2 ^ 64 }
    ensures same_thing { result ≡ false → thing.new ≡ thing.old }
    ensures same_value { result ≡ false → value.new ≡ value.old }
{
    match thing {
        Thing::Object(_, values) => {
            let variables = values.items_mut();
            if k < variables.len() {
                mem::swap(&mut variables[k], value);
                true
            } else {
                false
            }
        }
        Thing::Array(_) | Thing::Dict(_) => false,
    }
}

impl RootedHeap {
    /// Exchanges the last value with variable `k` of the object at place `i`. False, with nothing changed, where no object
    /// with such a variable stands there.
    pub fn swap_variable(&mut self, i: usize, k: usize) -> bool
        requires { i + 1 < length self.old.values }
        ensures swapped { IsTrue result → SwapsValue self.old i k self.new }
        ensures same { result ≡ false → self.new ≡ self.old }
    {
        let Some(h) = named_object(&self.slots[i]) else {
            return false;
        };
        self.heap.rising_law();
        let last = &mut self.slots[self.top - 1];
        let done = exchange_variable(self.heap.thing_mut(h), k, last);
        self.heap.rising_law();
        done
    }
}
