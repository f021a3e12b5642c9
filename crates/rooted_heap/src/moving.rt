//! Values change their places, or give their place to another.
ghost use Rattle.std.specs.Prelude.{◌≡◌, ◌<◌, length, slice_set, swap};
ghost use Rattle.rooted_heap.specs.Rooted.{CanHold};
ghost use Rattle.rooted_heap.specs.Moving.{sunk};

use crate::RootedHeap;
use crate::uncounted::{give_up, keep};
use gd_model::Value;
use std::mem;

impl RootedHeap {
    /// Moves the last value below the `count` before it.
    pub fn sink(&mut self, count: usize)
        requires { count < length self.old.values }
        ensures { self.new ≡ record self.old { values = sunk self.old.values count } }
    {
        let last = self.len() - 1;
        'steps: for j in 0..count {
            self.exchange(last - j, last - j - 1);
        }
    }

    // Two values change places.
    #[inline(always)]
    fn exchange(&mut self, i: usize, j: usize)
        requires first { i < length self.old.values }
        requires second { j < length self.old.values }
        ensures { self.new ≡ record self.old { values = swap self.old.values i j } }
    {
        self.slots.as_mut_slice().swap(i, j);
    }

    /// Puts a value that may be held once more at place `i`, and gives up the one that was there.
    pub fn set_held(&mut self, i: usize, value: Value)
        requires there { i < length self.old.values }
        requires held { CanHold self.old value }
        ensures { self.new ≡ record self.old { values = slice_set self.old.values i value } }
    {
        keep(&mut self.heap, &value);
        let old = mem::replace(&mut self.slots[i], value);
        give_up(&mut self.heap, &old);
    }
}
