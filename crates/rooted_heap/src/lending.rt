//! Values lent to operators and builtins, with the things that they lead to.
ghost use Rattle.std.specs.Prelude.{◌≡◌, ◌-◌, ◌<◌, ◌≤◌, length, drop, slice_index_or};
ghost use Rattle.gd_model.specs.Whole.{Whole, AllWhole};
ghost use Rattle.rooted_heap.specs.Lent.{things_in, behind, named_in};

use crate::{RootedHeap, Things};
use gd_model::Value;

impl RootedHeap {
    /// The things and the names of classes.
    pub fn things(&self) -> Things<'_>
        ensures things { things_in result ≡ self.now.things }
        ensures names { result.names.now ≡ self.now.names }
    {
        Things {
            heap: &self.heap,
            names: self.names.items(),
        }
    }

    /// The last value.
    #[inline(always)]
    pub fn last(&self) -> (&Value, Things<'_>)
        requires { 0 < length self.now.values }
        ensures value { result.0.now ≡ slice_index_or self.now.values (length self.now.values - 1) result.0.now }
        ensures whole { Whole (behind result.1) (named_in result.1) result.0.now }
        ensures things { things_in result.1 ≡ self.now.things }
        ensures names { result.1.names.now ≡ self.now.names }
    {
        (&self.slots[self.top - 1], self.things())
    }

    /// The value before the last, and the last.
    #[inline(always)]
    pub fn last_two(&self) -> (&Value, &Value, Things<'_>)
        requires { 1 < length self.now.values }
        ensures left { result.0.now ≡ slice_index_or self.now.values (length self.now.values - 2) result.0.now }
        ensures right { result.1.now ≡ slice_index_or self.now.values (length self.now.values - 1) result.1.now }
        ensures left_whole { Whole (behind result.2) (named_in result.2) result.0.now }
        ensures right_whole { Whole (behind result.2) (named_in result.2) result.1.now }
        ensures things { things_in result.2 ≡ self.now.things }
        ensures names { result.2.names.now ≡ self.now.names }
    {
        (
            &self.slots[self.top - 2],
            &self.slots[self.top - 1],
            self.things(),
        )
    }

    /// The last `count` values.
    pub fn last_values(&self, count: usize) -> (&[Value], Things<'_>)
        requires { count ≤ length self.now.values }
        ensures values { result.0.now ≡ drop (length self.now.values - count) self.now.values }
        ensures whole { AllWhole (behind result.1) (named_in result.1) result.0.now }
        ensures things { things_in result.1 ≡ self.now.things }
        ensures names { result.1.names.now ≡ self.now.names }
    {
        let all = &self.slots.as_slice()[..self.top];
        (&all[self.top - count..], self.things())
    }
}
