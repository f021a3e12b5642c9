//! Elements and entries of containers get other values.
ghost use Rattle.std.specs.Prelude.{◌≡◌, ◌+◌, ◌-◌, ◌^◌, ◌<◌, ◌≤◌, None, false, length, slice_set, slice_index_or, IsTrue, IfOk, OnErr};
ghost use Rattle.gd_model.specs.declared.value.Value.TheVariants as v;
ghost use Rattle.gd_model.specs.Whole.{key_value};
ghost use Rattle.gd_containers.specs.Answers.{RefusedBy};
ghost use Rattle.counted_heap.specs.Thing.{thing_values, thing_pairs};
ghost use Rattle.rooted_heap.specs.Rooted.{CanHold};
ghost use Rattle.rooted_heap.specs.Writing.{Exchanges, SwapsValue, plain_part};
ghost use Rattle.rooted_heap.specs.Keeping.{given_all, CanGive};
ghost use Rattle.rooted_heap.specs.Entries.{IsDict, PutsInto, PutsKept, PutsPair, put_fault_in, again};

use crate::RootedHeap;
use crate::keeping::named_by;
use crate::named::{named_array, named_dict};
use crate::uncounted::{Heaped, give_up, keep};
use counted_heap::Thing;
use gd_containers::ThingFault;
use gd_model::{Key, Value};
use std::mem;

/// The value without what it shares: it names the same thing.
pub(crate) fn plain_part_of(value: &Value) -> Value
    ensures { result ≡ plain_part value.now }
{
    value.copied().unwrap_or(Value::Nil)
}

/// Exchanges element `k` of an array with a value. False, with nothing changed, where it is no array that may be written and
/// has such an element. After `NoMemory` the array is as it was, and the value has lost what it shared.
fn exchange_element(thing: &mut Thing, k: usize, value: &mut Value) -> Result<bool, ThingFault>
    ensures exchanged { IfOk result (λ done. IsTrue done → Exchanges k thing.old value.old thing.new value.new) }
    ensures few { IfOk result (λ done. IsTrue done → length (thing_values thing.new) < 2 ^ 64) }
    ensures same_thing { IfOk result (λ done. done ≡ false → thing.new ≡ thing.old) }
    ensures same_value { IfOk result (λ done. done ≡ false → value.new ≡ value.old) }
    ensures err_thing { OnErr result (thing.new ≡ thing.old) }
    ensures err_value { OnErr result (value.new ≡ plain_part value.old) }
    ensures faults { RefusedBy None result }
{
    match thing {
        Thing::Array(array) => {
            if array.fixed() || k >= array.size() as usize {
                return Ok(false);
            }
            let plain = plain_part_of(value);
            let given = mem::replace(value, plain);
            let old = array.set(k as i64, given, true)?;
            *value = old;
            Ok(true)
        }
        Thing::Object(_, _) | Thing::Dict(_) => Ok(false),
    }
}

/// Puts a value at a key of a dictionary, and gives the one that was there.
fn put_pair(thing: &mut Thing, key: Key, value: Value) -> Result<Option<Value>, ThingFault>
    requires { IsDict thing.old }
    ensures ok { IfOk result (λ old. PutsInto thing.old key value thing.new old) }
    ensures few { IfOk result (λ old. length (thing_pairs thing.new) ≤ 16777216) }
    ensures err { OnErr result (thing.new ≡ thing.old) }
    ensures faults { RefusedBy (put_fault_in key thing.old) result }
{
    match thing {
        Thing::Dict(dict) => {
            let old = dict.get_mut().put(key, value, true)?;
            let _size = dict.get().size();
            Ok(old)
        }
        Thing::Object(_, _) | Thing::Array(_) => unreachable!(),
    }
}

/// Gives up the key that came once more, where a value was at it.
fn give_up_again(heap: &mut Heaped, key: &Value, was: &Option<Value>)
    requires { CanGive heap.old.things (again key.now was.now) }
    ensures { heap.new ≡ record heap.old { things = given_all heap.old.things (again key.now was.now) } }
{
    if was.is_some() {
        give_up(heap, key);
    }
}

impl RootedHeap {
    /// Exchanges the last value with element `k` of the array at place `i`. False, with nothing changed, where no array that
    /// may be written and has such an element stands there. There is no run fault; after `NoMemory` no thing has changed,
    /// and the last value has lost what it shared.
    pub fn swap_element(&mut self, i: usize, k: usize) -> Result<bool, ThingFault>
        requires { i + 1 < length self.old.values }
        ensures swapped { IfOk result (λ done. IsTrue done → SwapsValue self.old i k self.new) }
        ensures same { IfOk result (λ done. done ≡ false → self.new ≡ self.old) }
        ensures err { OnErr result (self.new ≡ record self.old { values = slice_set self.old.values (length self.old.values - 1) (plain_part (slice_index_or self.old.values (length self.old.values - 1) v.Nil)) }) }
        ensures faults { RefusedBy None result }
    {
        let Some(h) = named_array(&self.slots[i]) else {
            return Ok(false);
        };
        self.heap.rising_law();
        let last = &mut self.slots[self.top - 1];
        let done = exchange_element(self.heap.thing_mut(h), k, last);
        self.heap.rising_law();
        done
    }

    /// Puts a value at a key, both of which may be held once more, into the dictionary at place `i`; the value that was there,
    /// or null, comes last. False, with nothing changed, where no dictionary stands there. `ReadOnly`, then `TooLong` for a
    /// new key. After a refusal nothing has changed.
    pub fn exchange_entry(&mut self, i: usize, key: Key, value: Value) -> Result<bool, ThingFault>
        requires there { i < length self.old.values }
        requires room { length self.old.values < self.old.slots }
        requires held_key { CanHold self.old (key_value key) }
        requires held { CanHold self.old value }
        ensures put { IfOk result (λ done. IsTrue done → PutsKept self.old i key value self.new) }
        ensures same { IfOk result (λ done. done ≡ false → self.new ≡ self.old) }
        ensures err { OnErr result (self.new ≡ self.old) }
    {
        let Some(h) = named_dict(&self.slots[i]) else {
            return Ok(false);
        };
        let named_key = named_by(&key);
        let named = plain_part_of(&value);
        self.heap.rising_law();
        keep(&mut self.heap, &named_key);
        keep(&mut self.heap, &named);
        match put_pair(self.heap.thing_mut(h), key, value) {
            Ok(old) => {
                give_up_again(&mut self.heap, &named_key, &old);
                self.slots[self.top] = old.unwrap_or(Value::Nil);
                self.top += 1;
                Ok(true)
            }
            Err(fault) => {
                give_up(&mut self.heap, &named);
                give_up(&mut self.heap, &named_key);
                Err(fault)
            }
        }
    }

    /// The same, and the value that was there is given up.
    pub fn put_entry(&mut self, i: usize, key: Key, value: Value) -> Result<bool, ThingFault>
        requires there { i < length self.old.values }
        requires room { length self.old.values < self.old.slots }
        requires held_key { CanHold self.old (key_value key) }
        requires held { CanHold self.old value }
        ensures put { IfOk result (λ done. IsTrue done → PutsPair self.old i key value self.new) }
        ensures same { IfOk result (λ done. done ≡ false → self.new ≡ self.old) }
        ensures err { OnErr result (self.new ≡ self.old) }
    {
        let done = self.exchange_entry(i, key, value)?;
        if !done {
            return Ok(false);
        }
        self.pop();
        Ok(true)
    }
}
