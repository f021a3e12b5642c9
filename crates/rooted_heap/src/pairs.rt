//! The changes of dictionaries that methods decide on are made.
ghost use Rattle.std.specs.Prelude.{◌≡◌, ◌+◌, ◌<◌, ◌≤◌, ◌++◌, ◌∷◌, [], false, None, length, take, IsTrue, IfOk, OnOk, OnErr, IfSome};
ghost use Rattle.std.specs.List.{All};
ghost use Rattle.gd_model.specs.declared.value.Value.{Value as TheValue};
ghost use Rattle.gd_model.specs.Whole.{key_value, pair_values};
ghost use Rattle.counted_heap.specs.Thing.{thing_pairs};
ghost use Rattle.rooted_heap.specs.Rooted.{CanHold};
ghost use Rattle.rooted_heap.specs.Keeping.{given_all, CanGive};
ghost use Rattle.rooted_heap.specs.Pairs.{pair_in, without_entry, emptied, lying, Grows};

use crate::RootedHeap;
use crate::keeping::{give_up_pairs, named_by};
use crate::named::named_dict;
use crate::uncounted::{Heaped, give_up};
use container_methods::DictChange;
use counted_heap::Thing;
use gd_containers::ThingFault;
use gd_model::{Key, Value};
use std::alloc::Global;

/// Takes the pair of a key out of a dictionary.
fn erase_from(thing: &mut Thing, key: &Key) -> Result<Option<(Key, Value)>, ThingFault>
    ensures pair { IfOk result (λ pair. pair ≡ pair_in key.now thing.old) }
    ensures ok { OnOk result (thing.new ≡ without_entry key.now thing.old) }
    ensures few { OnOk result (length (thing_pairs thing.new) ≤ 16777216) }
    ensures err { OnErr result (thing.new ≡ thing.old) }
{
    match thing {
        Thing::Dict(dict) => {
            let pair = dict.get_mut().erase(key)?;
            let _size = dict.get().size();
            Ok(pair)
        }
        Thing::Object(_, _) | Thing::Array(_) => Ok(None),
    }
}

/// Takes all pairs out of a dictionary.
fn clear_from(alloc: Global, thing: &mut Thing) -> Result<Vec<(Key, Value)>, ThingFault>
    ensures pairs { IfOk result (λ all. all.items ≡ thing_pairs thing.old) }
    ensures ok { OnOk result (thing.new ≡ emptied thing.old) }
    ensures err { OnErr result (thing.new ≡ thing.old) }
{
    match thing {
        Thing::Dict(dict) => dict.get_mut().clear(),
        Thing::Object(_, _) | Thing::Array(_) => Ok(Vec::new(alloc)),
    }
}

/// Gives up what a pair holds, where there is one.
fn give_up_pair(heap: &mut Heaped, pair: &Option<(Key, Value)>)
    requires { CanGive heap.old.things (lying pair.now) }
    ensures { heap.new ≡ record heap.old { things = given_all heap.old.things (lying pair.now) } }
{
    if let Some((key, value)) = pair {
        let named = named_by(key);
        give_up(heap, &named);
        give_up(heap, value);
    }
}

impl RootedHeap {
    /// Makes a change of the dictionary at place `i`, and pushes the method's answer; what the change brings, and an answer, is
    /// counted, and what leaves is given up. False, with the values as they were, where no dictionary stands there, or what the
    /// change brings may not be held. After a refusal, too, the values are as they were; a merge may have put some pairs.
    pub fn change_dict(&mut self, i: usize, change: DictChange) -> Result<bool, ThingFault>
        requires there { i < length self.old.values }
        requires room { length self.old.values < self.old.slots }
        ensures pushed { IfOk result (λ done. IsTrue done → (x : TheValue) × (self.new.values ≡ self.old.values ++ x ∷ [])) }
        ensures same { IfOk result (λ done. done ≡ false → self.new.values ≡ self.old.values) }
        ensures err { OnErr result (self.new.values ≡ self.old.values) }
        ensures grows { Grows self.old self.new }
    {
        match change {
            DictChange::Keep(answer) => Ok(self.push_tested(answer)),
            DictChange::Add(key, value, answer) => self.add_pair(i, key, value, answer),
            DictChange::Erase(key) => self.erase_pair(i, &key),
            DictChange::Clear => self.clear_pairs(i),
            DictChange::Merge(pairs) => self.merge_pairs(i, pairs),
        }
    }

    // Pushes a value where it may be held once more.
    fn push_tested(&mut self, value: Value) -> bool
        requires { length self.old.values < self.old.slots }
        ensures pushed { IsTrue result → (x : TheValue) × (self.new.values ≡ self.old.values ++ x ∷ []) }
        ensures same { result ≡ false → self.new ≡ self.old }
        ensures grows { Grows self.old self.new }
    {
        if !self.can_hold(&value) {
            return false;
        }
        self.push_held(value);
        true
    }

    // The dictionary at place `i` gets a pair, where it may be held, and the value that was there, or null, comes last.
    fn exchange_tested(&mut self, i: usize, key: Key, value: Value) -> Result<bool, ThingFault>
        requires there { i < length self.old.values }
        requires room { length self.old.values < self.old.slots }
        ensures pushed { IfOk result (λ done. IsTrue done → (x : TheValue) × (self.new.values ≡ self.old.values ++ x ∷ [])) }
        ensures same { IfOk result (λ done. done ≡ false → self.new ≡ self.old) }
        ensures err { OnErr result (self.new ≡ self.old) }
        ensures grows { Grows self.old self.new }
    {
        if !self.can_hold_key(&key) || !self.can_hold(&value) {
            return Ok(false);
        }
        self.exchange_entry(i, key, value)
    }

    // The pair is put, and the answer comes last.
    fn add_pair(
        &mut self,
        i: usize,
        key: Key,
        value: Value,
        answer: Value,
    ) -> Result<bool, ThingFault>
        requires there { i < length self.old.values }
        requires room { length self.old.values < self.old.slots }
        ensures pushed { IfOk result (λ done. IsTrue done → (x : TheValue) × (self.new.values ≡ self.old.values ++ x ∷ [])) }
        ensures same { IfOk result (λ done. done ≡ false → self.new.values ≡ self.old.values) }
        ensures err { OnErr result (self.new.values ≡ self.old.values) }
        ensures grows { Grows self.old self.new }
    {
        self.reserve(2)?;
        if !self.push_tested(answer) {
            return Ok(false);
        }
        match self.exchange_tested(i, key, value) {
            Ok(true) => {
                self.pop();
                Ok(true)
            }
            refused => {
                self.pop();
                refused
            }
        }
    }

    // The pair of a key goes, and whether one was there comes last.
    fn erase_pair(&mut self, i: usize, key: &Key) -> Result<bool, ThingFault>
        requires there { i < length self.old.values }
        requires room { length self.old.values < self.old.slots }
        ensures pushed { IfOk result (λ done. IsTrue done → (x : TheValue) × (self.new.values ≡ self.old.values ++ x ∷ [])) }
        ensures same { IfOk result (λ done. done ≡ false → self.new.values ≡ self.old.values) }
        ensures err { OnErr result (self.new.values ≡ self.old.values) }
        ensures grows { Grows self.old self.new }
    {
        let Some(was) = self.take_pair(i, key)? else {
            return Ok(false);
        };
        self.push_free(Value::Bool(was));
        Ok(true)
    }

    // All pairs go, and null comes last.
    fn clear_pairs(&mut self, i: usize) -> Result<bool, ThingFault>
        requires there { i < length self.old.values }
        requires room { length self.old.values < self.old.slots }
        ensures pushed { IfOk result (λ done. IsTrue done → (x : TheValue) × (self.new.values ≡ self.old.values ++ x ∷ [])) }
        ensures same { IfOk result (λ done. done ≡ false → self.new.values ≡ self.old.values) }
        ensures err { OnErr result (self.new.values ≡ self.old.values) }
        ensures grows { Grows self.old self.new }
    {
        if !self.take_pairs(i)? {
            return Ok(false);
        }
        self.push_free(Value::Nil);
        Ok(true)
    }

    // Takes the pair of a key out of the dictionary at place `i`, and answers whether there was one; `None` where no
    // dictionary stands there.
    fn take_pair(&mut self, i: usize, key: &Key) -> Result<Option<bool>, ThingFault>
        requires { i < length self.old.values }
        ensures { self.new ≡ record self.old { things = self.new.things } }
    {
        let Some(h) = named_dict(&self.slots[i]) else {
            return Ok(None);
        };
        self.heap.rising_law();
        let pair = erase_from(self.heap.thing_mut(h), key)?;
        give_up_pair(&mut self.heap, &pair);
        Ok(Some(pair.is_some()))
    }

    // Takes all pairs out of the dictionary at place `i`. False where no dictionary stands there.
    fn take_pairs(&mut self, i: usize) -> Result<bool, ThingFault>
        requires { i < length self.old.values }
        ensures { self.new ≡ record self.old { things = self.new.things } }
    {
        let Some(h) = named_dict(&self.slots[i]) else {
            return Ok(false);
        };
        self.heap.rising_law();
        let alloc = *self.slots.allocator();
        let pairs = clear_from(alloc, self.heap.thing_mut(h))?;
        give_up_pairs(&mut self.heap, &pairs);
        Ok(true)
    }

    // These pairs are put in turn, and null comes last. What they took the place of is held until all are put.
    fn merge_pairs(&mut self, i: usize, pairs: Vec<(Key, Value)>) -> Result<bool, ThingFault>
        requires there { i < length self.old.values }
        requires room { length self.old.values < self.old.slots }
        ensures pushed { IfOk result (λ done. IsTrue done → (x : TheValue) × (self.new.values ≡ self.old.values ++ x ∷ [])) }
        ensures same { IfOk result (λ done. done ≡ false → self.new.values ≡ self.old.values) }
        ensures err { OnErr result (self.new.values ≡ self.old.values) }
        ensures grows { Grows self.old self.new }
    {
        self.reserve(pairs.len())?;
        let base = self.len();
        let done = self.put_pairs(i, pairs);
        let count = self.len() - base;
        self.drop_last(count);
        if !done? {
            return Ok(false);
        }
        self.push_free(Value::Nil);
        Ok(true)
    }

    // Puts pairs in turn. The values that they took the place of, and nulls, come last.
    fn put_pairs(&mut self, i: usize, mut pairs: Vec<(Key, Value)>) -> Result<bool, ThingFault>
        requires there { i < length self.old.values }
        requires room { length self.old.values + length pairs.items ≤ self.old.slots }
        ensures more { length self.old.values ≤ length self.new.values }
        ensures first { take (length self.old.values) self.new.values ≡ self.old.values }
        ensures grows { Grows self.old self.new }
    {
        pairs.reverse();
        'puts: while let Some((key, value)) = pairs.pop() {
            if !self.exchange_tested(i, key, value)? {
                return Ok(false);
            }
        }
        Ok(true)
    }
}
