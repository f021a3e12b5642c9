//! The changes of arrays that methods of containers decide on are made.
ghost use Rattle.std.specs.Prelude.{◌≡◌, ◌<◌, ◌≤◌, None, false, length, map, IsTrue, IfOk, OnOk, OnErr};
ghost use Rattle.std.specs.List.{All};
ghost use Rattle.gd_containers.specs.Answers.{RefusedBy};
ghost use Rattle.container_methods.specs.Arrays.{HasPlace, values_of};
ghost use Rattle.rooted_heap.specs.Rooted.{CanHold, contents};
ghost use Rattle.rooted_heap.specs.Keeping.{kept_all, CanKeep, given_all, CanGive};
ghost use Rattle.rooted_heap.specs.Writing.{plain_part};
ghost use Rattle.rooted_heap.specs.Changing.{brought, Fits, MakesThing, Takes, MakesChange, ChangesArray};

use crate::RootedHeap;
use crate::entries::plain_part_of;
use crate::keeping::{give_up_values, keep_values};
use crate::named::named_array;
use crate::uncounted::{Heaped, give_up, keep};
use container_methods::{ArrayChange, Gone, change_array};
use counted_heap::Thing;
use gd_containers::ThingFault;
use gd_model::Value;
use no_memory::NoMemory;
use slot_arena::Handle;
use std::alloc::Global;

/// The values without what they share: they name the same things.
fn plain_parts(alloc: Global, values: &[Value]) -> Result<Vec<Value>, NoMemory>
    ensures { IfOk result (λ all. all.items ≡ map plain_part values.now) }
{
    let mut all = Vec::new(alloc);
    for value in values {
        all.push(plain_part_of(value))?;
    }
    Ok(all)
}

/// What a change brings, without what it shares.
fn brought_by(alloc: Global, change: &ArrayChange) -> Result<Gone, NoMemory>
    ensures { IfOk result (λ plain. values_of plain ≡ map plain_part (brought change.now)) }
{
    match change {
        ArrayChange::Push(value) => Ok(Gone::One(plain_part_of(value))),
        ArrayChange::Insert(_, value) => Ok(Gone::One(plain_part_of(value))),
        ArrayChange::Extend(values) => Ok(Gone::All(plain_parts(alloc, values)?)),
        ArrayChange::Replace(values) => Ok(Gone::All(plain_parts(alloc, values)?)),
        ArrayChange::Remove(_)
        | ArrayChange::Take(_)
        | ArrayChange::Keep
        | ArrayChange::Clear
        | ArrayChange::Reverse
        | ArrayChange::Cut(_) => Ok(Gone::Nothing),
    }
}

/// Counts each of these values once more.
fn keep_gone(heap: &mut Heaped, values: &Gone)
    requires { CanKeep heap.old.things (values_of values.now) }
    ensures { heap.new ≡ record heap.old { things = kept_all heap.old.things (values_of values.now) } }
{
    match values {
        Gone::Nothing => {}
        Gone::One(value) => keep(heap, value),
        Gone::All(all) => keep_values(heap, all),
    }
}

/// Gives up each of these values.
fn give_up_gone(heap: &mut Heaped, values: &Gone)
    requires { CanGive heap.old.things (values_of values.now) }
    ensures { heap.new ≡ record heap.old { things = given_all heap.old.things (values_of values.now) } }
{
    match values {
        Gone::Nothing => {}
        Gone::One(value) => give_up(heap, value),
        Gone::All(all) => give_up_values(heap, all),
    }
}

/// The most elements of an array.
const MAX_ITEMS: usize = 16_777_216;

/// Whether an array of so many elements has the places that a change names, and room for what it brings.
fn has_place(change: &ArrayChange, size: usize) -> bool
    ensures { IsTrue result → HasPlace change.now size }
{
    match change {
        ArrayChange::Push(_) => size < MAX_ITEMS,
        ArrayChange::Insert(at, _) => *at as usize <= size && size < MAX_ITEMS,
        ArrayChange::Remove(at) => (*at as usize) < size,
        ArrayChange::Take(at) => (*at as usize) < size,
        ArrayChange::Extend(values) => size <= MAX_ITEMS && values.len() <= MAX_ITEMS - size,
        ArrayChange::Replace(values) => values.len() <= MAX_ITEMS,
        ArrayChange::Keep | ArrayChange::Clear | ArrayChange::Reverse | ArrayChange::Cut(_) => true,
    }
}

/// Whether a thing is an array that may be written, and has the places that a change names.
fn fits(thing: &Thing, change: &ArrayChange) -> bool
    ensures { IsTrue result → Fits change.now thing.now }
{
    match thing {
        Thing::Array(array) => !array.fixed() && has_place(change, array.size() as usize),
        Thing::Object(_, _) | Thing::Dict(_) => false,
    }
}

/// Makes a change of an array: the method's answer, and what left the array.
fn change_thing(
    alloc: Global,
    thing: &mut Thing,
    change: ArrayChange,
) -> Result<(Value, Gone), ThingFault>
    requires { Fits change thing.old }
    ensures made { MakesThing change thing.old thing.new result }
    ensures few { OnOk result (length (contents thing.new) ≤ 16777216) }
{
    match thing {
        Thing::Array(array) => {
            let made = change_array(alloc, array, change)?;
            let _size = array.size();
            Ok(made)
        }
        Thing::Object(_, _) | Thing::Dict(_) => unreachable!(),
    }
}

impl RootedHeap {
    /// Makes a change of the array at place `i`, and pushes the method's answer; what the change brings is counted, and what
    /// leaves is given up, but for an element that is the answer. False, with nothing changed, where no array that may be
    /// written stands there, or it has no such places, or what the change brings may not be held. Only memory may lack, and
    /// then nothing has changed.
    pub fn change_array(&mut self, i: usize, change: ArrayChange) -> Result<bool, ThingFault>
        requires there { i < length self.old.values }
        requires room { length self.old.values < self.old.slots }
        ensures changed { IfOk result (λ done. IsTrue done → ChangesArray self.old i change self.new) }
        ensures same { IfOk result (λ done. done ≡ false → self.new ≡ self.old) }
        ensures err { OnErr result (self.new ≡ self.old) }
        ensures faults { RefusedBy None result }
    {
        let Some(h) = named_array(&self.slots[i]) else {
            return Ok(false);
        };
        if !self.takes(h, &change) {
            return Ok(false);
        }
        self.make_change(h, change)?;
        Ok(true)
    }

    // Whether what a change brings may be held once more.
    fn can_bring(&self, change: &ArrayChange) -> bool
        ensures { IsTrue result → All (CanHold self.now) (brought change.now) }
    {
        match change {
            ArrayChange::Push(value) => self.can_hold(value),
            ArrayChange::Insert(_, value) => self.can_hold(value),
            ArrayChange::Extend(values) => self.can_hold_all(values),
            ArrayChange::Replace(values) => self.can_hold_all(values),
            ArrayChange::Remove(_)
            | ArrayChange::Take(_)
            | ArrayChange::Keep
            | ArrayChange::Clear
            | ArrayChange::Reverse
            | ArrayChange::Cut(_) => true,
        }
    }

    // Whether the thing that a handle names takes a change.
    fn takes(&self, h: Handle, change: &ArrayChange) -> bool
        ensures { IsTrue result → Takes self.now h change.now }
    {
        self.heap.rising_law();
        match self.heap.read(h) {
            Some(thing) => fits(thing, change) && self.can_bring(change),
            None => false,
        }
    }

    // Makes a change that the thing takes, and pushes the answer.
    fn make_change(&mut self, h: Handle, change: ArrayChange) -> Result<(), ThingFault>
        requires takes { Takes self.old h change }
        requires room { length self.old.values < self.old.slots }
        ensures ok { OnOk result (MakesChange self.old h change self.new) }
        ensures err { OnErr result (self.new ≡ self.old) }
        ensures faults { RefusedBy None result }
    {
        self.heap.rising_law();
        let alloc = *self.slots.allocator();
        let brought = brought_by(alloc, &change)?;
        keep_gone(&mut self.heap, &brought);
        match change_thing(alloc, self.heap.thing_mut(h), change) {
            Ok((answer, gone)) => {
                give_up_gone(&mut self.heap, &gone);
                self.slots[self.top] = answer;
                self.top += 1;
                Ok(())
            }
            Err(fault) => {
                give_up_gone(&mut self.heap, &brought);
                Err(fault)
            }
        }
    }
}
