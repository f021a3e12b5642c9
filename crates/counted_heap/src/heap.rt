//! The heap: things in slots, with the unheld ones in rounds.
ghost use Rattle.std.specs.Prelude.{◌≡◌, ℕ, ◌+◌, ◌-◌, ◌^◌, ◌<◌, ◌≤◌, ◌↔◌, List, [], ◌∷◌, ◌++◌, length, map, IfOk, OnErr, IfSome, IfNone, OnOk, IsTrue, vec_capacity, Some, IsSome, option_copied};
ghost use Rattle.std.specs.List.Sorted.{IsPermutation, IsNonDecreasingBy};
ghost use Rattle.std.specs.Option.{ForSome, option_copied_mut, option_to_list};
ghost use Rattle.std.specs.Borrow.{sem};
ghost use Rattle.slot_arena.specs.declared.handle.Handle.{Handle as TheHandle};
ghost use Rattle.slot_arena.specs.Slots.{Entry, handle_of, find_at, value_at, count_at, with_count, written_at, without};
ghost use Rattle.gd_containers.specs.Answers.{RefusedBy};
ghost use Rattle.gd_holding.specs.Handles.{value_handle, pair_places};
ghost use Rattle.gd_holding.specs.Holding.{IsHeld, AreCounted, IsCounted, CanGiveUp, filled, kept, dropped};
ghost use Rattle.gd_holding.specs.Rounds.{current_round, given_up, TakesNext};
ghost use Rattle.counted_heap.specs.Heap.{TakesOut, RisesFrom, serials, make_fault};

use crate::sort::sort_falling;
use gd_containers::{OrderedDict, ThingFault};
use gd_holding::{Holds, handle_in, handle_in_key};
use gd_model::{RunFault, Value};
use no_memory::NoMemory;
use slot_arena::{Handle, Slots, Steps};
use std::alloc::Global;
use std::marker::{Model, PhantomData};
use std::mem;
use std::sync::ledger::Ledger;

/// The most things that are alive.
pub const MAX_ALIVE: usize = 16_777_216;

/// The most things that are ever made: 2^63 - 1.
pub const MAX_MADE: u64 = 9_223_372_036_854_775_807;

/// Things that count their holders. A thing that nothing holds any more waits until a settling round takes it out.
#[derive(Drop)]
pub struct Heap<T: Holds, S: Slots<T>> {
    slots: S,
    /// What is left of the running round, by falling serial number.
    round: Vec<Handle>,
    /// What waits for the next round.
    waiting: Vec<Handle>,
    /// How many things were made: the last serial number.
    made: u64,
    of: PhantomData<T>,
}

impl<T: Holds, S: Slots<T>> Model for Heap<T, S> {
    ghost use Rattle.std.specs.Prelude.{map, reverse, vec_capacity};
    ghost use Rattle.gd_holding.specs.Rounds.{HeapView, heap_code};

    ghost Value = { HeapView T };

    ghost coded = { heap_code T.code };

    ghost use Rattle.counted_heap.specs.Heap.{IsSound};

    ghost view = { λ s. record {
      things = S.things s.slots;
      round = map (λ h. h.serial) (reverse s.round.items);
      made = s.made;
    } };

    ghost invariant = { λ s. IsSound (S.things s.slots) (S.last s.slots) s.made s.round.items s.waiting.items (vec_capacity s.round) (vec_capacity s.waiting) };
}

impl<T: Holds, S: Slots<T>> Heap<T, S> {
    ghost use Rattle.counted_heap.specs.HeapLends.{lends_thing, lends_live};

    /// An empty heap over empty slots. It takes no memory.
    pub fn new(alloc: Global, slots: S) -> Heap<T, S>
        requires empty { S.things slots ≡ [] }
        requires first { S.last slots ≡ 0 }
        ensures things { result.things ≡ [] }
        ensures round { result.round ≡ [] }
        ensures made { result.made ≡ 0 }
        ensures holders { AreCounted T.places result.things [] }
    {
        Heap {
            slots,
            round: Vec::new(alloc),
            waiting: Vec::new(alloc),
            made: 0,
            of: PhantomData,
        }
    }

    /// The thing that a handle names, if it is alive.
    pub fn read(&self, h: Handle) -> Option<&T>
        ensures { option_copied result ≡ value_at self.now.things h }
    {
        self.slots.get(h)
    }

    /// The same thing, to write it.
    pub fn write(&mut self, h: Handle) -> Option<&mut T>
        ensures* writes_back { sem 𝓛 (lends_thing T.row S.row T.Holds S.Slots self.entry h result) }
        ensures value { option_copied_mut result ≡ value_at self.old.things h }
    {
        self.slots.get_mut(h)
    }

    /// A thing that is alive, by one look-up.
    pub fn thing(&self, h: Handle) -> &T
        requires { IsSome (find_at self.now.things h) }
        ensures { value_at self.now.things h ≡ Some result.now }
    {
        self.slots.value(h)
    }

    /// The same thing, to write it.
    pub fn thing_mut(&mut self, h: Handle) -> &mut T
        requires { IsSome (find_at self.old.things h) }
        ensures* writes_back { sem 𝓛 (lends_live T.row S.row T.Holds S.Slots self.entry h result) }
        ensures value { value_at self.old.things h ≡ Some result.now }
    {
        self.slots.value_mut(h)
    }

    /// A law of `write` and `thing_mut`: where the thing that the handle names gets another value, and handles only pass between it and
    /// the caller's hand, each count stays the number of occurrences. It does nothing when it runs.
    pub fn write_law(&self, h: Handle)
        ensures { ForSome (value_at self.now.things h) (λ was. (value : T) (hand : List TheHandle) (left : List TheHandle)
            → IsPermutation (filled (T.places was) ++ hand) (filled (T.places value) ++ left)
            → AreCounted T.places self.now.things hand → AreCounted T.places (written_at self.now.things h value) left) }
    {
        // The read opens the heap, whose things have rising serial numbers.
        let _made = self.made;
    }

    /// A law: the things stand by rising serial number, so no two of them have one. It does nothing when it runs.
    pub fn rising_law(&self)
        ensures { RisesFrom 0 (serials self.now.things) }
    {
        // The read opens the heap, whose things have rising serial numbers.
        let _made = self.made;
    }

    /// The handles of the things that are alive, by rising serial number.
    pub fn entries(&self, alloc: Global) -> Result<Vec<Handle>, NoMemory>
        ensures all { IfOk result (λ v. IsPermutation (map handle_of self.now.things) v.items) }
        ensures rising { IfOk result (λ v. IsNonDecreasingBy (λ h. h.serial) v.items) }
    {
        self.slots.entries(alloc)
    }

    /// Makes a thing, which the caller holds once, and the room that its release will need. `TooManyThings` exactly where
    /// `MAX_ALIVE` are alive or `MAX_MADE` were made; there is no other run fault.
    pub fn make<L: Ledger>(&mut self, t: T, steps: &mut Steps<L>) -> Result<Handle, ThingFault>
        ensures faults { RefusedBy (make_fault self.old) result }
        ensures refused { OnErr result (self.new ≡ self.old) }
        ensures handle { IfOk result (λ h. h.serial ≡ self.old.made + 1) }
        ensures things { IfOk result (λ h. self.new.things ≡ self.old.things ++ record { index = h.index; serial = h.serial; count = 1; value = t } ∷ []) }
        ensures round { OnOk result (self.new.round ≡ self.old.round) }
        ensures made { OnOk result (self.new.made ≡ self.old.made + 1) }
        ensures calls { OnOk result (steps.new ≡ steps.old + 1) }
        ensures no_calls { OnErr result (steps.new ≡ steps.old) }
        ensures holders { IfOk result (λ h. (hand : List TheHandle) → AreCounted T.places self.old.things (filled (T.places t) ++ hand)
            → AreCounted T.places self.new.things (h ∷ hand)) }
    {
        let alive = self.slots.len();
        if alive >= MAX_ALIVE || self.made >= MAX_MADE {
            return Err(ThingFault::Run(RunFault::TooManyThings));
        }
        self.slots.reserve(1)?;
        make_room(&mut self.round, alive + 1)?;
        make_room(&mut self.waiting, alive + 1)?;
        self.made += 1;
        Ok(self.slots.insert(self.made, t, steps))
    }

    /// One more holds what a value names, by one call on the slots where it names a thing.
    pub fn keep<L: Ledger>(&mut self, v: &Value, steps: &mut Steps<L>)
        requires held { ForSome (value_handle v.now) (λ h. IsHeld self.old.things h) }
        requires below { ForSome (value_handle v.now) (λ h. ForSome (count_at self.old.things h) (λ n. n < 2 ^ 127)) }
        ensures counted { self.new ≡ record self.old { things = kept self.old.things (value_handle v.now) } }
        ensures calls { steps.new ≡ steps.old + length (option_to_list (value_handle v.now)) }
        ensures holders { (hand : List TheHandle) → AreCounted T.places self.old.things hand
            → AreCounted T.places self.new.things (option_to_list (value_handle v.now) ++ hand) }
    {
        if let Some(h) = handle_in(v) {
            self.keep_handle(h, steps);
        }
    }

    /// One less holds what a value names, by one call on the slots where it names a thing. What nothing holds any more waits for the next round.
    pub fn drop_value<L: Ledger>(&mut self, v: &Value, steps: &mut Steps<L>)
        requires held { ForSome (value_handle v.now) (λ h. IsHeld self.old.things h) }
        ensures counted { self.new ≡ record self.old { things = dropped self.old.things (value_handle v.now) } }
        ensures calls { steps.new ≡ steps.old + length (option_to_list (value_handle v.now)) }
        ensures holders { (hand : List TheHandle) → AreCounted T.places self.old.things (option_to_list (value_handle v.now) ++ hand)
            → AreCounted T.places self.new.things hand }
    {
        if let Some(h) = handle_in(v) {
            self.drop_handle(h, steps);
        }
    }

    // One more holds the thing that a handle names.
    fn keep_handle<L: Ledger>(&mut self, h: Handle, steps: &mut Steps<L>)
        requires held { IsHeld self.old.things h }
        requires below { ForSome (count_at self.old.things h) (λ n. n < 2 ^ 127) }
        ensures counted { self.new ≡ record self.old { things = with_count (λ n. n + 1) self.old.things h } }
        ensures calls { steps.new ≡ steps.old + 1 }
        ensures holders { (hand : List TheHandle) → AreCounted T.places self.old.things hand
            → AreCounted T.places self.new.things (h ∷ hand) }
    {
        self.slots.keep(h, steps);
    }

    // One less holds the thing that a handle names.
    fn drop_handle<L: Ledger>(&mut self, h: Handle, steps: &mut Steps<L>)
        requires { IsHeld self.old.things h }
        ensures counted { self.new ≡ record self.old { things = with_count (λ n. n - 1) self.old.things h } }
        ensures calls { steps.new ≡ steps.old + 1 }
        ensures holders { (hand : List TheHandle) → AreCounted T.places self.old.things (h ∷ hand)
            → AreCounted T.places self.new.things hand }
    {
        if self.slots.drop_one(h, steps) == 0 {
            self.waiting.push_reserved(h);
        }
    }

    /// Whether nothing is unheld: whether `settle` would answer `None`.
    pub fn is_settled(&self) -> bool
        ensures { IsTrue result ↔ (current_round self.now ≡ []) }
    {
        self.round.is_empty() && self.waiting.is_empty()
    }

    /// Takes out the thing of least serial number in the running round, and gives up what it holds; where that round is
    /// at its end, the next is all things that nothing holds. Answers the thing's serial number and, of an object, its
    /// class. `None` exactly where nothing is unheld, and then no call is made on the slots; else one for the thing and
    /// one for each that it held.
    pub fn settle<L: Ledger>(&mut self, steps: &mut Steps<L>) -> Option<(u64, Option<u32>)>
        requires { IsCounted (λ t. filled (T.places t)) self.old.things }
        ensures none { IfNone result ((current_round self.old ≡ []) × (self.new ≡ self.old)) }
        ensures no_calls { IfNone result (steps.new ≡ steps.old) }
        ensures some { IfSome result (λ r. TakesNext (λ t. filled (T.places t)) T.class self.old r.0 r.1 (steps.new - steps.old) self.new) }
        ensures holders { (hand : List TheHandle) → AreCounted T.places self.old.things hand
            → AreCounted T.places self.new.things hand }
    {
        self.begin_round();
        let (h, thing) = self.take_out(steps)?;
        self.give_up(&thing, steps);
        Some((h.serial, thing.class_of()))
    }

    // Takes out the first thing of the running round.
    fn take_out<L: Ledger>(&mut self, steps: &mut Steps<L>) -> Option<(Handle, T)>
        ensures none { IfNone result ((self.old.round ≡ []) × (self.new ≡ self.old)) }
        ensures some { IfSome result (λ r. TakesOut self.old r.0 r.1 self.new) }
        ensures no_calls { IfNone result (steps.new ≡ steps.old) }
        ensures calls { IfSome result (λ r. steps.new ≡ steps.old + 1) }
    {
        let h = self.round.pop()?;
        let thing = self.slots.take(h, steps).unwrap();
        Some((h, thing))
    }

    // Gives up what a thing holds.
    fn give_up<L: Ledger>(&mut self, thing: &T, steps: &mut Steps<L>)
        requires { CanGiveUp self.old.things (filled (T.places thing.now)) }
        ensures given { self.new ≡ record self.old { things = given_up self.old.things (filled (T.places thing.now)) } }
        ensures calls { steps.new ≡ steps.old + length (filled (T.places thing.now)) }
    {
        self.give_up_values(thing.items(), steps);
        if let Some(dict) = thing.dict() {
            self.give_up_pairs(dict, steps);
        }
    }

    // Gives up what these values hold.
    fn give_up_values<L: Ledger>(&mut self, values: &[Value], steps: &mut Steps<L>)
        requires { CanGiveUp self.old.things (filled (map value_handle values.now)) }
        ensures given { self.new ≡ record self.old { things = given_up self.old.things (filled (map value_handle values.now)) } }
        ensures calls { steps.new ≡ steps.old + length (filled (map value_handle values.now)) }
    {
        for value in values {
            if let Some(h) = handle_in(value) {
                self.drop_handle(h, steps);
            }
        }
    }

    // Gives up what the pairs of a dictionary hold.
    fn give_up_pairs<L: Ledger>(&mut self, dict: &OrderedDict, steps: &mut Steps<L>)
        requires { CanGiveUp self.old.things (filled (pair_places dict.now.pairs)) }
        ensures given { self.new ≡ record self.old { things = given_up self.old.things (filled (pair_places dict.now.pairs)) } }
        ensures calls { steps.new ≡ steps.old + length (filled (pair_places dict.now.pairs)) }
    {
        for (key, value) in dict.iter() {
            if let Some(h) = handle_in_key(key) {
                self.drop_handle(h, steps);
            }
            if let Some(h) = handle_in(value) {
                self.drop_handle(h, steps);
            }
        }
    }

    // Begins the next round, of all that nothing holds, where the running one is at its end.
    fn begin_round(&mut self)
        ensures rising { RisesFrom 0 (serials self.old.things) }
        ensures round { self.new ≡ record self.old { round = current_round self.old } }
    {
        if self.round.is_empty() {
            mem::swap(&mut self.round, &mut self.waiting);
            sort_falling(&mut self.round);
        }
    }
}

// Makes room for so many handles in all.
fn make_room(handles: &mut Vec<Handle>, total: usize) -> Result<(), NoMemory>
    ensures room { OnOk result (total ≤ vec_capacity handles.new) }
    ensures items { handles.new.items ≡ handles.old.items }
    ensures capacity { vec_capacity handles.old ≤ vec_capacity handles.new }
{
    if handles.capacity() < total {
        handles.reserve(total - handles.len())?;
    }
    Ok(())
}
