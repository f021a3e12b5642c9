//! The calls of the heap that count their steps, for a caller that nobody asks for the count. Each counts from nothing in a
//! ledger of its own, which has no bytes when it runs; so what holds a heap needs no ledger.
ghost use Rattle.std.specs.Prelude.{◌≡◌, ℕ, ◌+◌, ◌^◌, ◌<◌, List, [], ◌∷◌, ◌++◌, IfOk, OnOk, OnErr, IfNone, IfSome};
ghost use Rattle.std.specs.Option.{ForSome, option_to_list};
ghost use Rattle.slot_arena.specs.declared.handle.Handle.{Handle as TheHandle};
ghost use Rattle.slot_arena.specs.Slots.{count_at};
ghost use Rattle.gd_containers.specs.Answers.{RefusedBy};
ghost use Rattle.gd_holding.specs.Handles.{value_handle};
ghost use Rattle.gd_holding.specs.Holding.{IsHeld, AreCounted, IsCounted, filled, kept, dropped};
ghost use Rattle.gd_holding.specs.Rounds.{current_round, TakesNext};
ghost use Rattle.counted_heap.specs.Heap.{make_fault};
ghost use Rattle.counted_heap.specs.Thing.{thing_places, thing_class};

use counted_heap::{Heap, Thing};
use gd_containers::ThingFault;
use gd_model::Value;
use slot_arena::{Handle, SlabSlots, Steps};
use std::marker::Brand;
use std::sync::ledger::{Blank, Ledger};

/// The things of a run.
pub(crate) type Heaped = Heap<Thing, SlabSlots<Thing>>;

/// Makes a thing, which the caller holds once, as `Heap::make` has it.
#[inline(always)]
pub(crate) fn make(heap: &mut Heaped, thing: Thing) -> Result<Handle, ThingFault>
    ensures faults { RefusedBy (make_fault heap.old) result }
    ensures refused { OnErr result (heap.new ≡ heap.old) }
    ensures handle { IfOk result (λ h. h.serial ≡ heap.old.made + 1) }
    ensures things { IfOk result (λ h. heap.new.things ≡ heap.old.things ++ record { index = h.index; serial = h.serial; count = 1; value = thing } ∷ []) }
    ensures round { OnOk result (heap.new.round ≡ heap.old.round) }
    ensures made { OnOk result (heap.new.made ≡ heap.old.made + 1) }
    ensures holders { IfOk result (λ h. (hand : List TheHandle) → AreCounted thing_places heap.old.things (filled (thing_places thing) ++ hand)
        → AreCounted thing_places heap.new.things (h ∷ hand)) }
{
    make_in::<Brand>(heap, thing, Blank::new(1))
}

#[inline(always)]
fn make_in<L: Ledger>(heap: &mut Heaped, thing: Thing, blank: Blank) -> Result<Handle, ThingFault>
    requires name { blank.name ≡ L.name }
    requires parts { blank.parts ≡ L.parts }
    requires some { 0 < L.parts }
    ensures faults { RefusedBy (make_fault heap.old) result }
    ensures refused { OnErr result (heap.new ≡ heap.old) }
    ensures handle { IfOk result (λ h. h.serial ≡ heap.old.made + 1) }
    ensures things { IfOk result (λ h. heap.new.things ≡ heap.old.things ++ record { index = h.index; serial = h.serial; count = 1; value = thing } ∷ []) }
    ensures round { OnOk result (heap.new.round ≡ heap.old.round) }
    ensures made { OnOk result (heap.new.made ≡ heap.old.made + 1) }
    ensures holders { IfOk result (λ h. (hand : List TheHandle) → AreCounted thing_places heap.old.things (filled (thing_places thing) ++ hand)
        → AreCounted thing_places heap.new.things (h ∷ hand)) }
{
    let mut steps = Steps::<L>::new(blank);
    heap.make(thing, &mut steps)
}

/// One more holds what a value names, as `Heap::keep` has it.
#[inline(always)]
pub(crate) fn keep(heap: &mut Heaped, value: &Value)
    requires held { ForSome (value_handle value.now) (λ h. IsHeld heap.old.things h) }
    requires below { ForSome (value_handle value.now) (λ h. ForSome (count_at heap.old.things h) (λ n. n < 2 ^ 127)) }
    ensures counted { heap.new ≡ record heap.old { things = kept heap.old.things (value_handle value.now) } }
    ensures holders { (hand : List TheHandle) → AreCounted thing_places heap.old.things hand
        → AreCounted thing_places heap.new.things (option_to_list (value_handle value.now) ++ hand) }
{
    keep_in::<Brand>(heap, value, Blank::new(1))
}

#[inline(always)]
fn keep_in<L: Ledger>(heap: &mut Heaped, value: &Value, blank: Blank)
    requires name { blank.name ≡ L.name }
    requires parts { blank.parts ≡ L.parts }
    requires some { 0 < L.parts }
    requires held { ForSome (value_handle value.now) (λ h. IsHeld heap.old.things h) }
    requires below { ForSome (value_handle value.now) (λ h. ForSome (count_at heap.old.things h) (λ n. n < 2 ^ 127)) }
    ensures counted { heap.new ≡ record heap.old { things = kept heap.old.things (value_handle value.now) } }
    ensures holders { (hand : List TheHandle) → AreCounted thing_places heap.old.things hand
        → AreCounted thing_places heap.new.things (option_to_list (value_handle value.now) ++ hand) }
{
    let mut steps = Steps::<L>::new(blank);
    heap.keep(value, &mut steps);
}

/// One less holds what a value names, as `Heap::drop_value` has it.
#[inline(always)]
pub(crate) fn give_up(heap: &mut Heaped, value: &Value)
    requires held { ForSome (value_handle value.now) (λ h. IsHeld heap.old.things h) }
    ensures counted { heap.new ≡ record heap.old { things = dropped heap.old.things (value_handle value.now) } }
    ensures holders { (hand : List TheHandle) → AreCounted thing_places heap.old.things (option_to_list (value_handle value.now) ++ hand)
        → AreCounted thing_places heap.new.things hand }
{
    give_up_in::<Brand>(heap, value, Blank::new(1))
}

#[inline(always)]
fn give_up_in<L: Ledger>(heap: &mut Heaped, value: &Value, blank: Blank)
    requires name { blank.name ≡ L.name }
    requires parts { blank.parts ≡ L.parts }
    requires some { 0 < L.parts }
    requires held { ForSome (value_handle value.now) (λ h. IsHeld heap.old.things h) }
    ensures counted { heap.new ≡ record heap.old { things = dropped heap.old.things (value_handle value.now) } }
    ensures holders { (hand : List TheHandle) → AreCounted thing_places heap.old.things (option_to_list (value_handle value.now) ++ hand)
        → AreCounted thing_places heap.new.things hand }
{
    let mut steps = Steps::<L>::new(blank);
    heap.drop_value(value, &mut steps);
}

/// Takes out the next thing of the running round, as `Heap::settle` has it.
#[inline(always)]
pub(crate) fn settle(heap: &mut Heaped) -> Option<(u64, Option<u32>)>
    requires { IsCounted (λ t. filled (thing_places t)) heap.old.things }
    ensures none { IfNone result ((current_round heap.old ≡ []) × (heap.new ≡ heap.old)) }
    ensures some { IfSome result (λ r. (calls : ℕ) × TakesNext (λ t. filled (thing_places t)) thing_class heap.old r.0 r.1 calls heap.new) }
    ensures holders { (hand : List TheHandle) → AreCounted thing_places heap.old.things hand
        → AreCounted thing_places heap.new.things hand }
{
    settle_in::<Brand>(heap, Blank::new(1))
}

#[inline(always)]
fn settle_in<L: Ledger>(heap: &mut Heaped, blank: Blank) -> Option<(u64, Option<u32>)>
    requires name { blank.name ≡ L.name }
    requires parts { blank.parts ≡ L.parts }
    requires some { 0 < L.parts }
    requires counted { IsCounted (λ t. filled (thing_places t)) heap.old.things }
    ensures none { IfNone result ((current_round heap.old ≡ []) × (heap.new ≡ heap.old)) }
    ensures some { IfSome result (λ r. (calls : ℕ) × TakesNext (λ t. filled (thing_places t)) thing_class heap.old r.0 r.1 calls heap.new) }
    ensures holders { (hand : List TheHandle) → AreCounted thing_places heap.old.things hand
        → AreCounted thing_places heap.new.things hand }
{
    let mut steps = Steps::<L>::new(blank);
    heap.settle(&mut steps)
}
