//! The heap's worked calls: what goes, and in which order. Each test holds a list of handles, the newest first.
ghost use Rattle.std.specs.Prelude.{◌≡◌, ◌<◌, [], ◌∷◌, ◌++◌, IfOk, OnOk};
ghost use Rattle.gd_holding.specs.Holding.{AreCounted, filled};
ghost use Rattle.counted_heap.specs.Thing.{thing_places};

use crate::{Heap, Thing};
use gd_containers::{OnHeap, OrderedDict, ThingFault, TypedArray};
use gd_model::{Key, Ty, Value};
use gd_syntax::Seq;
use slot_arena::{Handle, SlabSlots, Slots, Steps};
use std::alloc::Global;
use std::marker::Brand;
use std::process::Abort;
use std::sync::ledger::{Blank, Ledger};
use std::test::Fail;

type Things = Heap<Thing, SlabSlots<Thing>>;

/// One call of a test.
#[derive(Drop)]
enum Act {
    /// An object of this class is made.
    Object(u32),
    /// An object of this class is made, which takes over the newest handle.
    ObjectOver(u32),
    /// An array is made, which takes it over as its element.
    ArrayOver,
    /// A dictionary is made, which takes it over as a key.
    DictOver,
    /// The newest handle is given up.
    Drop,
    /// A call of `settle`, and what it answers.
    Settle(Option<(u64, Option<u32>)>),
}

/// The newest handle, which is taken off the list.
fn newest<R: Abort>(rt: &R, hand: &mut Vec<Handle>) -> Handle
    ensures { hand.old.items ≡ result ∷ hand.new.items }
{
    assert!(rt; !hand.is_empty());
    hand.remove(0)
}

fn object_over(alloc: Global, class: u32, h: Handle) -> Result<Thing, Fail>
    ensures { IfOk result (λ t. filled (thing_places t) ≡ h ∷ []) }
{
    let mut values = Vec::new(alloc);
    values.push(Value::Object(h))?;
    Ok(Thing::Object(class, Seq::of(values)))
}

fn array_over(alloc: Global, h: Handle) -> Result<Thing, Fail>
    ensures { IfOk result (λ t. filled (thing_places t) ≡ h ∷ []) }
{
    let mut array = TypedArray::new(alloc, Ty::Variant, false);
    array.push(Value::Object(h), true)?;
    Ok(Thing::Array(array))
}

fn dict_over(alloc: Global, h: Handle) -> Result<Thing, Fail>
    ensures { IfOk result (λ t. filled (thing_places t) ≡ h ∷ []) }
{
    let mut dict = OrderedDict::new(alloc, false);
    dict.set(Key::Object(h), Value::Nil)?;
    Ok(Thing::Dict(OnHeap::new(alloc, dict)?))
}

/// Makes a thing, which takes what it holds over from the list, and puts its handle at the front.
fn hold_new<L: Ledger>(
    heap: &mut Things,
    hand: &mut Vec<Handle>,
    thing: Thing,
    steps: &mut Steps<L>,
) -> Result<(), Fail>
    requires { AreCounted thing_places heap.old.things (filled (thing_places thing) ++ hand.old.items) }
    ensures { OnOk result (AreCounted thing_places heap.new.things hand.new.items) }
{
    let h = heap.make(thing, steps)?;
    hand.insert(0, h)?;
    Ok(())
}

fn perform<L: Ledger, R: Abort>(
    rt: &R,
    alloc: Global,
    heap: &mut Things,
    hand: &mut Vec<Handle>,
    act: &Act,
    steps: &mut Steps<L>,
) -> Result<(), Fail>
    requires { AreCounted thing_places heap.old.things hand.old.items }
    ensures { OnOk result (AreCounted thing_places heap.new.things hand.new.items) }
{
    match act {
        Act::Object(class) => hold_new(
            heap,
            hand,
            Thing::Object(*class, Seq::of(Vec::new(alloc))),
            steps,
        ),
        Act::ObjectOver(class) => {
            let thing = object_over(alloc, *class, newest(rt, hand))?;
            hold_new(heap, hand, thing, steps)
        }
        Act::ArrayOver => {
            let thing = array_over(alloc, newest(rt, hand))?;
            hold_new(heap, hand, thing, steps)
        }
        Act::DictOver => {
            let thing = dict_over(alloc, newest(rt, hand))?;
            hold_new(heap, hand, thing, steps)
        }
        Act::Drop => {
            let h = newest(rt, hand);
            heap.drop_value(&Value::Object(h), steps);
            Ok(())
        }
        Act::Settle(expected) => {
            assert_eq!(rt; heap.is_settled(), expected.is_none());
            assert_eq!(rt; heap.settle(steps), *expected);
            Ok(())
        }
    }
}

/// The heap after these calls.
fn run<L: Ledger, R: Abort>(
    rt: &R,
    alloc: Global,
    blank: Blank,
    acts: &[Act],
) -> Result<Things, Fail>
    requires name { blank.name ≡ L.name }
    requires parts { blank.parts ≡ L.parts }
    requires some { 0 < L.parts }
{
    let steps = &mut Steps::<L>::new(blank);
    let mut heap = Heap::new(alloc, SlabSlots::new(alloc));
    let mut hand = Vec::new(alloc);
    for act in acts {
        perform(rt, alloc, &mut heap, &mut hand, act, steps)?;
    }
    Ok(heap)
}

#[test]
fn what_a_thing_held_goes_in_the_next_round(rt: HostRuntime) -> Result<(), Fail> {
    let acts = [
        Act::Object(1),
        Act::ObjectOver(1),
        Act::Drop,
        Act::Settle(Some((2, Some(1)))),
        Act::Settle(Some((1, Some(1)))),
        Act::Settle(None),
    ];
    let heap = run::<Brand, HostRuntime>(&rt, rt.alloc(), Blank::new(1), &acts)?;
    assert_eq!(rt; heap.entries(rt.alloc())?.len(), 0);
    Ok(())
}

#[test]
fn a_round_goes_by_serial_number(rt: HostRuntime) -> Result<(), Fail> {
    let acts = [
        Act::Object(3),
        Act::ArrayOver,
        Act::Object(5),
        Act::Drop,
        Act::Drop,
        Act::Settle(Some((2, None))),
        Act::Settle(Some((3, Some(5)))),
        Act::Settle(Some((1, Some(3)))),
        Act::Settle(None),
    ];
    run::<Brand, HostRuntime>(&rt, rt.alloc(), Blank::new(1), &acts)?;
    Ok(())
}

#[test]
fn a_key_holds_an_object(rt: HostRuntime) -> Result<(), Fail> {
    let acts = [
        Act::Object(1),
        Act::DictOver,
        Act::Settle(None),
        Act::Drop,
        Act::Settle(Some((2, None))),
        Act::Settle(Some((1, Some(1)))),
    ];
    let heap = run::<Brand, HostRuntime>(&rt, rt.alloc(), Blank::new(1), &acts)?;
    let gone = Handle {
        index: 0,
        serial: 1,
    };
    assert!(rt; heap.read(gone).is_none());
    Ok(())
}

/// An array is written, and an object is held twice.
fn write_and_keep<L: Ledger, R: Abort>(rt: &R, alloc: Global, blank: Blank) -> Result<(), Fail>
    requires name { blank.name ≡ L.name }
    requires parts { blank.parts ≡ L.parts }
    requires some { 0 < L.parts }
{
    let steps = &mut Steps::<L>::new(blank);
    let mut heap = Things::new(alloc, SlabSlots::new(alloc));
    let h = heap.make(
        Thing::Array(TypedArray::new(alloc, Ty::Variant, false)),
        steps,
    )?;
    heap.keep(&Value::Array(h), steps);
    if let Some(Thing::Array(array)) = heap.write(h) {
        array.push(Value::Int(7), true)?;
    }
    assert!(rt; matches!(heap.read(h), Some(Thing::Array(array)) if array.size() == 1));
    assert_eq!(rt; heap.entries(alloc)?.as_slice(), [h].as_slice());
    Ok(())
}

#[test]
fn a_thing_is_written(rt: HostRuntime) -> Result<(), Fail> {
    write_and_keep::<Brand, HostRuntime>(&rt, rt.alloc(), Blank::new(1))
}

#[test]
fn a_thing_is_small(rt: HostRuntime) {
    assert!(rt; size_of::<Thing>() <= 64);
}
