//! The worked calls on slots, with each public call once.
ghost use Rattle.std.specs.Prelude.{◌≡◌, ◌<◌};

use super::*;
use no_memory::NoMemory;
use std::alloc::Global;
use std::marker::Brand;
use std::process::Abort;
use std::sync::ledger::{Blank, Ledger};
use std::test::Fail;

// A slot that is used again gives nothing to the old handle.
fn use_again<L: Ledger, R: Abort>(rt: &R, alloc: Global, blank: Blank) -> Result<(), NoMemory>
    requires name { blank.name ≡ L.name }
    requires parts { blank.parts ≡ L.parts }
    requires some { 0 < L.parts }
{
    let steps = &mut Steps::<L>::new(blank);
    let mut slots = SlabSlots::<char>::new(alloc);
    slots.reserve(2)?;
    let first = slots.insert(1, 'a', steps);
    let second = slots.insert(2, 'b', steps);
    assert_eq!(rt; slots.count(first), Some(1));
    assert_eq!(rt; slots.take(first, steps), None);
    assert_eq!(rt; slots.count(first), Some(1));
    assert_eq!(rt; slots.drop_one(first, steps), 0);
    assert_eq!(rt; slots.take(first, steps), Some('a'));
    assert_eq!(rt; slots.take(first, steps), None);
    slots.reserve(1)?;
    let third = slots.insert(3, 'c', steps);
    assert_eq!(rt; slots.get(first).copied(), None);
    assert_eq!(rt; slots.count(first), None);
    assert_eq!(rt; slots.get(second).copied(), Some('b'));
    assert_eq!(rt; slots.get(third).copied(), Some('c'));
    let alive = slots.entries(alloc)?;
    assert_eq!(rt; alive.as_slice(), [second, third].as_slice());
    Ok(())
}

// A write, one holder more, and the list of what is alive.
fn write_and_keep<L: Ledger, R: Abort>(rt: &R, alloc: Global, blank: Blank) -> Result<(), NoMemory>
    requires name { blank.name ≡ L.name }
    requires parts { blank.parts ≡ L.parts }
    requires some { 0 < L.parts }
{
    let steps = &mut Steps::<L>::new(blank);
    let mut slots = SlabSlots::<char>::new(alloc);
    slots.reserve(2)?;
    let first = slots.insert(5, 'a', steps);
    let second = slots.insert(9, 'b', steps);
    if let Some(value) = slots.get_mut(first) {
        *value = 'z';
    }
    assert_eq!(rt; slots.get(first).copied(), Some('z'));
    *slots.value_mut(second) = 'y';
    assert_eq!(rt; *slots.value(second), 'y');
    assert_eq!(rt; slots.count(second), Some(1));
    slots.keep(second, steps);
    assert_eq!(rt; slots.count(second), Some(2));
    assert_eq!(rt; slots.len(), 2);
    let alive = slots.entries(alloc)?;
    assert_eq!(rt; alive.as_slice(), [first, second].as_slice());
    Ok(())
}

#[test]
fn slots_are_used_again(rt: HostRuntime) -> Result<(), Fail> {
    use_again::<Brand, HostRuntime>(&rt, rt.alloc(), Blank::new(1))?;
    Ok(())
}

#[test]
fn values_are_written(rt: HostRuntime) -> Result<(), Fail> {
    write_and_keep::<Brand, HostRuntime>(&rt, rt.alloc(), Blank::new(1))?;
    Ok(())
}
