//! Worked calls on a stack of values: what stands where, and what goes.
ghost use Rattle.std.specs.Prelude.{◌≡◌, None};
ghost use Rattle.gd_holding.specs.Handles.{value_handle};

use counted_heap::Thing;
use gd_containers::TypedArray;
use gd_model::{Ty, Value};
use gd_syntax::Seq;
use rooted_heap::RootedHeap;
use std::alloc::Global;
use std::process::Abort;
use std::test::Fail;

fn push<R: Abort>(rt: &R, heap: &mut RootedHeap, value: Value)
    requires { value_handle value ≡ None }
{
    assert!(rt; heap.len() < heap.capacity());
    heap.push_free(value);
}

fn push_array<R: Abort>(rt: &R, heap: &mut RootedHeap, alloc: Global) -> Result<(), Fail> {
    let array = TypedArray::new(alloc, Ty::Variant, false);
    assert!(rt; heap.len() < heap.capacity());
    heap.push_thing(Thing::Array(array))?;
    Ok(())
}

fn push_copy<R: Abort>(rt: &R, heap: &mut RootedHeap, i: usize) -> Result<(), Fail> {
    assert!(rt; i < heap.len());
    assert!(rt; heap.len() < heap.capacity());
    heap.push_copy(i)?;
    Ok(())
}

fn pop<R: Abort>(rt: &R, heap: &mut RootedHeap) {
    assert!(rt; heap.len() > 0);
    heap.pop();
}

fn has_ints<R: Abort>(rt: &R, heap: &RootedHeap, ints: &[i64]) {
    assert_eq!(rt; heap.len(), ints.len());
    for (i, n) in ints.iter().enumerate() {
        assert!(rt; i < heap.len());
        assert_eq!(rt; heap.int_at(i), Some(*n));
    }
}

/// Ints are pushed, copied, stored and cleared, and a frame is left.
fn move_ints<R: Abort>(rt: &R, heap: &mut RootedHeap) -> Result<(), Fail> {
    push(rt, heap, Value::Int(1));
    push(rt, heap, Value::Int(2));
    push_copy(rt, heap, 0)?;
    has_ints(rt, heap, &[1, 2, 1]);
    assert!(rt; heap.len() > 2);
    heap.store(1);
    has_ints(rt, heap, &[1, 1]);
    push(rt, heap, Value::Int(3));
    assert!(rt; heap.len() > 0);
    heap.leave(0);
    has_ints(rt, heap, &[3]);
    Ok(())
}

/// An array is held twice, and goes once nothing holds it.
fn release_array<R: Abort>(rt: &R, heap: &mut RootedHeap, alloc: Global) -> Result<(), Fail> {
    push_array(rt, heap, alloc)?;
    push_copy(rt, heap, 0)?;
    pop(rt, heap);
    assert!(rt; heap.settle_one().is_none());
    pop(rt, heap);
    assert!(rt; !heap.is_settled());
    assert_eq!(rt; heap.settle_one(), Some((1, None)));
    assert!(rt; heap.is_settled());
    Ok(())
}

#[test]
fn values_come_and_go(rt: HostRuntime) -> Result<(), Fail> {
    let alloc = rt.alloc();
    let mut heap = RootedHeap::new(alloc, Seq::of(Vec::new(alloc)));
    heap.reserve(4)?;
    release_array(&rt, &mut heap, alloc)?;
    move_ints(&rt, &mut heap)
}
