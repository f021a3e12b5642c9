//! Methods of Strings, arrays and dictionaries.
ghost use Rattle.std.specs.Prelude.{◌≡◌, ◌+◌, ◌<◌, ◌≤◌, length};

use crate::builtins::call_function;
use crate::machine::Machine;
use crate::starting::{plain_start, push_start};
use crate::stop::{Done, Stop, broken, fault};
use crate::tables::View;
use container_methods::{ArrayChange, DictChange, decide_array, decide_dict, resize, resized_by};
use gd_model::{RunFault, Ty, Value};
use no_memory::NoMemory;
use std::alloc::Global;
use value_semantics::Builtin;

/// Whether a method writes.
fn writes(method: Builtin) -> bool {
    match method {
        Builtin::ArrayAppend
        | Builtin::ArrayPushBack
        | Builtin::ArrayPushFront
        | Builtin::ArrayPopBack
        | Builtin::ArrayPopFront
        | Builtin::ArrayInsert
        | Builtin::ArrayRemoveAt
        | Builtin::ArrayErase
        | Builtin::ArrayClear
        | Builtin::ArrayReverse
        | Builtin::ArraySort
        | Builtin::ArrayAppendArray
        | Builtin::ArrayResize
        | Builtin::ArrayFill
        | Builtin::DictionaryGetOrAdd
        | Builtin::DictionaryErase
        | Builtin::DictionaryClear
        | Builtin::DictionaryMerge => true,
        _ => false,
    }
}

/// A method of a String or a container, which stands below its arguments.
#[inline(never)]
pub fn call_on_value(
    alloc: Global,
    view: View<'_>,
    machine: &mut Machine,
    method: Builtin,
    given: usize,
) -> Done {
    let base = machine.below(given)?;
    let taken = given.saturating_add(1);
    if !writes(method) {
        return call_function(alloc, machine, method, taken);
    }
    machine.make_room()?;
    match machine.heap.value(base) {
        Value::Array(_) if method == Builtin::ArrayResize => {
            resize_array(alloc, view, machine, base, given)?;
        }
        Value::Array(_) => change_array(alloc, view, machine, method, base, given)?,
        Value::Dict(_) => change_dict(alloc, view, machine, method, base, given)?,
        _ => return fault(RunFault::NoSuchMethod),
    }
    machine.keep_last(taken)
}

// A method that writes an array: its answer is pushed.
fn change_array(
    alloc: Global,
    view: View<'_>,
    machine: &mut Machine,
    method: Builtin,
    base: usize,
    given: usize,
) -> Done
    requires below { base + given < length machine.old.heap.values }
    requires room { length machine.old.heap.values < machine.old.heap.slots }
{
    let change = decided_array(alloc, view, machine, method, base, given)?;
    make_change(machine, base, change)
}

// The change of an array is made, and the method's answer is pushed.
fn make_change(machine: &mut Machine, base: usize, change: ArrayChange) -> Done
    requires there { base < length machine.old.heap.values }
    requires room { length machine.old.heap.values < machine.old.heap.slots }
{
    if machine.heap.change_array(base, change)? {
        Ok(())
    } else {
        Err(broken())
    }
}

fn decided_array(
    alloc: Global,
    view: View<'_>,
    machine: &Machine,
    method: Builtin,
    base: usize,
    given: usize,
) -> Result<ArrayChange, Stop>
    requires { base + given < length machine.now.heap.values }
{
    let Some(array) = machine.heap.array_at(base) else {
        return Err(broken());
    };
    let (args, things) = machine.heap.last_values(given);
    let parents = &view.tables.layout.parents;
    Ok(decide_array(alloc, method, array, args, parents, &things)?)
}

// A method that writes a dictionary: its answer is pushed.
fn change_dict(
    alloc: Global,
    view: View<'_>,
    machine: &mut Machine,
    method: Builtin,
    base: usize,
    given: usize,
) -> Done
    requires below { base + given < length machine.old.heap.values }
    requires room { length machine.old.heap.values < machine.old.heap.slots }
{
    let change = decided_dict(alloc, view, machine, method, base, given)?;
    if machine.heap.change_dict(base, change)? {
        Ok(())
    } else {
        Err(broken())
    }
}

fn decided_dict(
    alloc: Global,
    view: View<'_>,
    machine: &Machine,
    method: Builtin,
    base: usize,
    given: usize,
) -> Result<DictChange, Stop>
    requires { base + given < length machine.now.heap.values }
{
    let Some(dict) = machine.heap.dict_at(base) else {
        return Err(broken());
    };
    let (args, things) = machine.heap.last_values(given);
    let parents = &view.tables.layout.parents;
    Ok(decide_dict(alloc, method, dict, args, parents, &things)?)
}

/// How `resize` changes an array.
#[derive(Drop)]
struct Resizing {
    stay: u32,
    more: u32,
    element: Ty,
}

fn decided_resize(
    alloc: Global,
    machine: &Machine,
    base: usize,
    given: usize,
) -> Result<Resizing, Stop>
    requires { base + given < length machine.now.heap.values }
{
    let Some(array) = machine.heap.array_at(base) else {
        return Err(broken());
    };
    let (args, _things) = machine.heap.last_values(given);
    let (stay, more) = resize(array, args)?;
    Ok(Resizing {
        stay,
        more,
        element: array.element().copy(alloc)?,
    })
}

// `resize`: so many elements stay, and values with which the element type begins follow.
fn resize_array(
    alloc: Global,
    view: View<'_>,
    machine: &mut Machine,
    base: usize,
    given: usize,
) -> Done
    requires below { base + given < length machine.old.heap.values }
    requires room { length machine.old.heap.values < machine.old.heap.slots }
{
    let resizing = decided_resize(alloc, machine, base, given)?;
    if plain_start(&resizing.element, &view.tables.empty)?.is_some() {
        let starts = plain_starts(alloc, &resizing, view)?;
        return make_change(machine, base, resized_by(resizing.stay, starts));
    }
    resize_with_things(alloc, view, machine, base, &resizing)
}

// New things among the start values stand on the stack until the array has them.
fn resize_with_things(
    alloc: Global,
    view: View<'_>,
    machine: &mut Machine,
    base: usize,
    resizing: &Resizing,
) -> Done {
    for _ in 0..resizing.more {
        push_start(alloc, machine, &resizing.element, &view.tables.empty)?;
    }
    let more = resizing.more as usize;
    let starts = copies(alloc, machine, more)?;
    machine.make_room()?;
    if base >= machine.heap.len() {
        return Err(broken());
    }
    make_change(machine, base, resized_by(resizing.stay, starts))?;
    machine.keep_last(more)
}

fn plain_starts(
    alloc: Global,
    resizing: &Resizing,
    view: View<'_>,
) -> Result<Vec<Value>, NoMemory> {
    let mut starts = Vec::new(alloc);
    for _ in 0..resizing.more {
        if let Some(start) = plain_start(&resizing.element, &view.tables.empty)? {
            starts.push(start)?;
        }
    }
    Ok(starts)
}

// The last values once more.
fn copies(alloc: Global, machine: &Machine, count: usize) -> Result<Vec<Value>, Stop> {
    if count > machine.heap.len() {
        return Err(broken());
    }
    let (values, _things) = machine.heap.last_values(count);
    let mut all = Vec::new(alloc);
    for value in values {
        all.push(value.share()?)?;
    }
    Ok(all)
}
