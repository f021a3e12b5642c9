//! Literals of arrays and dictionaries.
ghost use Rattle.std.specs.Prelude.{◌+◌, ◌*◌, ◌<◌, ◌≤◌, length};
ghost use Rattle.gd_model.specs.Whole.{AllWhole};

use crate::fitting::fits_ty;
use crate::giving::{push_array, push_dict};
use crate::machine::Machine;
use crate::stop::{Done, Stop, broken, fault};
use crate::tables::View;
use gd_containers::{Look, OrderedDict, TypedArray, key_of};
use gd_model::{RunFault, Ty, Value};
use no_memory::NoMemory;
use std::alloc::Global;

/// An array of the last values, each of which fits the element type, comes in their place.
#[inline(never)]
pub fn array(
    alloc: Global,
    view: View<'_>,
    machine: &mut Machine,
    count: usize,
    typed: usize,
) -> Done {
    let Some(element) = view.ty(typed) else {
        return Err(broken());
    };
    if count > machine.heap.len() {
        return Err(broken());
    }
    let array = collected(alloc, view, machine, count, element)?;
    push_array(machine, array)?;
    machine.keep_last(count)
}

fn collected(
    alloc: Global,
    view: View<'_>,
    machine: &Machine,
    count: usize,
    element: &Ty,
) -> Result<TypedArray, Stop>
    requires { count ≤ length machine.now.heap.values }
{
    let (values, things) = machine.heap.last_values(count);
    if !all_fit(view, element, values, &things) {
        return fault(RunFault::ValueOfAnotherType);
    }
    let mut array = TypedArray::new(alloc, element.copy(alloc)?, false);
    array.reserve(u32::try_from(count).unwrap_or(0))?;
    for value in values {
        array.push(value.share()?, true)?;
    }
    Ok(array)
}

// Whether each of these values fits a type.
fn all_fit<K: Look>(view: View<'_>, element: &Ty, values: &[Value], things: &K) -> bool
    requires { AllWhole (K.things things.now) (K.names things.now) values.now }
{
    for k in 0..values.len() {
        if !fits_ty(view, element, &values[k], things) {
            return false;
        }
    }
    true
}

/// The types of a dictionary's keys and values.
#[derive(Drop)]
struct PairTypes<'a> {
    key: &'a Ty,
    value: &'a Ty,
}

/// A dictionary of the last pairs comes in their place. `typed` is its type where it has one.
#[inline(never)]
pub fn dict(
    alloc: Global,
    view: View<'_>,
    machine: &mut Machine,
    pairs: usize,
    typed: Option<usize>,
) -> Done {
    let count = pairs.saturating_mul(2);
    if count > machine.heap.len() {
        return Err(broken());
    }
    let any = Ty::Variant;
    let types = match typed.map(|index| view.ty(index)) {
        Some(Some(Ty::DictOf(key, value))) => PairTypes {
            key: key.get(),
            value: value.get(),
        },
        _ => PairTypes {
            key: &any,
            value: &any,
        },
    };
    let dict = paired(alloc, view, machine, count, &types)?;
    push_dict(machine, dict)?;
    machine.keep_last(count)
}

fn empty(alloc: Global, types: &PairTypes<'_>) -> Result<OrderedDict, NoMemory> {
    let key = types.key.copy(alloc)?;
    let value = types.value.copy(alloc)?;
    Ok(OrderedDict::of(alloc, false, key, value))
}

// The pairs in order: a key is one, and then both fit. A key that repeats has its later value at its first place.
fn paired(
    alloc: Global,
    view: View<'_>,
    machine: &Machine,
    count: usize,
    types: &PairTypes<'_>,
) -> Result<OrderedDict, Stop>
    requires { count ≤ length machine.now.heap.values }
{
    let mut dict = empty(alloc, types)?;
    let (values, things) = machine.heap.last_values(count);
    for k in 0..values.len() / 2 {
        add_pair(view, &mut dict, types, values, k, &things)?;
    }
    Ok(dict)
}

// Pair number k of values of which every second one is a key.
fn add_pair<K: Look>(
    view: View<'_>,
    dict: &mut OrderedDict,
    types: &PairTypes<'_>,
    values: &[Value],
    k: usize,
    things: &K,
) -> Done
    requires there { 2 * k + 1 < length values.now }
    requires whole { AllWhole (K.things things.now) (K.names things.now) values.now }
{
    let key = &values[2 * k];
    let value = &values[2 * k + 1];
    let name = key_of(key)?;
    if !fits_ty(view, types.key, key, things) || !fits_ty(view, types.value, value, things) {
        return fault(RunFault::ValueOfAnotherType);
    }
    dict.put(name, value.share()?, true)?;
    Ok(())
}
