//! Subscripts, and entries of dictionaries by attributes.
ghost use Rattle.std.specs.Prelude.{◌+◌, ◌<◌, length};

use crate::fitting::fits_ty;
use crate::machine::Machine;
use crate::stop::{Done, Stop, broken, fault};
use crate::tables::View;
use gd_containers::{MAX_ITEMS, item_place, key_of};
use gd_model::{Key, RunFault, Ty, Value};
use gd_syntax::Text;
use std::alloc::Global;

/// What a subscript is of.
#[derive(Clone, Copy)]
enum Base {
    Array,
    Dict,
    Text,
    Other,
}

fn base_of(value: &Value) -> Base {
    match value {
        Value::Array(_) => Base::Array,
        Value::Dict(_) => Base::Dict,
        Value::Str(_) => Base::Text,
        _ => Base::Other,
    }
}

/// What stands at an index of a base, both on the top, comes in their place.
#[inline(never)]
pub fn index(alloc: Global, machine: &mut Machine) -> Done {
    let base = machine.below(1)?;
    let at = machine.below(0)?;
    machine.make_room()?;
    match base_of(machine.heap.value(base)) {
        Base::Array => index_array(machine, base, at)?,
        Base::Dict => {
            let key = key_of(machine.heap.value(at))?;
            push_entry(machine, base, &key)?;
        }
        Base::Text => index_text(alloc, machine, base, at)?,
        Base::Other => return fault(RunFault::BadOperands),
    }
    machine.keep_last(2)
}

// Pushes an element of an array.
fn index_array(machine: &mut Machine, base: usize, at: usize) -> Done
    requires there { base < length machine.old.heap.values }
    requires index { at < length machine.old.heap.values }
    requires room { length machine.old.heap.values < machine.old.heap.slots }
{
    let Value::Int(at) = machine.heap.value(at) else {
        return fault(RunFault::BadOperands);
    };
    let at = *at;
    let size = match machine.heap.array_at(base) {
        Some(array) => array.items().len(),
        None => return Err(broken()),
    };
    let Some(k) = item_place(at, size) else {
        return fault(RunFault::OutOfRange);
    };
    if machine.heap.push_element(base, k)? {
        Ok(())
    } else {
        Err(broken())
    }
}

// Pushes a character of a String.
fn index_text(alloc: Global, machine: &mut Machine, base: usize, at: usize) -> Done
    requires there { base < length machine.old.heap.values }
    requires index { at < length machine.old.heap.values }
{
    let Value::Str(text) = machine.heap.value(base) else {
        return Err(broken());
    };
    let Value::Int(at) = machine.heap.value(at) else {
        return fault(RunFault::BadOperands);
    };
    let chars = text.chars();
    let Some(k) = item_place(*at, chars.len()) else {
        return fault(RunFault::OutOfRange);
    };
    let Some(character) = chars.get(k) else {
        return Err(broken());
    };
    let one = Text::one(alloc, *character)?;
    machine.push_free(Value::Str(one))
}

/// Pushes the value at a key of the dictionary at a place.
pub fn push_entry(machine: &mut Machine, place: usize, key: &Key) -> Done
    requires there { place < length machine.old.heap.values }
    requires room { length machine.old.heap.values < machine.old.heap.slots }
{
    if machine.heap.push_entry(place, key)? {
        Ok(())
    } else {
        fault(RunFault::NoSuchKey)
    }
}

/// Writes the value on the top at an index of a base below it.
#[inline(never)]
pub fn set_index(view: View<'_>, machine: &mut Machine) -> Done {
    let base = machine.below(2)?;
    let at = machine.below(1)?;
    match base_of(machine.heap.value(base)) {
        Base::Array => set_element(view, machine, base, at)?,
        Base::Dict => set_at_key(view, machine, base, at)?,
        Base::Text | Base::Other => return fault(RunFault::BadOperands),
    }
    machine.drop_values(3)
}

// Exchanges the value on the top with an element of an array.
fn set_element(view: View<'_>, machine: &mut Machine, base: usize, at: usize) -> Done
    requires there { base + 1 < length machine.old.heap.values }
    requires index { at < length machine.old.heap.values }
{
    let k = place_to_write(view, machine, base, at)?;
    if machine.heap.swap_element(base, k)? {
        Ok(())
    } else {
        Err(broken())
    }
}

// Where a value goes in an array, which is refused where it is read-only, where the index is no int or names no
// element, and where the value does not fit.
fn place_to_write(view: View<'_>, machine: &Machine, base: usize, at: usize) -> Result<usize, Stop>
    requires there { base < length machine.now.heap.values }
    requires index { at < length machine.now.heap.values }
{
    let Some(array) = machine.heap.array_at(base) else {
        return Err(broken());
    };
    if array.fixed() {
        return fault(RunFault::ReadOnly);
    }
    let Value::Int(at) = machine.heap.value(at) else {
        return fault(RunFault::BadOperands);
    };
    let Some(k) = item_place(*at, array.items().len()) else {
        return fault(RunFault::OutOfRange);
    };
    let (value, things) = machine.heap.last();
    if !fits_ty(view, array.element(), value, &things) {
        return fault(RunFault::ValueOfAnotherType);
    }
    Ok(k)
}

// Writes the value on the top into a dictionary, at the key at a place.
fn set_at_key(view: View<'_>, machine: &mut Machine, base: usize, at: usize) -> Done
    requires there { base < length machine.old.heap.values }
    requires index { at < length machine.old.heap.values }
{
    let Some(dict) = machine.heap.dict_at(base) else {
        return Err(broken());
    };
    if dict.fixed() {
        return fault(RunFault::ReadOnly);
    }
    let key = key_of(machine.heap.value(at))?;
    if !key_fits(view, machine, dict.key_type(), at) {
        return fault(RunFault::ValueOfAnotherType);
    }
    put_last(view, machine, base, key)
}

// Whether the value at a place fits the type of a dictionary's keys.
fn key_fits(view: View<'_>, machine: &Machine, ty: &Ty, at: usize) -> bool
    requires { at < length machine.now.heap.values }
{
    let Some(count) = machine.heap.len().checked_sub(at) else {
        return false;
    };
    let (values, things) = machine.heap.last_values(count);
    if values.len() == 0 {
        return false;
    }
    fits_ty(view, ty, &values[0], &things)
}

/// Writes the value on the top at the name of an attribute of the dictionary at a place.
pub fn set_at_name(view: View<'_>, machine: &mut Machine, base: usize, name: &Text) -> Done
    requires { base < length machine.old.heap.values }
{
    let Some(dict) = machine.heap.dict_at(base) else {
        return Err(broken());
    };
    if dict.fixed() {
        return fault(RunFault::ReadOnly);
    }
    let named = Value::Str(name.share()?);
    if !fits_ty(view, dict.key_type(), &named, &machine.heap.things()) {
        return fault(RunFault::ValueOfAnotherType);
    }
    put_last(view, machine, base, Key::Str(name.share()?))
}

// Puts the value on the top at a key that fits, of a dictionary that is not read-only.
fn put_last(view: View<'_>, machine: &mut Machine, base: usize, key: Key) -> Done
    requires { base < length machine.old.heap.values }
{
    let value = value_to_put(view, machine, base, &key)?;
    machine.make_room()?;
    if !machine.heap.can_hold_key(&key) || !machine.heap.can_hold(&value) {
        return Err(broken());
    }
    if machine.heap.put_entry(base, key, value)? {
        Ok(())
    } else {
        Err(broken())
    }
}

// The value on the top, which is refused where it does not fit, and at a new key of a full dictionary.
fn value_to_put(view: View<'_>, machine: &Machine, base: usize, key: &Key) -> Result<Value, Stop>
    requires { base < length machine.now.heap.values }
{
    let Some(dict) = machine.heap.dict_at(base) else {
        return Err(broken());
    };
    let (value, things) = machine.heap.last();
    if !fits_ty(view, dict.value_type(), value, &things) {
        return fault(RunFault::ValueOfAnotherType);
    }
    if dict.size() as usize >= MAX_ITEMS && dict.get(key).is_none() {
        return fault(RunFault::TooLong);
    }
    Ok(value.share()?)
}
