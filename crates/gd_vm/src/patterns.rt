//! What patterns ask of a subject on the top, which stays.
use crate::machine::Machine;
use crate::stop::{Done, Stop, broken};
use gd_containers::{ThingFault, key_of};
use gd_model::Value;
use std::cmp::Ordering;

/// Whether a size is the one that is wanted, or where more may be, at least that.
fn fits_size(size: usize, wanted: usize, more: bool) -> bool {
    match size.cmp(&wanted) {
        Ordering::Less => false,
        Ordering::Equal => true,
        Ordering::Greater => more,
    }
}

/// Pushes whether the top is an array of a size.
pub fn size_array(machine: &mut Machine, wanted: usize, more: bool) -> Done {
    let top = machine.below(0)?;
    let yes = match machine.heap.array_at(top) {
        Some(array) => fits_size(array.items().len(), wanted, more),
        None => false,
    };
    machine.push_free(Value::Bool(yes))
}

/// Pushes whether the top is a dictionary of a size.
pub fn size_dict(machine: &mut Machine, wanted: usize, more: bool) -> Done {
    let top = machine.below(0)?;
    let yes = match machine.heap.dict_at(top) {
        Some(dict) => fits_size(dict.size() as usize, wanted, more),
        None => false,
    };
    machine.push_free(Value::Bool(yes))
}

/// Takes a key. Pushes the value at it of the value below, or null, and whether it is there.
pub fn key_of_top(machine: &mut Machine) -> Done {
    let subject = machine.below(1)?;
    let top = machine.below(0)?;
    machine.make_room()?;
    let is_there = match key_of(machine.heap.value(top)) {
        Ok(key) => machine.heap.push_entry(subject, &key)?,
        Err(ThingFault::Run(_)) => false,
        Err(ThingFault::NoMemory) => return Err(Stop::NoMemory),
    };
    if is_there {
        machine.store(top)?;
    } else {
        machine.set_free(top, Value::Nil)?;
    }
    machine.push_free(Value::Bool(is_there))
}

/// Pushes an element of the top, or null.
pub fn element_of_top(machine: &mut Machine, k: usize) -> Done {
    let top = machine.below(0)?;
    machine.make_room()?;
    if machine.heap.push_element(top, k)? {
        return Ok(());
    }
    if top.saturating_add(1) != machine.heap.len() {
        return Err(broken());
    }
    machine.push_free(Value::Nil)
}
