//! What operators and builtins give comes in the place of what they took.
use crate::machine::Machine;
use crate::stop::{Done, broken};
use gd_answers::Fresh;
use gd_containers::{OrderedDict, TypedArray};
use gd_model::Value;

/// What an operator or a builtin gave comes in the place of so many values on the top, which are given up once it is
/// held.
pub fn give(machine: &mut Machine, taken: usize, fresh: Fresh) -> Done {
    match fresh {
        Fresh::Value(value) => push_value(machine, value)?,
        Fresh::Array(array) => push_array(machine, array)?,
        Fresh::Dict(dict) => push_dict(machine, dict)?,
    }
    machine.keep_last(taken)
}

/// Pushes a value that is held elsewhere, or names no thing.
pub fn push_value(machine: &mut Machine, value: Value) -> Done {
    machine.make_room()?;
    if !machine.heap.can_hold(&value) {
        return Err(broken());
    }
    machine.heap.push_held(value);
    Ok(())
}

/// Pushes a new array of values that are held elsewhere.
pub fn push_array(machine: &mut Machine, array: TypedArray) -> Done {
    machine.make_room()?;
    if !machine.heap.can_hold_all(array.items()) {
        return Err(broken());
    }
    machine.heap.push_array(array)?;
    Ok(())
}

/// Pushes a new dictionary of values that are held elsewhere.
pub fn push_dict(machine: &mut Machine, dict: OrderedDict) -> Done {
    machine.make_room()?;
    if !machine.heap.can_hold_pairs(&dict) {
        return Err(broken());
    }
    machine.heap.push_dict(dict)?;
    Ok(())
}
