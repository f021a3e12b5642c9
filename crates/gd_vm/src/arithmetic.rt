//! Operators and truth, for values of all kinds.
use crate::giving::give;
use crate::machine::Machine;
use crate::stop::{Done, Stop, broken};
use gd_model::Value;
use gd_operators::{apply, same, truth};
use gd_syntax::Operator;
use std::alloc::Global;

/// An operator on the two values on the top.
#[cold]
#[inline(never)]
pub fn operate(alloc: Global, machine: &mut Machine, op: Operator) -> Done {
    if machine.heap.len() < 2 {
        return Err(broken());
    }
    let (a, b, things) = machine.heap.last_two();
    let fresh = apply(alloc, op, a, b, &things)?;
    give(machine, 2, fresh)
}

/// An operator on the value on the top.
#[inline(never)]
pub fn operate_one(alloc: Global, machine: &mut Machine, op: Operator) -> Done {
    if machine.heap.len() == 0 {
        return Err(broken());
    }
    let (value, things) = machine.heap.last();
    let fresh = apply(alloc, op, value, &Value::Nil, &things)?;
    give(machine, 1, fresh)
}

/// Takes the value on the top and answers its truth.
#[cold]
#[inline(never)]
pub fn take_truth(machine: &mut Machine) -> Result<bool, Stop> {
    if machine.heap.len() == 0 {
        return Err(broken());
    }
    let (value, things) = machine.heap.last();
    let answer = truth(value, &things);
    machine.heap.pop();
    Ok(answer)
}

/// Whether the lower of two values matches the upper one as a pattern.
#[inline(never)]
pub fn matches_pattern(machine: &mut Machine) -> Done {
    if machine.heap.len() < 2 {
        return Err(broken());
    }
    let (subject, pattern, things) = machine.heap.last_two();
    let answer = same(subject, pattern, &things)?;
    machine.give_free(2, Value::Bool(answer))
}
