//! Builtin functions, and assertions.
use crate::giving::give;
use crate::machine::Machine;
use crate::stop::{Done, Stop, broken};
use gd_answers::Fresh;
use gd_builtins::call_builtin;
use gd_model::Value;
use gd_printing::text_of;
use gd_syntax::Text;
use std::alloc::Global;
use value_semantics::Builtin;

/// A builtin function that prints nothing.
#[inline(never)]
pub fn call_function(alloc: Global, machine: &mut Machine, builtin: Builtin, given: usize) -> Done {
    let fresh = called(alloc, machine, builtin, given)?;
    give(machine, given, fresh)
}

fn called(alloc: Global, machine: &Machine, builtin: Builtin, given: usize) -> Result<Fresh, Stop> {
    if given > machine.heap.len() {
        return Err(broken());
    }
    let (args, things) = machine.heap.last_values(given);
    Ok(call_builtin(alloc, builtin, args, &things)?)
}

/// A builtin function that prints: the line.
#[inline(never)]
pub fn print(
    alloc: Global,
    machine: &mut Machine,
    builtin: Builtin,
    given: usize,
) -> Result<Text, Stop> {
    match called(alloc, machine, builtin, given)? {
        Fresh::Value(Value::Str(line)) => {
            machine.give_free(given, Value::Nil)?;
            Ok(line)
        }
        _ => Err(broken()),
    }
}

/// An assertion fails, with the printed form of the value on the top.
#[inline(never)]
pub fn said(alloc: Global, machine: &Machine) -> Stop {
    if machine.heap.len() == 0 {
        return broken();
    }
    let (value, things) = machine.heap.last();
    match text_of(alloc, value, &things) {
        Ok(message) => Stop::Said(message),
        Err(fault) => Stop::from(fault),
    }
}
