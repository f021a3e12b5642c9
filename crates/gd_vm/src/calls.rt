//! Calls of methods, by the kind of their base.
ghost use Rattle.std.specs.Prelude.{◌≡◌, ◌<◌, None, length};

use crate::container_calls::call_on_value;
use crate::entering::{Entry, admit, begin, callee, enter};
use crate::layout::Member;
use crate::machine::Machine;
use crate::signals::{Signals, call_signal};
use crate::site::Site;
use crate::stop::{Done, Stop, broken, fault};
use crate::tables::View;
use gd_model::{RunFault, Target, Value};
use std::alloc::Global;
use value_semantics::{Builtin, Kind, kind_of};

/// The method at a site is called on a base below so many arguments.
#[inline(always)]
pub fn call_method(
    alloc: Global,
    view: View<'_>,
    machine: &mut Machine,
    signals: &mut Signals,
    site: &mut Site,
    given: usize,
    instruction: usize,
) -> Done {
    let base = machine.below(given)?;
    let Some(class) = machine.heap.class_at(base) else {
        return call_other(alloc, view, machine, signals, site.name, given, instruction);
    };
    let Some(function) = site.method(&view.tables.layout, class) else {
        return fault(RunFault::NoSuchMethod);
    };
    enter(
        view,
        machine,
        Entry {
            function,
            given,
            floor: base,
            me: base,
            is_taken: true,
        },
    )
}

// A method of a value that is no object.
#[inline(never)]
fn call_other(
    alloc: Global,
    view: View<'_>,
    machine: &mut Machine,
    signals: &mut Signals,
    name: u32,
    given: usize,
    instruction: usize,
) -> Done {
    let base = machine.below(given)?;
    let kind = kind_of(machine.heap.value(base));
    if kind == Kind::Nil {
        return fault(RunFault::NullReceiver);
    }
    let Some(method) = view.tables.methods.find(kind, name) else {
        return fault(RunFault::NoSuchMethod);
    };
    match kind {
        Kind::Callable => call_callable(view, machine, method, given),
        Kind::Signal => {
            let pos = view.pos(machine.frame.function, instruction);
            call_signal(alloc, machine, signals, method, given, pos)
        }
        _ => call_on_value(alloc, view, machine, method, given),
    }
}

// `call` and `is_valid` of a Callable.
fn call_callable(view: View<'_>, machine: &mut Machine, method: Builtin, given: usize) -> Done {
    let base = machine.below(given)?;
    let Value::Callable(target) = machine.heap.value(base) else {
        return Err(broken());
    };
    let target = target.share()?;
    match method {
        Builtin::CallableIsValid => {
            if given != 0 {
                return fault(RunFault::WrongNumberOfArguments);
            }
            let is_valid = !is_gone(machine, target.get());
            machine.give_free(1, Value::Bool(is_valid))
        }
        Builtin::CallableCall => call_target(view, machine, target.get(), base, given),
        _ => fault(RunFault::NoSuchMethod),
    }
}

/// Whether the object of a target has gone.
pub fn is_gone(machine: &Machine, target: &Target) -> bool {
    match target.object {
        Some(h) => !machine.heap.is_alive(h),
        None => false,
    }
}

/// The function that a target calls: of an object the nearest of its class, and else one of the class itself.
pub fn function_of(
    view: View<'_>,
    machine: &Machine,
    target: &Target,
) -> Result<Option<usize>, Stop> {
    let layout = &view.tables.layout;
    let Some(name) = layout.names.find(&target.name) else {
        return Ok(None);
    };
    let found = match target.object {
        Some(h) => {
            let Some(class) = machine.heap.class_of(h) else {
                return Err(broken());
            };
            layout.method_of(class, name)
        }
        None => own_method(view, target.class, name),
    };
    Ok(found.map(|function| function as usize))
}

fn own_method(view: View<'_>, class: u32, name: u32) -> Option<u32> {
    match view.tables.layout.own(class, name) {
        Some(Member::Method(function)) => Some(function),
        _ => None,
    }
}

/// The value through which a target's function is called: its object, or null.
pub fn receiver_of(target: &Target) -> Value {
    match target.object {
        Some(h) => Value::Object(h),
        None => Value::Nil,
    }
}

// The target of a Callable that stands below its arguments: its object comes in the Callable's place.
fn call_target(
    view: View<'_>,
    machine: &mut Machine,
    target: &Target,
    base: usize,
    given: usize,
) -> Done
    requires { base < length machine.old.heap.values }
{
    if is_gone(machine, target) {
        return fault(RunFault::FreedTarget);
    }
    let Some(function) = function_of(view, machine, target)? else {
        return fault(RunFault::NoSuchMethod);
    };
    let of = callee(view, function)?;
    admit(view, machine, of, given)?;
    let receiver = receiver_of(target);
    if !machine.heap.can_hold(&receiver) {
        return Err(broken());
    }
    machine.heap.set_held(base, receiver);
    let entry = Entry {
        function,
        given,
        floor: base,
        me: base,
        is_taken: true,
    };
    begin(view, machine, of, entry, true)?;
    machine.calls = machine.calls.wrapping_add(1);
    Ok(())
}
