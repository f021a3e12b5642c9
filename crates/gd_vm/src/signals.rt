//! Signals: their methods, and how an emission goes on.
ghost use Rattle.std.specs.Prelude.{◌≡◌, ◌≤◌, None, length, IfOk};
ghost use Rattle.gd_holding.specs.Handles.{value_handle};

use crate::calls::{function_of, is_gone, receiver_of};
use crate::entering::{Entry, enter, resume};
use crate::giving::push_value;
use crate::machine::{Activity, Emitting, Machine};
use crate::stop::{Done, Stop, broken, fault};
use crate::tables::View;
use gd_model::{RunFault, Shared, SignalSource, Target, Value};
use gd_signals::{Connections, REFUSED};
use gd_syntax::Pos;
use std::alloc::Global;
use value_semantics::Builtin;

/// An emission: the signal, the targets as they were at its start, each with whether its connection goes with the call,
/// and which of them is next.
#[derive(Drop)]
pub struct Emission {
    source: Shared<SignalSource>,
    targets: Vec<(Shared<Target>, bool)>,
    next: usize,
}

/// The connections of a run, and its emissions, the innermost last.
#[derive(Drop)]
pub struct Signals {
    pub connections: Connections,
    pub emissions: Vec<Emission>,
}

/// A method of a signal, which stands below its arguments.
#[inline(never)]
pub fn call_signal(
    alloc: Global,
    machine: &mut Machine,
    signals: &mut Signals,
    method: Builtin,
    given: usize,
    pos: Pos,
) -> Done {
    let base = machine.below(given)?;
    let Value::Signal(source) = machine.heap.value(base) else {
        return Err(broken());
    };
    let source = source.share()?;
    test_arguments(machine, method, given)?;
    if !machine.heap.is_alive(source.get().emitter) {
        return fault(RunFault::FreedTarget);
    }
    if method == Builtin::SignalEmit {
        return begin_emission(alloc, machine, signals, source, base, given, pos);
    }
    let answer = answered(machine, signals, method, given, source.get())?;
    machine.give_free(given.saturating_add(1), answer)
}

// The number and the kinds of the arguments.
fn test_arguments(machine: &Machine, method: Builtin, given: usize) -> Done
    requires { given ≤ length machine.now.heap.values }
{
    let most = match method {
        Builtin::SignalConnect => 2,
        Builtin::SignalDisconnect | Builtin::SignalIsConnected => 1,
        Builtin::SignalEmit => return Ok(()),
        _ => return fault(RunFault::NoSuchMethod),
    };
    if given < 1 || given > most {
        return fault(RunFault::WrongNumberOfArguments);
    }
    let (args, _things) = machine.heap.last_values(given);
    match args {
        [Value::Callable(_) | Value::Nil] => Ok(()),
        [Value::Callable(_) | Value::Nil, Value::Int(_)] => Ok(()),
        _ => fault(RunFault::ValueOfAnotherType),
    }
}

// What `connect`, `disconnect` and `is_connected` do.
fn answered(
    machine: &Machine,
    signals: &mut Signals,
    method: Builtin,
    given: usize,
    source: &SignalSource,
) -> Result<Value, Stop>
    requires { given ≤ length machine.now.heap.values }
    ensures { IfOk result (λ x. value_handle x ≡ None) }
{
    let (args, _things) = machine.heap.last_values(given);
    let to = match args.first() {
        Some(Value::Callable(target)) => Some(target.share()?),
        _ => None,
    };
    let flags = match args {
        [_, Value::Int(flags)] => *flags,
        _ => 0,
    };
    match to {
        Some(to) => linked(signals, method, source, to, flags),
        None => Ok(unlinked(method)),
    }
}

// The answers for null, which is connected to nothing.
fn unlinked(method: Builtin) -> Value
    ensures { value_handle result ≡ None }
{
    match method {
        Builtin::SignalConnect => Value::Int(REFUSED),
        Builtin::SignalIsConnected => Value::Bool(false),
        _ => Value::Nil,
    }
}

fn linked(
    signals: &mut Signals,
    method: Builtin,
    source: &SignalSource,
    to: Shared<Target>,
    flags: i64,
) -> Result<Value, Stop>
    ensures { IfOk result (λ x. value_handle x ≡ None) }
{
    let all = &mut signals.connections;
    let emitter = source.emitter.serial;
    Ok(match method {
        Builtin::SignalConnect => Value::Int(all.connect(emitter, &source.name, to, flags)?),
        Builtin::SignalIsConnected => {
            Value::Bool(all.is_connected(emitter, &source.name, to.get()))
        }
        _ => {
            let _was = all.disconnect(emitter, &source.name, to.get());
            Value::Nil
        }
    })
}

// An emission begins, with the targets as they are now.
fn begin_emission(
    alloc: Global,
    machine: &mut Machine,
    signals: &mut Signals,
    source: Shared<SignalSource>,
    base: usize,
    given: usize,
    pos: Pos,
) -> Done {
    let emitter = source.get().emitter.serial;
    let targets = signals
        .connections
        .begin_emit(alloc, emitter, &source.get().name)?;
    signals.emissions.push(Emission {
        source,
        targets,
        next: 0,
    })?;
    if machine.is_running {
        machine.around.push(Activity::Running(machine.frame))?;
    }
    machine.around.push(Activity::Emitting(Emitting {
        signal: base,
        given,
        pos,
    }))?;
    machine.is_running = false;
    Ok(())
}

/// The rest of an emission goes on: with the next target, if it is not gone, or at its end with null for whoever
/// emitted.
pub fn go_on_emitting(
    view: View<'_>,
    machine: &mut Machine,
    signals: &mut Signals,
    emitting: Emitting,
) -> Done {
    let Some(emission) = signals.emissions.last_mut() else {
        return Err(broken());
    };
    let next = match emission.targets.get(emission.next) {
        Some((target, one_shot)) => Some((target.share()?, *one_shot)),
        None => None,
    };
    let Some((target, one_shot)) = next else {
        return end_emission(machine, signals, emitting);
    };
    emission.next = emission.next.wrapping_add(1);
    if is_gone(machine, target.get()) {
        return Ok(());
    }
    if one_shot {
        let source = emission.source.get();
        let emitter = source.emitter.serial;
        let _was = signals
            .connections
            .disconnect(emitter, &source.name, target.get());
    }
    call_next(view, machine, emitting, target.get())
}

// A target is called on its object, with the arguments of the emission.
fn call_next(view: View<'_>, machine: &mut Machine, emitting: Emitting, target: &Target) -> Done {
    let Some(function) = function_of(view, machine, target)? else {
        return fault(RunFault::NoSuchMethod);
    };
    let floor = machine.heap.len();
    push_value(machine, receiver_of(target))?;
    for k in 0..emitting.given {
        machine.push_copy(emitting.signal.wrapping_add(1).wrapping_add(k))?;
    }
    enter(
        view,
        machine,
        Entry {
            function,
            given: emitting.given,
            floor,
            me: floor,
            is_taken: false,
        },
    )
}

// All targets were called.
fn end_emission(machine: &mut Machine, signals: &mut Signals, emitting: Emitting) -> Done {
    let _ = signals.emissions.pop();
    let _ = machine.around.pop();
    machine.give_free(emitting.given.saturating_add(1), Value::Nil)?;
    resume(machine);
    Ok(())
}
