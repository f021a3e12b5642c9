//! Functions are entered and left.
ghost use Rattle.std.specs.Prelude.{◌≡◌};

use crate::fitting::arguments_fit;
use crate::machine::{Activity, Frame, MAX_CALLS, Machine};
use crate::stop::{Done, Stop, broken, fault};
use crate::tables::{Callee, View};
use gd_model::{RunFault, Value};

/// How a function is entered: with how many arguments, which are the last values; where what it gives up at its end
/// begins; where its receiver is.
#[derive(Clone, Copy)]
pub struct Entry {
    pub function: usize,
    pub given: usize,
    pub floor: usize,
    pub me: usize,
    /// Whether whoever calls takes the result.
    pub is_taken: bool,
}

/// A function as calls see it.
#[inline(always)]
pub fn callee(view: View<'_>, function: usize) -> Result<Callee, Stop> {
    match view.tables.callees.get(function) {
        Some(callee) => Ok(*callee),
        None => Err(broken()),
    }
}

/// Tests a call: the number of arguments, their types, and whether one more call may stand. Then a turn is used.
#[inline(always)]
pub fn admit(view: View<'_>, machine: &mut Machine, callee: Callee, given: usize) -> Done
    ensures { machine.new.heap ≡ machine.old.heap }
{
    if given < callee.required || given > callee.params {
        return fault(RunFault::WrongNumberOfArguments);
    }
    if !callee.takes_all && !arguments_fit(view, machine, callee.types, given)? {
        return fault(RunFault::ValueOfAnotherType);
    }
    if machine.calls >= MAX_CALLS {
        return fault(RunFault::CallsTooDeep);
    }
    use_turn(machine)
}

/// Uses a turn.
#[inline(always)]
pub fn use_turn(machine: &mut Machine) -> Done
    ensures { machine.new.heap ≡ machine.old.heap }
{
    if machine.turns == 0 {
        return Err(Stop::OutOfTurns);
    }
    machine.turns -= 1;
    Ok(())
}

/// Calls a function.
#[inline(always)]
pub fn enter(view: View<'_>, machine: &mut Machine, entry: Entry) -> Done {
    let callee = callee(view, entry.function)?;
    admit(view, machine, callee, entry.given)?;
    begin(view, machine, callee, entry, true)?;
    machine.calls = machine.calls.wrapping_add(1);
    Ok(())
}

/// Begins a function for initial values, which is no call and takes no turn.
pub fn begin_uncounted(view: View<'_>, machine: &mut Machine, function: usize, me: usize) -> Done {
    let callee = callee(view, function)?;
    let entry = Entry {
        function,
        given: 0,
        floor: machine.heap.len(),
        me,
        is_taken: false,
    };
    begin(view, machine, callee, entry, false)
}

/// A few places beyond the locals, so that few pushes have to make room.
const ROOM: usize = 16;

/// The function runs: its parameters are the last values, and its other locals are not set.
#[inline(always)]
pub fn begin(
    view: View<'_>,
    machine: &mut Machine,
    callee: Callee,
    entry: Entry,
    is_call: bool,
) -> Done {
    let Some(base) = machine.heap.len().checked_sub(entry.given) else {
        return Err(broken());
    };
    let more = callee.slots.saturating_sub(entry.given);
    machine.heap.reserve(more.saturating_add(ROOM))?;
    machine.heap.push_nils(more);
    if callee.first_mark < callee.last_mark {
        mark_given(view, machine, callee, base, entry.given)?;
    }
    if machine.is_running {
        machine.around.push(Activity::Running(machine.frame))?;
    }
    machine.is_running = true;
    machine.frame = Frame {
        function: entry.function,
        pc: callee.start,
        floor: entry.floor,
        base,
        me: entry.me,
        iterations: machine.iterations.len(),
        is_taken: entry.is_taken,
        is_call,
    };
    Ok(())
}

// The marks of the parameters that were given are set.
#[cold]
#[inline(never)]
fn mark_given(
    view: View<'_>,
    machine: &mut Machine,
    callee: Callee,
    base: usize,
    given: usize,
) -> Done {
    for k in callee.first_mark..callee.last_mark {
        let Some(mark) = view.tables.marks.get(k) else {
            return Err(broken());
        };
        if mark.local < given {
            machine.set_free(base.wrapping_add(mark.slot), Value::Bool(true))?;
        }
    }
    Ok(())
}

/// The function that runs returns the value on the top.
#[inline(always)]
pub fn leave(machine: &mut Machine) -> Done {
    let frame = machine.frame;
    machine.iterations.truncate(frame.iterations);
    if frame.floor >= machine.heap.len() {
        return Err(broken());
    }
    machine.heap.leave(frame.floor);
    if frame.is_call {
        machine.calls = machine.calls.wrapping_sub(1);
    }
    machine.is_owed = !frame.is_taken;
    resume(machine);
    Ok(())
}

/// What goes on around goes on: the innermost function runs, if it is the innermost activity.
#[inline(always)]
pub fn resume(machine: &mut Machine) {
    machine.is_running = false;
    if let Some(Activity::Running(frame)) = machine.around.last() {
        machine.frame = *frame;
        machine.is_running = true;
    }
    if machine.is_running {
        let _ = machine.around.pop();
    }
}
