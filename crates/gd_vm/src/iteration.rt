//! Iterations: over ints, arrays, Strings and dictionaries.
ghost use Rattle.std.specs.Prelude.{◌+◌, ◌<◌, length};

use crate::machine::Machine;
use crate::stop::{Done, Stop, broken, fault};
use gd_model::{RunFault, Value};
use gd_syntax::Text;
use std::alloc::Global;

/// How far an iteration has come.
#[derive(Clone, Copy, Debug, PartialEq, Eq)]
pub enum Progress {
    /// The next int, the step, and how many ints are left.
    Ints(i64, i64, u64),
    /// The next element of the array that stands at the iteration's place.
    Elements(usize),
    /// The next character of the String there.
    Characters(usize),
    /// The next of the keys that stand behind the dictionary there.
    Keys(usize),
}

/// An iteration, which holds a value, and of a dictionary also its keys behind it.
#[derive(Clone, Copy, Debug, PartialEq, Eq)]
pub struct Iteration {
    /// The place of its value.
    pub first: usize,
    /// How many further values it holds.
    pub extra: usize,
    pub progress: Progress,
}

impl Iteration {
    /// The place of its last value.
    #[inline(always)]
    pub fn last(&self) -> usize {
        self.first.wrapping_add(self.extra)
    }
}

/// How many ints a range has.
fn range_size(first: i64, end: i64, step: i64) -> u64 {
    let goes = (step > 0 && first < end) || (step < 0 && end < first);
    if !goes {
        return 0;
    }
    let way = first.abs_diff(end);
    let by = step.unsigned_abs();
    if by == 0 {
        return 0;
    }
    let whole = way / by;
    if way % by == 0 {
        whole
    } else {
        whole.saturating_add(1)
    }
}

fn range(first: i64, end: i64, step: i64) -> Result<Progress, Stop> {
    if step == 0 {
        return fault(RunFault::ZeroDivisorOrStep);
    }
    Ok(Progress::Ints(first, step, range_size(first, end, step)))
}

/// The value on the top becomes an iteration.
#[inline(never)]
pub fn iterate(machine: &mut Machine) -> Done {
    let first = machine.below(0)?;
    match machine.heap.value(first) {
        Value::Int(n) => {
            let progress = range(0, *n, 1)?;
            begin(machine, first, 0, progress)
        }
        Value::Array(_) => begin(machine, first, 0, Progress::Elements(0)),
        Value::Str(_) => begin(machine, first, 0, Progress::Characters(0)),
        Value::Dict(_) => iterate_keys(machine, first),
        _ => fault(RunFault::NotIterable),
    }
}

fn begin(machine: &mut Machine, first: usize, extra: usize, progress: Progress) -> Done {
    machine.iterations.push(Iteration {
        first,
        extra,
        progress,
    })?;
    Ok(())
}

// An iteration over the keys of a dictionary, as they are now.
fn iterate_keys(machine: &mut Machine, first: usize) -> Done
    requires { first < length machine.old.heap.values }
{
    let size = match machine.heap.dict_at(first) {
        Some(dict) => dict.size() as usize,
        None => return Err(broken()),
    };
    machine.heap.reserve(size.saturating_add(1))?;
    let extra = machine.heap.push_keys(first)?;
    begin(machine, first, extra, Progress::Keys(0))
}

/// So many ints on the top become an iteration over their range.
#[inline(never)]
pub fn iterate_range(machine: &mut Machine, given: usize) -> Done {
    let Some(first) = machine.heap.len().checked_sub(given) else {
        return Err(broken());
    };
    let (values, _things) = machine.heap.last_values(given);
    let progress = match values {
        [Value::Int(end)] => range(0, *end, 1)?,
        [Value::Int(from), Value::Int(end)] => range(*from, *end, 1)?,
        [Value::Int(from), Value::Int(end), Value::Int(step)] => range(*from, *end, *step)?,
        _ => return fault(RunFault::ValueOfAnotherType),
    };
    machine.drop_values(given.saturating_sub(1))?;
    begin(machine, first, 0, progress)
}

/// Pushes the next value of the iteration on the top. False where it is at its end, and has gone.
#[inline(always)]
pub fn go_on(alloc: Global, machine: &mut Machine) -> Result<bool, Stop> {
    let Some(last) = machine.iterations.len().checked_sub(1) else {
        return Err(broken());
    };
    machine.make_room()?;
    let Some(iteration) = machine.iterations.get_mut(last) else {
        return Err(broken());
    };
    if let Progress::Ints(next, step, left) = iteration.progress {
        if left > 0 {
            iteration.progress = Progress::Ints(next.wrapping_add(step), step, left - 1);
            machine.heap.push_free(Value::Int(next));
            return Ok(true);
        }
        return end(machine);
    }
    let copied = *iteration;
    if !push_next(alloc, machine, copied)? {
        return end(machine);
    }
    if let Some(iteration) = machine.iterations.get_mut(last) {
        iteration.progress = stepped(copied.progress);
    }
    Ok(true)
}

// One place further.
#[inline(always)]
fn stepped(progress: Progress) -> Progress {
    match progress {
        Progress::Elements(k) => Progress::Elements(k.wrapping_add(1)),
        Progress::Characters(k) => Progress::Characters(k.wrapping_add(1)),
        Progress::Keys(k) => Progress::Keys(k.wrapping_add(1)),
        Progress::Ints(next, step, left) => Progress::Ints(next, step, left),
    }
}

// Pushes the next element, character or key, if there is one.
#[inline(always)]
fn push_next(alloc: Global, machine: &mut Machine, iteration: Iteration) -> Result<bool, Stop>
    requires { length machine.old.heap.values < machine.old.heap.slots }
{
    if iteration.first >= machine.heap.len() {
        return Err(broken());
    }
    match iteration.progress {
        Progress::Elements(k) => Ok(machine.heap.push_element(iteration.first, k)?),
        Progress::Characters(k) => push_character(alloc, machine, iteration.first, k),
        Progress::Keys(k) if k < iteration.extra => {
            machine.push_copy(iteration.first.wrapping_add(k).wrapping_add(1))?;
            Ok(true)
        }
        Progress::Keys(_) | Progress::Ints(_, _, _) => Ok(false),
    }
}

// Pushes a character of a String as a String.
fn push_character(
    alloc: Global,
    machine: &mut Machine,
    place: usize,
    k: usize,
) -> Result<bool, Stop>
    requires { place < length machine.old.heap.values }
{
    let character = match machine.heap.value(place) {
        Value::Str(text) => text.chars().get(k).copied(),
        _ => return Err(broken()),
    };
    let Some(character) = character else {
        return Ok(false);
    };
    let text = Text::one(alloc, character)?;
    machine.push_free(Value::Str(text))?;
    Ok(true)
}

// The iteration on the top goes.
#[inline(always)]
fn end(machine: &mut Machine) -> Result<bool, Stop> {
    let Some(iteration) = machine.iterations.pop() else {
        return Err(broken());
    };
    let Some(values) = machine.heap.len().checked_sub(iteration.first) else {
        return Err(broken());
    };
    machine.heap.drop_last(values);
    Ok(false)
}
