//! Locals with marks, and entries of the stack below iterations.
use crate::fitting::test_last;
use crate::machine::Machine;
use crate::stop::{Done, Stop, broken};
use crate::tables::View;
use gd_model::Value;

/// Takes a value into a local that has a mark.
#[inline(never)]
pub fn set_marked(view: View<'_>, machine: &mut Machine, local: usize, slot: usize) -> Done {
    let typed = match view.program.functions.items().get(machine.frame.function) {
        Some(function) => function.types.items().get(local).copied(),
        None => None,
    };
    let Some(typed) = typed else {
        return Err(broken());
    };
    test_last(view, machine, typed as usize)?;
    let base = machine.frame.base;
    machine.store(base.wrapping_add(local))?;
    machine.set_free(base.wrapping_add(slot), Value::Bool(true))
}

/// Locals become unset together, with their marks.
#[inline(never)]
pub fn clear_marked(view: View<'_>, machine: &mut Machine, from: usize, to: usize) -> Done {
    clear(machine, from, to)?;
    let Some(callee) = view.tables.callees.get(machine.frame.function) else {
        return Err(broken());
    };
    for k in callee.first_mark..callee.last_mark {
        let Some(mark) = view.tables.marks.get(k) else {
            return Err(broken());
        };
        if from <= mark.local && mark.local < to {
            let place = machine.frame.base.wrapping_add(mark.slot);
            machine.set_free(place, Value::Nil)?;
        }
    }
    Ok(())
}

/// Locals become unset together.
#[inline(always)]
pub fn clear(machine: &mut Machine, from: usize, to: usize) -> Done {
    let first = machine.frame.base.saturating_add(from);
    let end = machine.frame.base.saturating_add(to);
    if first > end || end > machine.heap.len() {
        return Err(broken());
    }
    machine.heap.clear(first, end);
    Ok(())
}

/// Whether a mark of the function that runs is set.
#[inline(always)]
pub fn is_set(machine: &Machine, slot: usize) -> bool {
    match machine.value(machine.frame.base.wrapping_add(slot)) {
        Some(Value::Bool(yes)) => *yes,
        _ => false,
    }
}

/// The place of the first value of an entry that stands so many entries below the top. An iteration over a dictionary
/// is an entry of several values.
#[inline(always)]
pub fn entry_place(machine: &Machine, below: usize) -> Result<usize, Stop> {
    let Some(mut place) = machine.heap.len().checked_sub(below.saturating_add(1)) else {
        return Err(broken());
    };
    for k in (machine.frame.iterations..machine.iterations.len()).rev() {
        let Some(iteration) = machine.iterations.get(k) else {
            return Err(broken());
        };
        if place > iteration.last() {
            break;
        }
        place = place.wrapping_sub(iteration.extra);
    }
    Ok(place)
}

/// Gives up so many entries on the top together.
#[inline(always)]
pub fn drop_entries(machine: &mut Machine, count: usize) -> Done {
    if count == 0 {
        return Ok(());
    }
    let place = entry_place(machine, count.wrapping_sub(1))?;
    let Some(values) = machine.heap.len().checked_sub(place) else {
        return Err(broken());
    };
    machine.heap.drop_last(values);
    end_iterations(machine, place);
    Ok(())
}

// Iterations from a place on go.
#[inline(always)]
fn end_iterations(machine: &mut Machine, place: usize) {
    let mut left = machine.iterations.len();
    for k in (machine.frame.iterations..machine.iterations.len()).rev() {
        match machine.iterations.get(k) {
            Some(iteration) if iteration.first >= place => left = k,
            _ => break,
        }
    }
    machine.iterations.truncate(left);
}
