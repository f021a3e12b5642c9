//! Objects are made.
ghost use Rattle.std.specs.Prelude.{◌≡◌, None, IfOk};
ghost use Rattle.std.specs.List.{All};
ghost use Rattle.gd_holding.specs.Handles.{value_handle};

use crate::entering::{Entry, admit, begin_uncounted, callee, enter, resume, use_turn};
use crate::machine::{Activity, MAX_CALLS, Machine, Making};
use crate::plans::{Plan, Plans};
use crate::starting::{plain_start, push_start};
use crate::stop::{Done, broken, fault};
use crate::tables::View;
use counted_heap::Thing;
use gd_containers::Look;
use gd_model::{RunFault, Value};
use gd_syntax::{Pos, Seq};
use no_memory::NoMemory;
use std::alloc::Global;

/// A `new` of a class with so many arguments, which are the last values: they are tested, a turn is used, and the
/// object is made. What is still to be called for it is called by the steps that follow.
#[inline(never)]
pub fn construct(
    alloc: Global,
    view: View<'_>,
    machine: &mut Machine,
    plans: &mut Plans,
    class: u32,
    given: usize,
    pos: Pos,
) -> Done {
    plans.prepare(alloc, view, class)?;
    let Some(plan) = plans.plan(class) else {
        return Err(broken());
    };
    admit_new(view, machine, plan, given)?;
    let Some(object) = machine.heap.len().checked_sub(given) else {
        return Err(broken());
    };
    push_object(alloc, view, machine, class, plan)?;
    if given >= machine.heap.len() {
        return Err(broken());
    }
    machine.heap.sink(given);
    begin_making(
        machine,
        Making {
            object,
            class,
            called: 0,
            init: plan.init,
            given,
            pos,
        },
    )
}

// The rest of a `new` is the innermost activity.
fn begin_making(machine: &mut Machine, making: Making) -> Done {
    if machine.is_running {
        machine.around.push(Activity::Running(machine.frame))?;
    }
    machine.around.push(Activity::Making(making))?;
    machine.is_running = false;
    machine.calls = machine.calls.wrapping_add(1);
    Ok(())
}

// Tests the arguments against `_init`; without one there are none. Then whether one more call may stand, and the turn.
fn admit_new(view: View<'_>, machine: &mut Machine, plan: &Plan, given: usize) -> Done {
    if let Some(init) = plan.init {
        let callee = callee(view, init)?;
        return admit(view, machine, callee, given);
    }
    if given != 0 {
        return fault(RunFault::WrongNumberOfArguments);
    }
    if machine.calls >= MAX_CALLS {
        return fault(RunFault::CallsTooDeep);
    }
    use_turn(machine)
}

// Pushes an object whose variables have the values with which their types begin.
fn push_object(
    alloc: Global,
    view: View<'_>,
    machine: &mut Machine,
    class: u32,
    plan: &Plan,
) -> Done {
    let values = starts(alloc, view, plan)?;
    machine.make_room()?;
    if machine.heap.things().class_name(class).is_none() {
        return Err(broken());
    }
    machine
        .heap
        .push_thing(Thing::Object(class, Seq::of(values)))?;
    if plan.has_things {
        add_things(alloc, view, machine, plan)?;
    }
    Ok(())
}

// The values with which an object's variables begin, null for a new thing.
fn starts(alloc: Global, view: View<'_>, plan: &Plan) -> Result<Vec<Value>, NoMemory>
    ensures { IfOk result (λ all. All (λ x. value_handle x ≡ None) all.items) }
{
    let mut values = Vec::with_capacity(alloc, plan.types.len())?;
    for typed in plan.types.iter() {
        let value = start_of(view, *typed)?;
        values.push(value)?;
    }
    Ok(values)
}

// The value with which a place of a type begins, null for a new thing.
fn start_of(view: View<'_>, typed: usize) -> Result<Value, NoMemory>
    ensures { IfOk result (λ x. value_handle x ≡ None) }
{
    let Some(ty) = view.ty(typed) else {
        return Ok(Value::Nil);
    };
    match plain_start(ty, &view.tables.empty)? {
        Some(start) => Ok(start),
        None => Ok(Value::Nil),
    }
}

// The variables of the object on the top that begin with a new array or dictionary get one, in order.
fn add_things(alloc: Global, view: View<'_>, machine: &mut Machine, plan: &Plan) -> Done {
    let object = machine.below(0)?;
    for (k, typed) in plan.types.iter().enumerate() {
        add_thing(alloc, view, machine, object, k, *typed)?;
    }
    Ok(())
}

// Variable `k` of the object at a place gets a new array or dictionary, if its type begins with one.
fn add_thing(
    alloc: Global,
    view: View<'_>,
    machine: &mut Machine,
    object: usize,
    k: usize,
    typed: usize,
) -> Done {
    let Some(ty) = view.ty(typed) else {
        return Err(broken());
    };
    if plain_start(ty, &view.tables.empty)?.is_some() {
        return Ok(());
    }
    push_start(alloc, machine, ty, &view.tables.empty)?;
    if object.saturating_add(1) >= machine.heap.len() || !machine.heap.swap_variable(object, k) {
        return Err(broken());
    }
    machine.drop_values(1)
}

/// The rest of a `new` goes on: with the next function for initial values, with `_init`, to which the arguments pass,
/// or with the object, which whoever asked for it has then.
pub fn go_on_making(view: View<'_>, machine: &mut Machine, plans: &Plans, making: Making) -> Done {
    let Some(plan) = plans.plan(making.class) else {
        return Err(broken());
    };
    if let Some(initial) = plan.initials.get(making.called).copied() {
        let next = Making {
            called: making.called.wrapping_add(1),
            ..making
        };
        replace_making(machine, next);
        return begin_uncounted(view, machine, initial, making.object);
    }
    match making.init {
        Some(init) => call_init(view, machine, making, init),
        None => {
            let _ = machine.around.pop();
            machine.calls = machine.calls.wrapping_sub(1);
            resume(machine);
            Ok(())
        }
    }
}

// The arguments pass to `_init`.
fn call_init(view: View<'_>, machine: &mut Machine, making: Making, init: usize) -> Done {
    let next = Making {
        init: None,
        given: 0,
        ..making
    };
    replace_making(machine, next);
    let entry = Entry {
        function: init,
        given: making.given,
        floor: making.object.wrapping_add(1),
        me: making.object,
        is_taken: false,
    };
    enter(view, machine, entry)
}

// The innermost `new` has come further.
fn replace_making(machine: &mut Machine, making: Making) {
    if let Some(innermost) = machine.around.last_mut() {
        *innermost = Activity::Making(making);
    }
}
