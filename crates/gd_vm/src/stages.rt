//! What a run does when nothing goes on.
use crate::construction::construct;
use crate::entering::{Entry, begin_uncounted, enter};
use crate::machine::{Machine, NOWHERE};
use crate::methods::spelled;
use crate::plans::Plans;
use crate::stop::{Done, Stop, broken, fault};
use crate::tables::View;
use gd_bytecode::ClassCode;
use gd_model::RunFault;
use std::alloc::Global;

/// What a run does when nothing goes on.
#[derive(Clone, Copy, Debug, PartialEq, Eq)]
pub enum Stage {
    /// The static variables of a class get their initial values.
    StaticValues(usize),
    /// Its `_static_init` is called.
    StaticInit(usize),
    MainInstance,
    Test,
    InstanceOver,
    StaticsOver,
    FindingLeaks,
    Leaking,
}

/// The stages of a run, and the objects that are still to be listed, the last first.
#[derive(Drop)]
pub struct Stages {
    pub stage: Stage,
    pub leaks: Vec<(u64, u32)>,
}

/// What a stage lets the outside see.
#[derive(Clone, Copy, Debug, PartialEq, Eq)]
pub enum Seen {
    Nothing,
    Leaked(u64, u32),
    Done,
}

/// The run comes to its next stage.
pub fn next_stage(
    alloc: Global,
    view: View<'_>,
    machine: &mut Machine,
    plans: &mut Plans,
    stages: &mut Stages,
) -> Result<Seen, Stop> {
    match stages.stage {
        Stage::StaticValues(k) => static_values(view, machine, stages, k)?,
        Stage::StaticInit(k) => static_init(view, machine, stages, k)?,
        Stage::MainInstance => {
            stages.stage = Stage::Test;
            let class = view.program.main.wrapping_add(1);
            construct(alloc, view, machine, plans, class, 0, view.beginning())?;
        }
        Stage::Test => {
            stages.stage = Stage::InstanceOver;
            call_test(alloc, view, machine)?;
        }
        Stage::InstanceOver => {
            stages.stage = Stage::StaticsOver;
            machine.drop_values(1)?;
        }
        Stage::StaticsOver => {
            stages.stage = Stage::FindingLeaks;
            give_up_statics(view, machine)?;
        }
        Stage::FindingLeaks => {
            stages.stage = Stage::Leaking;
            stages.leaks = machine.heap.objects(alloc)?;
            stages.leaks.reverse();
        }
        Stage::Leaking => {
            return Ok(match stages.leaks.pop() {
                Some((serial, class)) => Seen::Leaked(serial, class),
                None => Seen::Done,
            });
        }
    }
    Ok(Seen::Nothing)
}

fn class_at(view: View<'_>, k: usize) -> Option<&ClassCode> {
    view.program.classes.items().get(k)
}

// The static variables of a class get their initial values, if there is a function for them.
fn static_values(view: View<'_>, machine: &mut Machine, stages: &mut Stages, k: usize) -> Done {
    let Some(class) = class_at(view, k) else {
        stages.stage = Stage::MainInstance;
        return Ok(());
    };
    stages.stage = Stage::StaticInit(k);
    match class.static_initial {
        Some(function) => begin_uncounted(view, machine, function as usize, NOWHERE),
        None => Ok(()),
    }
}

// The `_static_init` of a class is called, if it has one.
fn static_init(view: View<'_>, machine: &mut Machine, stages: &mut Stages, k: usize) -> Done {
    stages.stage = Stage::StaticValues(k.wrapping_add(1));
    let Some(class) = class_at(view, k) else {
        return Ok(());
    };
    let Some(function) = class.static_init else {
        return Ok(());
    };
    let floor = machine.heap.len();
    enter(
        view,
        machine,
        Entry {
            function: function as usize,
            given: 0,
            floor,
            me: NOWHERE,
            is_taken: false,
        },
    )
}

// The main instance's `test` is called.
fn call_test(alloc: Global, view: View<'_>, machine: &mut Machine) -> Done {
    let class = view.program.main.wrapping_add(1);
    let name = spelled(alloc, "test")?;
    let Some(function) = view.tables.layout.method_named(class, &name) else {
        return fault(RunFault::NoSuchMethod);
    };
    let floor = machine.heap.len();
    enter(
        view,
        machine,
        Entry {
            function: function as usize,
            given: 0,
            floor,
            me: view.tables.hand,
            is_taken: false,
        },
    )
}

// All static variables are given up together.
fn give_up_statics(view: View<'_>, machine: &mut Machine) -> Done {
    let first = view.tables.first_static;
    let end = view.tables.hand;
    if first > end || end > machine.heap.len() {
        return Err(broken());
    }
    machine.heap.clear(first, end);
    Ok(())
}
