//! Runs a program, and writes its lines as they come.
ghost use Rattle.std.specs.Prelude.{◌≡◌, IsSome, OnErr, OnOk};
ghost use Rattle.gd_outside.specs.Cause.{HasCause};
ghost use Rattle.gd_outside.specs.declared.sink.SinkFault.TheVariants.{Failed};
ghost use Rattle.gd_command.specs.Answer.{Performs, WritesRun};
ghost use Rattle.gd_command.specs.Puts.{Grows};
ghost use Rattle.gd_command.specs.declared.answer.Answer.TheVariants.{Runs};

use crate::print_run::{print_end, print_step};
use crate::run_options::RunOptions;
use crate::status::Status;
use gd_bytecode::Program;
use gd_model::{Outcome, impossible};
use gd_outside::{Sink, SinkFault};
use gd_vm::{Step, Vm};
use std::alloc::Global;

/// How many steps of a machine go by, at most, before it is asked again.
pub const STEPS: u32 = u32::MAX;

/// Runs a program, writing each line as it comes, and answers how the run ended; then `last` is the machine at its end.
///
/// After an `Err` some of the lines are written, and `last` is as it was.
pub fn stream<K: Sink>(
    alloc: Global,
    program: Program,
    options: RunOptions,
    out: &mut K,
    last: &mut Option<Vm>,
) -> Result<Status, SinkFault>
    ensures writes { Performs (K.contents out.old) (Runs program options) (K.contents out.new) result }
    ensures last { OnOk result (IsSome last.new) }
    ensures unchanged { OnErr result (last.new ≡ last.old) }
    ensures cause { HasCause (K.faults out.old) (K.faults out.new) result Failed }
{
    let Ok(mut vm) = Vm::start(alloc, program, options.turns) else {
        return Err(SinkFault::NoMemory);
    };
    match write_run(alloc, &mut vm, options.frees, out) {
        Ok(status) => {
            *last = Some(vm);
            Ok(status)
        }
        Err(fault) => Err(fault),
    }
}

/// Writes what is to be seen of a run and how it ends, and answers its status.
fn write_run<K: Sink>(
    alloc: Global,
    vm: &mut Vm,
    frees: bool,
    out: &mut K,
) -> Result<Status, SinkFault>
    ensures writes { WritesRun (K.contents out.old) (K.contents out.new) result }
    ensures cause { HasCause (K.faults out.old) (K.faults out.new) result Failed }
{
    let outcome = write_steps(alloc, vm, frees, out)?;
    print_end(alloc, vm.program(), &outcome, out)
}

/// Writes what is to be seen of a run, step by step, and answers its end. No run takes as many steps as the loop has
/// turns for: that it ends before is for a later proof to show.
fn write_steps<K: Sink>(
    alloc: Global,
    vm: &mut Vm,
    frees: bool,
    out: &mut K,
) -> Result<Outcome, SinkFault>
    ensures lines { Grows (K.contents out.old) (K.contents out.new) }
    ensures cause { HasCause (K.faults out.old) (K.faults out.new) result Failed }
{
    for _ in 0..u64::MAX {
        match vm.advance(STEPS) {
            Step::Ended(outcome) => return Ok(outcome),
            Step::NoMemory => return Err(SinkFault::NoMemory),
            step => print_step(alloc, vm.program(), frees, &step, out)?,
        }
    }
    Err(SinkFault::from(impossible()))
}
