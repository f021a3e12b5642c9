//! Runs the sample, and writes its figures.
ghost use Rattle.std.specs.Prelude.{◌≡◌, IsSome, OnErr, OnOk};
ghost use Rattle.gd_command.specs.Answer.{Performs};
ghost use Rattle.gd_command.specs.Puts.{Grows};
ghost use Rattle.gd_command.specs.declared.answer.Answer.TheVariants.{Samples};
ghost use Rattle.gd_outside.specs.Cause.{HasCause};
ghost use Rattle.gd_outside.specs.declared.sink.SinkFault.TheVariants.{Failed};

use crate::figures::{Figures, figures_of};
use crate::print::{print_line, put};
use crate::print_run::print_text_line;
use crate::run_options::RunOptions;
use crate::sample::Sample;
use crate::status::Status;
use gd_bytecode::Program;
use gd_outside::{Sink, SinkFault};
use gd_syntax::Text;
use gd_vm::Vm;
use itoa::Buffer;
use no_memory::NoMemory;
use std::alloc::Global;

/// Runs the sample, and writes its figures; then `last` is the machine at the end of its run.
///
/// After an `Err` the beginning of the figures is written, and `last` is as it was.
pub fn print_sample<K: Sink>(
    alloc: Global,
    sample: Sample,
    out: &mut K,
    last: &mut Option<Vm>,
) -> Result<Status, SinkFault>
    ensures writes { Performs (K.contents out.old) (Samples sample) (K.contents out.new) result }
    ensures last { OnOk result (IsSome last.new) }
    ensures unchanged { OnErr result (last.new ≡ last.old) }
    ensures cause { HasCause (K.faults out.old) (K.faults out.new) result Failed }
{
    let Sample {
        count,
        bytes,
        program,
    } = sample;
    let Ok((figures, vm)) = run_sample(alloc, program) else {
        return Err(SinkFault::NoMemory);
    };
    match print_all(alloc, count, bytes, &figures, out) {
        Ok(()) => {
            *last = Some(vm);
            Ok(Status::Done)
        }
        Err(fault) => Err(fault),
    }
}

/// Runs the program of a sample, and counts; the machine is at the end of the run.
fn run_sample(alloc: Global, program: Program) -> Result<(Figures, Vm), NoMemory> {
    let mut vm = Vm::start(alloc, program, RunOptions::usual().turns)?;
    match figures_of(&mut vm) {
        Ok(figures) => Ok((figures, vm)),
        Err(NoMemory) => Err(NoMemory),
    }
}

/// Writes all figures of a sample of so many classes and bytes.
fn print_all<K: Sink>(
    alloc: Global,
    count: u32,
    bytes: u64,
    figures: &Figures,
    out: &mut K,
) -> Result<(), SinkFault>
    ensures lines { Grows (K.contents out.old) (K.contents out.new) }
    ensures cause { HasCause (K.faults out.old) (K.faults out.new) result Failed }
{
    print_project(count, bytes, out)?;
    print_figures(alloc, figures, out)
}

/// Writes what was counted of the project.
fn print_project<K: Sink>(count: u32, bytes: u64, out: &mut K) -> Result<(), SinkFault>
    ensures lines { Grows (K.contents out.old) (K.contents out.new) }
    ensures cause { HasCause (K.faults out.old) (K.faults out.new) result Failed }
{
    print_figure(b"files ", u64::from(count).saturating_add(1), out)?;
    print_figure(b"bytes ", bytes, out)?;
    print_figure(b"errors ", 0, out)
}

/// Writes what was counted of the run.
fn print_figures<K: Sink>(alloc: Global, figures: &Figures, out: &mut K) -> Result<(), SinkFault>
    ensures lines { Grows (K.contents out.old) (K.contents out.new) }
    ensures cause { HasCause (K.faults out.old) (K.faults out.new) result Failed }
{
    print_figure(b"lines ", figures.lines, out)?;
    print_figure(b"freed ", figures.freed, out)?;
    put(b"last ", out)?;
    print_last(alloc, &figures.last, out)
}

/// Writes the last line, if there is one.
fn print_last<K: Sink>(alloc: Global, last: &Option<Text>, out: &mut K) -> Result<(), SinkFault>
    ensures lines { Grows (K.contents out.old) (K.contents out.new) }
    ensures cause { HasCause (K.faults out.old) (K.faults out.new) result Failed }
{
    match last {
        Some(line) => print_text_line(alloc, line, out),
        None => put(b"\n", out),
    }
}

/// Writes a figure behind its name.
fn print_figure<K: Sink>(name: &[u8], figure: u64, out: &mut K) -> Result<(), SinkFault>
    ensures lines { Grows (K.contents out.old) (K.contents out.new) }
    ensures cause { HasCause (K.faults out.old) (K.faults out.new) result Failed }
{
    put(name, out)?;
    let mut buffer = Buffer::new();
    print_line(buffer.format(figure).as_bytes(), out)
}
