//! The lines of a run: what it prints, which objects go, and how it ends.
ghost use Rattle.std.specs.Prelude.{◌≡◌, ◌++◌, ◌∷◌, [], IfOk, codes, encode_utf8_all};
ghost use Rattle.gd_model.specs.Fault.{fault_code, fault_text};
ghost use Rattle.gd_outside.specs.Cause.{HasCause};
ghost use Rattle.gd_outside.specs.declared.sink.SinkFault.TheVariants.{Failed};
ghost use Rattle.gd_command.specs.Ends.{PutsFault, PutsPlace, WritesEnd, fault_part, message_part, place_part};
ghost use Rattle.gd_command.specs.Puts.{Grows, Puts};

use crate::print::{print_line, print_number, put, say};
use crate::status::Status;
use gd_bytecode::Program;
use gd_model::{Outcome, RunFault, impossible};
use gd_outside::{Sink, SinkFault};
use gd_syntax::{Pos, Text};
use gd_vm::Step;
use itoa::Buffer;
use std::alloc::Global;

/// Writes what is to be seen of a step; the objects that go only where `frees` asks for them.
pub fn print_step<K: Sink>(
    alloc: Global,
    program: &Program,
    frees: bool,
    step: &Step,
    out: &mut K,
) -> Result<(), SinkFault>
    ensures lines { Grows (K.contents out.old) (K.contents out.new) }
    ensures cause { HasCause (K.faults out.old) (K.faults out.new) result Failed }
{
    match step {
        Step::Line(text) => print_text_line(alloc, text, out),
        Step::Freed(serial, class) if frees => {
            print_gone(b"freed ", alloc, program, *serial, *class, out)
        }
        Step::Leaked(serial, class) if frees => {
            print_gone(b"leaked ", alloc, program, *serial, *class, out)
        }
        _ => Ok(()),
    }
}

/// Writes how a run ended, where there is a line for it, and answers its status.
pub fn print_end<K: Sink>(
    alloc: Global,
    program: &Program,
    outcome: &Outcome,
    out: &mut K,
) -> Result<Status, SinkFault>
    ensures writes { WritesEnd (K.contents out.old) outcome.now (K.contents out.new) result }
    ensures cause { HasCause (K.faults out.old) (K.faults out.new) result Failed }
{
    match outcome {
        Outcome::Done => Ok(Status::Done),
        Outcome::OutOfTurns => say(b"out of turns\n", Status::OutOfTurns, out),
        Outcome::Fault(fault, pos, message) => {
            print_fault_line(alloc, program, *pos, *fault, message, out)
        }
    }
}

/// Writes the line of a fault.
fn print_fault_line<K: Sink>(
    alloc: Global,
    program: &Program,
    pos: Pos,
    fault: RunFault,
    message: &Option<Text>,
    out: &mut K,
) -> Result<Status, SinkFault>
    ensures puts { PutsFault (K.contents out.old) fault pos message.now (K.contents out.new) result }
    ensures status { IfOk result (λ status. status ≡ Status.RunError) }
    ensures cause { HasCause (K.faults out.old) (K.faults out.new) result Failed }
{
    print_place(alloc, program, pos, out)?;
    print_fault(alloc, fault, message, out)?;
    Ok(Status::RunError)
}

/// Writes the place of a fault. That its file is one of the program's is for a later proof to show.
fn print_place<K: Sink>(
    alloc: Global,
    program: &Program,
    pos: Pos,
    out: &mut K,
) -> Result<(), SinkFault>
    ensures puts { PutsPlace (K.contents out.old) pos (K.contents out.new) result }
    ensures cause { HasCause (K.faults out.old) (K.faults out.new) result Failed }
{
    let Some(path) = program.paths.items().get(pos.file as usize) else {
        return Err(SinkFault::from(impossible()));
    };
    print_path_place(alloc, path, pos, out)
}

/// Writes a place in the script with this path.
fn print_path_place<K: Sink>(
    alloc: Global,
    path: &Text,
    pos: Pos,
    out: &mut K,
) -> Result<(), SinkFault>
    ensures puts { Puts (K.contents out.old) (place_part (encode_utf8_all path.now) pos) (K.contents out.new) result }
    ensures cause { HasCause (K.faults out.old) (K.faults out.new) result Failed }
{
    print_text(alloc, path, out)?;
    print_number(pos.line, out)?;
    print_number(pos.column, out)
}

/// Writes a fault behind its place, with the message of an assertion that has one.
fn print_fault<K: Sink>(
    alloc: Global,
    fault: RunFault,
    message: &Option<Text>,
    out: &mut K,
) -> Result<(), SinkFault>
    ensures puts { Puts (K.contents out.old) (fault_part fault message.now) (K.contents out.new) result }
    ensures cause { HasCause (K.faults out.old) (K.faults out.new) result Failed }
{
    put(b": error ", out)?;
    put_code(fault, out)?;
    put(b": ", out)?;
    put_text(fault, out)?;
    print_message(alloc, message, out)
}

/// Writes the code of a fault.
fn put_code<K: Sink>(fault: RunFault, out: &mut K) -> Result<(), SinkFault>
    ensures puts { Puts (K.contents out.old) (fault_code fault) (K.contents out.new) result }
    ensures cause { HasCause (K.faults out.old) (K.faults out.new) result Failed }
{
    put(fault.code().as_bytes(), out)
}

/// Writes the text of a fault.
fn put_text<K: Sink>(fault: RunFault, out: &mut K) -> Result<(), SinkFault>
    ensures puts { Puts (K.contents out.old) (fault_text fault) (K.contents out.new) result }
    ensures cause { HasCause (K.faults out.old) (K.faults out.new) result Failed }
{
    put(fault.text().as_bytes(), out)
}

/// Writes the message of an assertion, if there is one, and ends the line.
fn print_message<K: Sink>(
    alloc: Global,
    message: &Option<Text>,
    out: &mut K,
) -> Result<(), SinkFault>
    ensures puts { Puts (K.contents out.old) (message_part message.now) (K.contents out.new) result }
    ensures cause { HasCause (K.faults out.old) (K.faults out.new) result Failed }
{
    match message {
        None => put(b"\n", out),
        Some(text) => print_said(alloc, text, out),
    }
}

/// Writes what an assertion says, and ends the line.
fn print_said<K: Sink>(alloc: Global, text: &Text, out: &mut K) -> Result<(), SinkFault>
    ensures puts { Puts (K.contents out.old) (codes ": " ++ (encode_utf8_all text.now ++ (10 ∷ []))) (K.contents out.new) result }
    ensures cause { HasCause (K.faults out.old) (K.faults out.new) result Failed }
{
    put(b": ", out)?;
    print_text_line(alloc, text, out)
}

/// Writes what is to be told of an object, and its name.
fn print_gone<K: Sink>(
    told: &[u8],
    alloc: Global,
    program: &Program,
    serial: u64,
    class: u32,
    out: &mut K,
) -> Result<(), SinkFault>
    ensures lines { Grows (K.contents out.old) (K.contents out.new) }
    ensures cause { HasCause (K.faults out.old) (K.faults out.new) result Failed }
{
    put(told, out)?;
    print_object(alloc, program, serial, class, out)
}

/// Writes the name of an object, which ends the line.
fn print_object<K: Sink>(
    alloc: Global,
    program: &Program,
    serial: u64,
    class: u32,
    out: &mut K,
) -> Result<(), SinkFault>
    ensures lines { Grows (K.contents out.old) (K.contents out.new) }
    ensures cause { HasCause (K.faults out.old) (K.faults out.new) result Failed }
{
    print_class(alloc, program, class, out)?;
    print_serial(serial, out)
}

/// Writes the number of an object, which ends the line.
fn print_serial<K: Sink>(serial: u64, out: &mut K) -> Result<(), SinkFault>
    ensures lines { Grows (K.contents out.old) (K.contents out.new) }
    ensures cause { HasCause (K.faults out.old) (K.faults out.new) result Failed }
{
    put(b"#", out)?;
    let mut buffer = Buffer::new();
    print_line(buffer.format(serial).as_bytes(), out)
}

/// Writes the name of a class. That the program has the class is for a later proof to show.
fn print_class<K: Sink>(
    alloc: Global,
    program: &Program,
    class: u32,
    out: &mut K,
) -> Result<(), SinkFault>
    ensures lines { Grows (K.contents out.old) (K.contents out.new) }
    ensures cause { HasCause (K.faults out.old) (K.faults out.new) result Failed }
{
    let Some(place) = class.checked_sub(1) else {
        return put(b"RefCounted", out);
    };
    match class_name(program, place) {
        Some(name) => print_text(alloc, name, out),
        None => Err(SinkFault::from(impossible())),
    }
}

/// The name of the class at this place.
fn class_name(program: &Program, place: u32) -> Option<&Text> {
    let class = program.classes.items().get(place as usize)?;
    program.texts.items().get(class.name as usize)
}

/// Writes a text.
fn print_text<K: Sink>(alloc: Global, text: &Text, out: &mut K) -> Result<(), SinkFault>
    ensures puts { Puts (K.contents out.old) (encode_utf8_all text.now) (K.contents out.new) result }
    ensures cause { HasCause (K.faults out.old) (K.faults out.new) result Failed }
{
    match text.to_utf8(alloc) {
        Ok(bytes) => put(&bytes, out),
        Err(_) => Err(SinkFault::NoMemory),
    }
}

/// Writes a text, which ends the line.
pub fn print_text_line<K: Sink>(alloc: Global, text: &Text, out: &mut K) -> Result<(), SinkFault>
    ensures puts { Puts (K.contents out.old) (encode_utf8_all text.now ++ (10 ∷ [])) (K.contents out.new) result }
    ensures cause { HasCause (K.faults out.old) (K.faults out.new) result Failed }
{
    print_text(alloc, text, out)?;
    put(b"\n", out)
}
