//! Does what was decided: writes it to the sink, or runs it.
ghost use Rattle.std.specs.Prelude.{◌≡◌, ◌<◌, codes, decimal, ◌++◌, [], ◌∷◌, All, IfOk, OnErr, OnOk, length};
ghost use Rattle.std.specs.List.{flat_map};
ghost use Rattle.gd_outside.specs.Cause.{HasCause};
ghost use Rattle.gd_outside.specs.declared.sink.SinkFault.TheVariants.{Failed};
ghost use Rattle.gd_command.specs.Puts.{Puts};
ghost use Rattle.gd_command.specs.Answer.{IsLeft, Performs};
ghost use Rattle.gd_command.specs.Output.{long_function_line};
ghost use Rattle.gd_command.specs.Report as spec;
ghost use Rattle.gd_command.specs.Report.{diag_line, mark_line, path_at, report_status, report_text, severity_of, severity_word};
ghost use Rattle.gd_rules.specs.Rule.{rule_code, rule_text};

use crate::answer::Answer;
use crate::print_sample::print_sample;
use crate::report::Report;
use crate::severity::{Severity, has_error};
use crate::status::Status;
use crate::stream::stream;
use gd_outside::{Path, Sink, SinkFault};
use gd_rules::{Diag, Mark, Rule};
use gd_syntax::Pos;
use gd_vm::Vm;
use itoa::Buffer;
use std::alloc::Global;

const USAGE: &[u8] =
    b"usage: gd check [--warn] [--marks] / run MAIN [--turns N] [--frees] / build MAIN / exec IMAGE [--turns N] [--frees] / sample N / migrate IMAGE / fmt FILE / refs FILE LINE COLUMN / rename FILE LINE COLUMN NAME / suite [--turns N]\n";

/// Writes the text of an answer, or runs the program that it has, and answers how the call ended. Then `last` is the
/// machine of a run at its end, and as it was where nothing ran.
///
/// After an `Err` a prefix of the text is written, and `last` is as it was.
pub fn perform<K: Sink>(
    alloc: Global,
    answer: Answer,
    out: &mut K,
    last: &mut Option<Vm>,
) -> Result<Status, SinkFault>
    ensures writes { Performs (K.contents out.old) answer (K.contents out.new) result }
    ensures left { OnOk result (IsLeft answer last.old last.new) }
    ensures unchanged { OnErr result (last.new ≡ last.old) }
    ensures cause { HasCause (K.faults out.old) (K.faults out.new) result Failed }
{
    match answer {
        Answer::Usage => say(USAGE, Status::Usage, out),
        Answer::ListFault => say(b"read fault: list\n", Status::ReadFault, out),
        Answer::ReadFault(path) => say_of(b"read fault: ", &path, Status::ReadFault, out),
        Answer::TooManyFiles => say(b"too large: files\n", Status::TooLarge, out),
        Answer::LongFile(path) => say_of(b"too large: file ", &path, Status::TooLarge, out),
        Answer::LongProject => say(b"too large: project\n", Status::TooLarge, out),
        Answer::Checked(report) => print_report(&report, out),
        Answer::NoMain(path) => say_of(b"no main: ", &path, Status::NoMain, out),
        Answer::LongFunction(path, pos) => say_long_function(&path, pos, out),
        Answer::Runs(program, options) => stream(alloc, program, options, out, last),
        Answer::Samples(sample) => print_sample(alloc, sample, out, last),
    }
}

/// Writes a text, and answers this status.
pub fn say<K: Sink>(text: &[u8], status: Status, out: &mut K) -> Result<Status, SinkFault>
    ensures puts { Puts (K.contents out.old) text.now (K.contents out.new) result }
    ensures status { IfOk result (λ answered. answered ≡ status) }
    ensures cause { HasCause (K.faults out.old) (K.faults out.new) result Failed }
{
    put(text, out)?;
    Ok(status)
}

/// Writes a text and a path, which end the line, and answers this status.
fn say_of<K: Sink>(
    text: &[u8],
    path: &Path,
    status: Status,
    out: &mut K,
) -> Result<Status, SinkFault>
    ensures puts { Puts (K.contents out.old) (text.now ++ (path.now ++ (10 ∷ []))) (K.contents out.new) result }
    ensures status { IfOk result (λ answered. answered ≡ status) }
    ensures cause { HasCause (K.faults out.old) (K.faults out.new) result Failed }
{
    put(text, out)?;
    put_path(path, out)?;
    say(b"\n", status, out)
}

/// Writes that the function or class with its name at this place is too long.
fn say_long_function<K: Sink>(path: &Path, pos: Pos, out: &mut K) -> Result<Status, SinkFault>
    ensures puts { Puts (K.contents out.old) (long_function_line path.now pos) (K.contents out.new) result }
    ensures status { IfOk result (λ answered. answered ≡ Status.TooLarge) }
    ensures cause { HasCause (K.faults out.old) (K.faults out.new) result Failed }
{
    put(b"too large: function ", out)?;
    put_path(path, out)?;
    print_number(pos.line, out)?;
    print_number(pos.column, out)?;
    say(b"\n", Status::TooLarge, out)
}

/// Writes a path.
fn put_path<K: Sink>(path: &Path, out: &mut K) -> Result<(), SinkFault>
    ensures puts { Puts (K.contents out.old) path.now (K.contents out.new) result }
    ensures cause { HasCause (K.faults out.old) (K.faults out.new) result Failed }
{
    put(path.bytes(), out)
}

/// Writes what a check found, and answers the status that it gives.
fn print_report<K: Sink>(report: &Report, out: &mut K) -> Result<Status, SinkFault>
    ensures puts { Puts (K.contents out.old) (report_text report.now) (K.contents out.new) result }
    ensures status { IfOk result (λ status. status ≡ report_status report.now.diags) }
    ensures cause { HasCause (K.faults out.old) (K.faults out.new) result Failed }
{
    print_found(report.paths(), report.diags(), report.marks(), out)
}

/// Writes the lines of what was found in the scripts with these paths, and answers the status that it gives.
fn print_found<K: Sink>(
    paths: &[Path],
    diags: &[Diag],
    marks: &[Mark],
    out: &mut K,
) -> Result<Status, SinkFault>
    requires diags_within { All (λ diag. diag.pos.file < length paths.now) diags.now }
    requires marks_within { All (λ mark. mark.pos.file < length paths.now) marks.now }
    ensures puts { Puts (K.contents out.old) (flat_map (diag_line paths.now) diags.now ++ flat_map (mark_line paths.now) marks.now) (K.contents out.new) result }
    ensures status { IfOk result (λ status. status ≡ report_status diags.now) }
    ensures cause { HasCause (K.faults out.old) (K.faults out.new) result Failed }
{
    print_diags(paths, diags, out)?;
    print_marks(paths, marks, out)?;
    Ok(status_of(diags))
}

/// The status of a check that found these.
fn status_of(diags: &[Diag]) -> Status
    ensures { result ≡ report_status diags.now }
{
    if has_error(diags) {
        Status::Faulty
    } else {
        Status::Done
    }
}

/// Writes the lines of marks in the scripts with these paths.
fn print_marks<K: Sink>(paths: &[Path], marks: &[Mark], out: &mut K) -> Result<(), SinkFault>
    requires { All (λ mark. mark.pos.file < length paths.now) marks.now }
    ensures puts { Puts (K.contents out.old) (flat_map (mark_line paths.now) marks.now) (K.contents out.new) result }
    ensures cause { HasCause (K.faults out.old) (K.faults out.new) result Failed }
{
    for mark in marks {
        print_mark(paths, mark, out)?;
    }
    Ok(())
}

/// Writes the line of a mark.
fn print_mark<K: Sink>(paths: &[Path], mark: &Mark, out: &mut K) -> Result<(), SinkFault>
    requires { mark.now.pos.file < length paths.now }
    ensures puts { Puts (K.contents out.old) (mark_line paths.now mark.now) (K.contents out.new) result }
    ensures cause { HasCause (K.faults out.old) (K.faults out.new) result Failed }
{
    let Mark { pos } = *mark;
    print_path(paths, pos.file, out)?;
    print_number(pos.line, out)?;
    print_number(pos.column, out)?;
    put(b": mark\n", out)
}

/// Writes the lines of diagnostics in the scripts with these paths.
fn print_diags<K: Sink>(paths: &[Path], diags: &[Diag], out: &mut K) -> Result<(), SinkFault>
    requires { All (λ diag. diag.pos.file < length paths.now) diags.now }
    ensures puts { Puts (K.contents out.old) (flat_map (diag_line paths.now) diags.now) (K.contents out.new) result }
    ensures cause { HasCause (K.faults out.old) (K.faults out.new) result Failed }
{
    for diag in diags {
        print_diag(paths, diag, out)?;
    }
    Ok(())
}

/// Writes the line of a diagnostic.
fn print_diag<K: Sink>(paths: &[Path], diag: &Diag, out: &mut K) -> Result<(), SinkFault>
    requires { diag.now.pos.file < length paths.now }
    ensures puts { Puts (K.contents out.old) (diag_line paths.now diag.now) (K.contents out.new) result }
    ensures cause { HasCause (K.faults out.old) (K.faults out.new) result Failed }
{
    let Diag { pos, rule } = *diag;
    print_path(paths, pos.file, out)?;
    print_number(pos.line, out)?;
    print_number(pos.column, out)?;
    print_rule(rule, out)
}

/// Writes the path of the file with this number.
fn print_path<K: Sink>(paths: &[Path], file: u32, out: &mut K) -> Result<(), SinkFault>
    requires { file < length paths.now }
    ensures puts { Puts (K.contents out.old) (path_at paths.now file) (K.contents out.new) result }
    ensures cause { HasCause (K.faults out.old) (K.faults out.new) result Failed }
{
    put(paths[file as usize].bytes(), out)
}

/// Writes a colon and a number.
pub fn print_number<K: Sink>(number: u32, out: &mut K) -> Result<(), SinkFault>
    ensures puts { Puts (K.contents out.old) (58 ∷ decimal number) (K.contents out.new) result }
    ensures cause { HasCause (K.faults out.old) (K.faults out.new) result Failed }
{
    put(b":", out)?;
    print_decimal(number, out)
}

/// Writes a number.
fn print_decimal<K: Sink>(number: u32, out: &mut K) -> Result<(), SinkFault>
    ensures puts { Puts (K.contents out.old) (decimal number) (K.contents out.new) result }
    ensures cause { HasCause (K.faults out.old) (K.faults out.new) result Failed }
{
    let mut buffer = Buffer::new();
    put(buffer.format(number).as_bytes(), out)
}

/// Writes what stands in a line after the place.
fn print_rule<K: Sink>(rule: Rule, out: &mut K) -> Result<(), SinkFault>
    ensures puts { Puts (K.contents out.old) (codes ": " ++ (severity_word (severity_of rule) ++ (32 ∷ rule_code rule ++ (codes ": " ++ (rule_text rule ++ (10 ∷ [])))))) (K.contents out.new) result }
    ensures cause { HasCause (K.faults out.old) (K.faults out.new) result Failed }
{
    put(b": ", out)?;
    print_severity(rule, out)?;
    print_code(rule, out)?;
    put(b": ", out)?;
    print_text(rule, out)
}

/// Writes the weight of a rule.
fn print_severity<K: Sink>(rule: Rule, out: &mut K) -> Result<(), SinkFault>
    ensures puts { Puts (K.contents out.old) (severity_word (severity_of rule)) (K.contents out.new) result }
    ensures cause { HasCause (K.faults out.old) (K.faults out.new) result Failed }
{
    put(Severity::of(rule).word().as_bytes(), out)
}

/// Writes a blank and the code of a rule.
fn print_code<K: Sink>(rule: Rule, out: &mut K) -> Result<(), SinkFault>
    ensures puts { Puts (K.contents out.old) (32 ∷ rule_code rule) (K.contents out.new) result }
    ensures cause { HasCause (K.faults out.old) (K.faults out.new) result Failed }
{
    put(b" ", out)?;
    put_code(rule, out)
}

/// Writes the code of a rule.
fn put_code<K: Sink>(rule: Rule, out: &mut K) -> Result<(), SinkFault>
    ensures puts { Puts (K.contents out.old) (rule_code rule) (K.contents out.new) result }
    ensures cause { HasCause (K.faults out.old) (K.faults out.new) result Failed }
{
    put(rule.code().as_bytes(), out)
}

/// Writes the text of a rule, and ends the line.
fn print_text<K: Sink>(rule: Rule, out: &mut K) -> Result<(), SinkFault>
    ensures puts { Puts (K.contents out.old) (rule_text rule ++ (10 ∷ [])) (K.contents out.new) result }
    ensures cause { HasCause (K.faults out.old) (K.faults out.new) result Failed }
{
    print_line(rule.text().as_bytes(), out)
}

/// Writes a piece.
pub fn put<K: Sink>(piece: &[u8], out: &mut K) -> Result<(), SinkFault>
    ensures puts { Puts (K.contents out.old) piece.now (K.contents out.new) result }
    ensures cause { HasCause (K.faults out.old) (K.faults out.new) result Failed }
{
    match out.put(piece) {
        Ok(()) => Ok(()),
        Err(fault) => Err(fault),
    }
}

/// Writes a line.
pub fn print_line<K: Sink>(text: &[u8], out: &mut K) -> Result<(), SinkFault>
    ensures puts { Puts (K.contents out.old) (text.now ++ (10 ∷ [])) (K.contents out.new) result }
    ensures cause { HasCause (K.faults out.old) (K.faults out.new) result Failed }
{
    put(text, out)?;
    put(b"\n", out)
}
