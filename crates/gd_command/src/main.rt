//! The program `gd`: checks and runs projects of Godot scripts (docs/command-line.md).
#![tactic(auto)]

mod answer;
mod check;
mod compiled;
mod decimal;
mod figures;
mod judge;
mod print;
mod print_run;
mod print_sample;
mod project;
mod report;
mod run;
mod run_options;
mod sample;
mod severity;
mod status;
mod stream;
mod top;
mod words;

use gd_outside::{FolderShelf, StdSink};
use status::Status;
use std::alloc::{AllocError, Global};
use std::env::Env;
use std::io::ErrorKind;
use std::process::ExitCode;

/// How much freed memory the program keeps for itself, in bytes.
const KEPT: usize = 16 * 1024 * 1024;

/// Runs the words of the command line over the current folder and standard output.
fn main(rt: HostRuntime) -> ExitCode {
    let alloc = rt.alloc();
    keep_freed_memory(alloc);
    let words = match words_after_name(&rt, alloc) {
        Ok(words) => words,
        Err(_) => return ExitCode::from(Status::NoMemory as u8),
    };
    let mut out = StdSink::new(alloc, rt.stdout());
    let mut shelf = FolderShelf::new(rt);
    let mut last = None;
    let status = top::gd(alloc, &words, &mut shelf, &mut out, &mut last);
    let status = match out.flush() {
        Ok(()) => status,
        Err(_) => Status::WriteFault,
    };
    ExitCode::from(status as u8)
}

/// Has the C library keep the memory of a script's tokens and tree for the next script.
///
/// It gives memory back to the system, page by page, past a limit that it raises to the size of the
/// largest block that it got back. The block is not written, and so costs no memory.
fn keep_freed_memory(alloc: Global) {
    let block: Result<Vec<u8>, AllocError> = Vec::with_capacity(alloc, KEPT);
    drop(block);
}

/// The words after the program's name; one empty word where they are not all UTF-8, which is no command.
fn words_after_name(
    rt: &(impl Env + AllocGlobal),
    alloc: Global,
) -> Result<Vec<String>, AllocError> {
    let mut words = Vec::new(alloc);
    match std::env::args(rt) {
        Ok(args) => {
            for word in args.skip(1) {
                words.push(word)?;
            }
        }
        Err(error) if error.kind() == ErrorKind::OutOfMemory => return Err(AllocError),
        Err(_) => words.push(String::new(alloc))?,
    }
    Ok(words)
}
