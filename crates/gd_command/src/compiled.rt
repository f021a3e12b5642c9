//! From the bytes of scripts to a program, or to why there is none.
ghost use Rattle.std.specs.Prelude.{◌≡◌, ◌≤◌, All, IfOk, length};
ghost use Rattle.gd_command.specs.Check.{IsShortSource, bytes_of};
ghost use Rattle.gd_command.specs.Compiled.{HasNoErrors, IsCompiled, IsCompiledTree};

use crate::judge::{Readings, read_all, report_of, with_paths};
use crate::report::Report;
use crate::words::CheckOptions;
use gd_bytecode::Program;
use gd_check::{Accepted, Refused, accept};
use gd_codegen::{CodeFault, compile};
use gd_infer::infer;
use gd_model::impossible;
use gd_outside::Path;
use gd_rules::Diag;
use gd_syntax::{Pos, Script};
use no_memory::NoMemory;
use script_table::build;
use std::alloc::Global;

/// What comes of compiling the scripts of a project.
#[derive(Drop)]
pub enum Compiled {
    Program(Program),
    /// Errors were found.
    Faulty(Report),
    /// The main script cannot be run.
    NoMain,
    /// A function, or the initial values of a class, have too many tokens: it stands in the script with this path, at
    /// this place.
    LongFunction(Path, Pos),
}

/// Where a run looks for errors, and for nothing else.
const ERRORS: CheckOptions = CheckOptions {
    warn: false,
    marks: false,
};

/// Compiles the scripts with these paths and bytes, of which this one is the main script.
pub fn compile_sources(
    alloc: Global,
    paths: Vec<Path>,
    sources: &[Vec<u8>],
    main: &Path,
) -> Result<Compiled, NoMemory>
    requires few { length sources.now ≤ 1024 }
    requires short { All IsShortSource sources.now }
    requires count { length sources.now ≡ length paths.items }
    ensures { IfOk result (IsCompiled paths.items (bytes_of sources.now)) }
{
    let Readings { trees, faults } = read_all(alloc, sources)?;
    if !faults.is_empty() {
        return Ok(Compiled::Faulty(Report::new(paths, faults, Vec::new(alloc))));
    }
    compile_trees(alloc, paths, trees, main)
}

/// Compiles the scripts with these paths and trees.
fn compile_trees(
    alloc: Global,
    paths: Vec<Path>,
    trees: Vec<Script>,
    main: &Path,
) -> Result<Compiled, NoMemory>
    requires few { length paths.items ≤ 1024 }
    requires count { length trees.items ≡ length paths.items }
    ensures { IfOk result (IsCompiledTree paths.items) }
{
    let scripts = with_paths(alloc, &paths, trees)?;
    let typed = infer(alloc, build(alloc, scripts)?)?;
    match accept(alloc, typed) {
        Ok(accepted) => compile_accepted(alloc, &paths, &accepted, main),
        Err(Refused::Faults(faults)) => faulty(alloc, paths, faults.items()),
        Err(Refused::NoMemory) => Err(NoMemory),
    }
}

/// The answer for a project with these errors. That there is one is for a later proof to show.
fn faulty(alloc: Global, paths: Vec<Path>, faults: &[Diag]) -> Result<Compiled, NoMemory>
    ensures { IfOk result (IsCompiledTree paths.items) }
{
    if faults.is_empty() {
        return Err(NoMemory::from(impossible()));
    }
    let report = report_of(ERRORS, paths, faults.to_vec(alloc)?, Vec::new(alloc))?;
    Ok(Compiled::Faulty(report))
}

/// Compiles an accepted project of scripts with these paths.
fn compile_accepted(
    alloc: Global,
    paths: &[Path],
    accepted: &Accepted,
    main: &Path,
) -> Result<Compiled, NoMemory>
    ensures { IfOk result HasNoErrors }
{
    match compile(alloc, accepted, main) {
        Ok(program) => Ok(Compiled::Program(program)),
        Err(CodeFault::NoMain) => Ok(Compiled::NoMain),
        Err(CodeFault::FunctionTooLong(pos)) => long_function(paths, pos),
        Err(CodeFault::NoMemory) => Err(NoMemory),
    }
}

/// The answer where the function or class with its name at this place is too long. That the place is in one of the
/// scripts is for a later proof to show.
fn long_function(paths: &[Path], pos: Pos) -> Result<Compiled, NoMemory>
    ensures { IfOk result HasNoErrors }
{
    match paths.get(pos.file as usize) {
        Some(path) => Ok(Compiled::LongFunction(path.clone()?, pos)),
        None => Err(NoMemory::from(impossible())),
    }
}
