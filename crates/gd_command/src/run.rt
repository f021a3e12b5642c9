//! `run MAIN`: reads the scripts of the project, and has them compiled.
ghost use Rattle.std.specs.Prelude.{◌≡◌, ◌≢◌, ◌≤◌, All, IfOk, IfSome, length};
ghost use Rattle.gd_outside.specs.Cause.{Rose};
ghost use Rattle.gd_command.specs.Output.{RunOutput, scripts};
ghost use Rattle.gd_command.specs.Call.{IsReached};
ghost use Rattle.gd_command.specs.Check.{IsShortSource, bytes_of};
ghost use Rattle.gd_command.specs.Compiled.{IsRunAnswer};
ghost use Rattle.gd_command.specs.Answer.{IsAnswer, IsFaultOf};
ghost use Rattle.gd_command.specs.declared.answer.Answer.TheVariants.{Usage};

use crate::answer::Answer;
use crate::check::{MAX_FILES, Unread, read_scripts};
use crate::compiled::{Compiled, compile_sources};
use crate::project::keep_scripts;
use crate::run_options::RunOptions;
use gd_outside::{Path, Shelf, ShelfFault};
use no_memory::NoMemory;
use std::alloc::Global;

/// What `run` of the script with this path answers.
pub fn run<H: Shelf>(
    alloc: Global,
    main: Path,
    options: RunOptions,
    shelf: &mut H,
) -> Result<Answer, NoMemory>
    ensures told { IfSome (H.files shelf.old) (λ files. IfOk result (IsAnswer (RunOutput (scripts files) main) (IsReached (scripts files)) files (H.failed shelf.new))) }
    ensures no_usage { IfOk result (λ answer. answer ≢ Usage) }
    ensures faults { H.faults shelf.old ≤ H.faults shelf.new }
    ensures cause { IfOk result (λ answer. IsFaultOf answer → Rose (H.faults shelf.old) (H.faults shelf.new)) }
{
    let mut paths = match shelf.list(alloc) {
        Ok(paths) => paths,
        Err(ShelfFault::Failed) => return Ok(Answer::ListFault),
        Err(ShelfFault::NoMemory) => return Err(NoMemory),
    };
    keep_scripts(&mut paths);
    if paths.len() > MAX_FILES {
        return Ok(Answer::TooManyFiles);
    }
    match read_scripts(alloc, &paths, shelf) {
        Ok(sources) => run_sources(alloc, paths, &sources, main, options),
        Err(Unread::Failed(path)) => Ok(Answer::ReadFault(path)),
        Err(Unread::LongFile(path)) => Ok(Answer::LongFile(path)),
        Err(Unread::LongProject) => Ok(Answer::LongProject),
        Err(Unread::NoMemory) => Err(NoMemory),
    }
}

/// What a run of the scripts with these paths and bytes answers.
fn run_sources(
    alloc: Global,
    paths: Vec<Path>,
    sources: &[Vec<u8>],
    main: Path,
    options: RunOptions,
) -> Result<Answer, NoMemory>
    requires few { length sources.now ≤ 1024 }
    requires short { All IsShortSource sources.now }
    requires count { length sources.now ≡ length paths.items }
    ensures { IfOk result (IsRunAnswer paths.items (bytes_of sources.now) main) }
{
    Ok(match compile_sources(alloc, paths, sources, &main)? {
        Compiled::Program(program) => Answer::Runs(program, options),
        Compiled::Faulty(report) => Answer::Checked(report),
        Compiled::NoMain => Answer::NoMain(main),
        Compiled::LongFunction(path, pos) => Answer::LongFunction(path, pos),
    })
}
