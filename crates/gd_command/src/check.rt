//! `check`: reads the scripts of the project, and has them judged.
ghost use Rattle.std.specs.Prelude.{◌≡◌, ◌≢◌, ◌≤◌, ◌<◌, ◌+◌, ◌++◌, ◌∷◌, [], ℕ, List, All, IfOk, IfErr, IfSome, Some, OnOk, MatchResult, length};
ghost use Rattle.gd_outside.specs.Cause.{Rose};
ghost use Rattle.gd_outside.specs.Files.{File, bytes_at, paths_of};
ghost use Rattle.gd_command.specs.Output.{CheckOutput, scripts as scripts_of};
ghost use Rattle.gd_command.specs.Answer.{IsAnswer, IsFaultOf};
ghost use Rattle.gd_command.specs.Call.{IsReached};
ghost use Rattle.gd_command.specs.Check.{AreAt, AreRead, Hinders, IsFailed, IsShortSource, Stops, bytes_of};
ghost use Rattle.gd_command.specs.declared.answer.Answer.{Answer};
ghost use Rattle.gd_command.specs.declared.answer.Answer.TheVariants.{Usage};
ghost use Rattle.gd_command.specs.declared.check.Unread.TheVariants.{NoMemory as UnreadNoMemory};

use crate::answer::Answer;
use crate::judge::judge;
use crate::project::{MAX_SOURCE, keep_scripts};
use crate::words::CheckOptions;
use gd_outside::{Path, Shelf, ShelfFault};
use no_memory::NoMemory;
use std::alloc::{AllocError, AllocFailed, Global};

/// The most scripts that a project has.
pub const MAX_FILES: usize = 1024;

/// The most bytes that the scripts of a project have together.
const MAX_PROJECT: usize = 4_194_304;

/// Why the scripts were not read.
#[derive(Drop)]
pub enum Unread {
    /// The script with this path could not be read.
    Failed(Path),
    /// The script with this path is too long.
    LongFile(Path),
    /// The scripts together are too long.
    LongProject,
    NoMemory,
}

impl From<AllocError> for Unread {
    ghost from_gives = { λ _ e. e ≡ UnreadNoMemory };

    fn from(_: AllocError) -> Unread {
        Unread::NoMemory
    }
}

impl<T: Drop> From<AllocFailed<T>> for Unread {
    ghost from_gives = { λ _ e. e ≡ UnreadNoMemory };

    fn from(_: AllocFailed<T>) -> Unread {
        Unread::NoMemory
    }
}

/// What `check` of the project answers.
pub fn check<H: Shelf>(
    alloc: Global,
    options: CheckOptions,
    shelf: &mut H,
) -> Result<Answer, NoMemory>
    ensures told { IfSome (H.files shelf.old) (λ files. IfOk result (IsAnswer (CheckOutput options (scripts_of files)) (IsReached (scripts_of files)) files (H.failed shelf.new))) }
    ensures no_usage { IfOk result (λ answer. answer ≢ Usage) }
    ensures faults { H.faults shelf.old ≤ H.faults shelf.new }
    ensures cause { IfOk result (λ answer. IsFaultOf answer → Rose (H.faults shelf.old) (H.faults shelf.new)) }
{
    let mut paths = match shelf.list(alloc) {
        Ok(paths) => paths,
        Err(ShelfFault::Failed) => return Ok(Answer::ListFault),
        Err(ShelfFault::NoMemory) => return Err(NoMemory),
    };
    keep_scripts(&mut paths);
    if paths.len() > MAX_FILES {
        return Ok(Answer::TooManyFiles);
    }
    match read_scripts(alloc, &paths, shelf) {
        Ok(sources) => Ok(Answer::Checked(judge(alloc, options, paths, &sources)?)),
        Err(Unread::Failed(path)) => Ok(Answer::ReadFault(path)),
        Err(Unread::LongFile(path)) => Ok(Answer::LongFile(path)),
        Err(Unread::LongProject) => Ok(Answer::LongProject),
        Err(Unread::NoMemory) => Err(NoMemory),
    }
}

/// The bytes of the scripts with these paths, in their order. Past the limit on all of them none are kept, but each script
/// is read.
pub fn read_scripts<H: Shelf>(
    alloc: Global,
    paths: &[Path],
    shelf: &mut H,
) -> Result<Vec<Vec<u8>>, Unread>
    requires few { length paths.now ≤ 1024 }
    ensures told { IfSome (H.files shelf.old) (λ files. (read : List File) → paths.now ≡ paths_of read → AreAt files read →
        MatchResult result (λ sources. AreRead read sources.items) (Stops files read (H.failed shelf.new))) }
    ensures count { IfOk result (λ sources. length sources.items ≡ length paths.now) }
    ensures short { IfOk result (λ sources. All IsShortSource sources.items) }
    ensures faults { H.faults shelf.old ≤ H.faults shelf.new }
    ensures cause { IfErr result (λ unread. IsFailed unread → Rose (H.faults shelf.old) (H.faults shelf.new)) }
{
    let mut sources = Vec::new(alloc);
    let mut total = 0;
    for path in paths {
        let source = match read_script(alloc, path, shelf) {
            Ok(source) => source,
            Err(unread) => return Err(unread),
        };
        total += source.len();
        keep(&mut sources, source, total)?;
    }
    if total > MAX_PROJECT {
        return Err(Unread::LongProject);
    }
    Ok(sources)
}

/// Keeps the bytes of one more script, where this many of all so far are within the limit.
fn keep(sources: &mut Vec<Vec<u8>>, source: Vec<u8>, total: usize) -> Result<(), Unread>
    ensures kept { OnOk result (total ≤ 4_194_304 → sources.new.items ≡ sources.old.items ++ (source ∷ [])) }
    ensures short { OnOk result (IsShortSource source → All IsShortSource sources.old.items → All IsShortSource sources.new.items) }
    ensures no_memory { IfErr result (λ unread. unread ≡ UnreadNoMemory) }
{
    if total > MAX_PROJECT {
        return Ok(());
    }
    sources.push(source)?;
    Ok(())
}

/// The bytes of the script with this path.
fn read_script<H: Shelf>(alloc: Global, path: &Path, shelf: &mut H) -> Result<Vec<u8>, Unread>
    ensures files { H.files shelf.new ≡ H.files shelf.old }
    ensures told { IfSome (H.files shelf.old) (λ files. MatchResult result (λ source. bytes_at files path.now ≡ Some source.items) (Hinders files (H.failed shelf.new) path.now)) }
    ensures short { IfOk result IsShortSource }
    ensures faults { H.faults shelf.old ≤ H.faults shelf.new }
    ensures cause { IfErr result (λ unread. IsFailed unread → Rose (H.faults shelf.old) (H.faults shelf.new)) }
{
    let source = match shelf.read(alloc, path, MAX_SOURCE) {
        Ok(source) => source,
        Err(ShelfFault::Failed) => return Err(Unread::Failed(path.clone()?)),
        Err(ShelfFault::NoMemory) => return Err(Unread::NoMemory),
    };
    if source.len() > MAX_SOURCE as usize {
        return Err(Unread::LongFile(path.clone()?));
    }
    Ok(source)
}
