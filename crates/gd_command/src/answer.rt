//! The answers that a call decides on before it writes.
use crate::report::Report;
use crate::run_options::RunOptions;
use crate::sample::Sample;
use gd_bytecode::Program;
use gd_outside::Path;
use gd_syntax::Pos;

/// What a call is to write or to run.
#[derive(Drop)]
pub enum Answer {
    /// The words are no command.
    Usage,
    /// The files could not be listed.
    ListFault,
    /// The file with this path could not be read.
    ReadFault(Path),
    /// The project has more scripts than a project may have.
    TooManyFiles,
    /// The script with this path is longer than a script may be.
    LongFile(Path),
    /// The scripts together are longer than those of a project may be.
    LongProject,
    /// The scripts were checked, or were to be run and have errors.
    Checked(Report),
    /// The script with this path cannot be run.
    NoMain(Path),
    /// A function, or the initial values of a class, have more tokens than they may have: it stands in the script with
    /// this path, at this place.
    LongFunction(Path, Pos),
    /// The project is to be run.
    Runs(Program, RunOptions),
    /// The sample is to be run.
    Samples(Sample),
}
