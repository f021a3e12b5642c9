//! Why a project is not compiled.

use gd_syntax::Pos;
use no_memory::NoMemory;

/// Why there is no program.
#[derive(Debug, Drop)]
pub enum CodeFault {
    /// The main script cannot be run.
    NoMain,
    /// A function, or the initial values of a class, have too many tokens: at the name of the first.
    FunctionTooLong(Pos),
    NoMemory,
}

impl From<NoMemory> for CodeFault {
    fn from(_: NoMemory) -> CodeFault {
        CodeFault::NoMemory
    }
}
