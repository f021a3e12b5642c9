//! Why a file has no tokens.
use gd_rules::Rule;
use gd_syntax::Pos;
use no_memory::NoMemory;
use std::alloc::{AllocError, AllocFailed};
use thiserror::Error;

/// The answer where a file has no tokens.
#[derive(Clone, Copy, Debug, PartialEq, Eq, Drop, Error)]
pub enum LexFault {
    /// The first lexical fault of the file: its place, and its rule from L01 to L12.
    #[error("lexical fault")]
    Fault(Pos, Rule),
    /// No memory was left.
    #[error("out of memory")]
    NoMemory,
}

impl From<NoMemory> for LexFault {
    fn from(_: NoMemory) -> LexFault {
        LexFault::NoMemory
    }
}

impl From<AllocError> for LexFault {
    fn from(_: AllocError) -> LexFault {
        LexFault::NoMemory
    }
}

impl<T: Drop> From<AllocFailed<T>> for LexFault {
    fn from(_: AllocFailed<T>) -> LexFault {
        LexFault::NoMemory
    }
}
