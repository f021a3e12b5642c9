//! Why a rule of the grammar stopped.
use no_memory::NoMemory;
use std::alloc::{AllocError, AllocFailed};

/// Why a rule did not hold.
#[derive(Clone, Copy, Debug, PartialEq, Eq)]
pub enum Stop {
    /// No script goes on with the token at which the cursor stands.
    Here,
    NoMemory,
}

impl From<NoMemory> for Stop {
    fn from(_: NoMemory) -> Stop {
        Stop::NoMemory
    }
}

impl From<AllocError> for Stop {
    fn from(_: AllocError) -> Stop {
        Stop::NoMemory
    }
}

impl<T: Drop> From<AllocFailed<T>> for Stop {
    fn from(_: AllocFailed<T>) -> Stop {
        Stop::NoMemory
    }
}
