//! Where the text of the program goes.
ghost use Rattle.std.specs.Prelude.{◌≡◌, ◌++◌, Option, List, ℕ, OnOk, OnErr};
ghost use Rattle.gd_outside.specs.Cause.{HasCause};
ghost use Rattle.gd_outside.specs.Sink.{Appends, AppendsPrefix};
ghost use Rattle.gd_outside.specs.declared.sink.SinkFault.TheVariants.{Failed, NoMemory};

use std::alloc::{AllocError, Global};
use thiserror::Error;

/// Why a sink did not take a piece whole.
#[derive(Clone, Copy, Debug, PartialEq, Eq, Error)]
pub enum SinkFault {
    /// The piece could not be written whole.
    #[error("a write failed")]
    Failed,
    /// No memory was left.
    #[error("out of memory")]
    NoMemory,
}

impl From<AllocError> for SinkFault {
    ghost from_gives = { λ _ e. e ≡ NoMemory };

    fn from(_: AllocError) -> SinkFault {
        SinkFault::NoMemory
    }
}

/// Takes bytes, piece by piece.
pub trait Sink {
    /// All the bytes that it was given, in order, where it tells them.
    ghost contents: { Self → Option (List ℕ) };

    /// How often it has failed. It never falls, and its last value is 2 ^ 64 - 1.
    ghost faults: { Self → ℕ };

    /// Appends the piece; after an `Err` only a prefix of it is appended.
    fn put(&mut self, piece: &[u8]) -> Result<(), SinkFault>
        ensures whole { OnOk result (Appends (contents self.old) piece.now (contents self.new)) }
        ensures part { OnErr result (AppendsPrefix (contents self.old) piece.now (contents self.new)) }
        ensures cause { HasCause (faults self.old) (faults self.new) result Failed };
}
