//! Why a program is not verified.
ghost use Rattle.std.specs.Prelude.{◌≡◌};

use crate::Field;
use no_memory::NoMemory;
use thiserror::Error;

/// A count that passes its limit. The numbers are those of functions, from 0.
#[derive(Clone, Copy, Debug, PartialEq, Eq)]
pub enum Limit {
    /// More parameters must be given than there are.
    Required(usize),
    /// More locals than 65,536, or fewer than parameters.
    Locals(usize),
    /// More instructions than 8,388,608.
    Code(usize),
    /// More constants and static variables than 16,777,216.
    Held,
    /// 2^32 variables or more in all classes together.
    Variables,
}

/// An instruction of a function, each by its number from 0.
#[derive(Clone, Copy, Debug, PartialEq, Eq)]
pub struct Spot {
    pub function: usize,
    pub instruction: usize,
}

/// The first thing for which a program is not verified.
#[derive(Clone, Copy, Debug, PartialEq, Eq, Drop, Error)]
pub enum Unverified {
    #[error("a count passes its limit")]
    Limit(Limit),
    /// The number in a field names nothing, or something that its use does not fit.
    #[error("a number does not fit its use")]
    Field(Field),
    /// A jump leads outside the code, or back to an instruction other than a Turn.
    #[error("a jump leads to a wrong place")]
    Jump(Spot),
    /// An instruction does not fit the stack as it stands there, goes on past the end of the code, or uses a receiver
    /// that a static function does not have.
    #[error("an instruction does not fit the stack")]
    Stack(Spot),
    #[error("out of memory")]
    NoMemory,
}

impl From<NoMemory> for Unverified {
    ghost use Rattle.gd_bytecode.specs.declared.unverified.Unverified.TheVariants.{NoMemory};

    ghost from_gives = { λ _ refused. refused ≡ NoMemory };

    fn from(_: NoMemory) -> Unverified {
        Unverified::NoMemory
    }
}
