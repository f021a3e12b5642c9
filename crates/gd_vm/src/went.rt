//! What became of an instruction.
use crate::stop::{Done, Stop};
use gd_syntax::Text;

/// What became of an instruction.
#[derive(Drop)]
pub enum Went {
    /// It gave nothing up, and entered and left no function: the next one follows at once.
    On,
    /// The same, of a fused instruction: it did so many more.
    Many(u32),
    /// The next one follows, unless something else goes on first.
    Perhaps,
    /// It printed a line.
    Line(Text),
    /// The run stops at it.
    Stopped(Stop),
}

impl Went {
    /// Of an instruction that may have given something up.
    #[inline(always)]
    pub fn of(done: Done) -> Went {
        match done {
            Ok(()) => Went::Perhaps,
            Err(stop) => Went::Stopped(stop),
        }
    }

    /// Of one that has not.
    #[inline(always)]
    pub fn quiet(done: Done) -> Went {
        match done {
            Ok(()) => Went::On,
            Err(stop) => Went::Stopped(stop),
        }
    }
}
