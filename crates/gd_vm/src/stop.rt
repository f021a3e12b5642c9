//! Why a step does not go on.
use gd_containers::ThingFault;
use gd_model::{RunFault, impossible};
use gd_syntax::Text;
use no_memory::NoMemory;
use std::alloc::{AllocError, AllocFailed};

/// Why a step does not go on.
#[derive(Drop)]
pub enum Stop {
    /// A fault of the run, at the place of the instruction.
    Run(RunFault),
    /// An assertion failed with this message.
    Said(Text),
    /// A turn was needed and none was left.
    OutOfTurns,
    NoMemory,
}

/// What an instruction gives that nothing is seen of.
pub type Done = Result<(), Stop>;

/// The fault as a refusal.
#[cold]
pub fn fault<T>(fault: RunFault) -> Result<T, Stop> {
    Err(Stop::Run(fault))
}

/// What a verified program never comes to: a number that names nothing, a stack that is too low, or an activity that is
/// not there. A proof over `Verified` is still owed; all such cases come here.
#[cold]
#[inline(never)]
pub fn broken() -> Stop {
    Stop::from(impossible())
}

impl From<AllocError> for Stop {
    fn from(_: AllocError) -> Stop {
        Stop::NoMemory
    }
}

impl<T: Drop> From<AllocFailed<T>> for Stop {
    fn from(_: AllocFailed<T>) -> Stop {
        Stop::NoMemory
    }
}

impl From<NoMemory> for Stop {
    fn from(_: NoMemory) -> Stop {
        Stop::NoMemory
    }
}

impl From<ThingFault> for Stop {
    fn from(fault: ThingFault) -> Stop {
        match fault {
            ThingFault::Run(fault) => Stop::Run(fault),
            ThingFault::NoMemory => Stop::NoMemory,
        }
    }
}
