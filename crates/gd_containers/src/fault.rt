use gd_model::RunFault;
use no_memory::NoMemory;
use thiserror::Error;

/// The most elements of an array, and the most pairs of a dictionary.
pub const MAX_ITEMS: usize = 16_777_216;

/// Why a call on an array or a dictionary was refused.
#[derive(Clone, Copy, Debug, Drop, Error)]
pub enum ThingFault {
    /// The fault that ends a run.
    #[error("run fault")]
    Run(RunFault),
    /// No memory was left.
    #[error("out of memory")]
    NoMemory,
}

impl From<NoMemory> for ThingFault {
    ghost use Rattle.std.specs.Prelude.{◌≡◌};
    ghost use Rattle.gd_containers.specs.declared.fault.ThingFault.TheVariants.{NoMemory};

    ghost from_gives = { λ _ f. f ≡ NoMemory };

    fn from(_: NoMemory) -> ThingFault {
        ThingFault::NoMemory
    }
}
