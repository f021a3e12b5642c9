//! Projects at which no error rule holds.
use crate::diagnose;
use gd_infer::Typed;
use gd_rules::Diag;
use gd_syntax::Seq;
use no_memory::NoMemory;
use std::alloc::Global;

/// A project at which no error rule holds.
#[derive(Drop)]
pub struct Accepted {
    typed: Typed,
}

/// Why a project is not accepted.
#[derive(Drop)]
pub enum Refused {
    /// Error rules hold at these places, in order.
    Faults(Seq<Diag>),
    NoMemory,
}

impl From<NoMemory> for Refused {
    fn from(_: NoMemory) -> Refused {
        Refused::NoMemory
    }
}

impl Accepted {
    /// The types and resolutions of the project.
    pub fn typed(&self) -> &Typed {
        &self.typed
    }
}

/// Accepts a project at which no error rule holds. `Faults` where one holds: all places in order.
pub fn accept(alloc: Global, typed: Typed) -> Result<Accepted, Refused> {
    let faults = diagnose(alloc, &typed, false)?;
    if faults.is_empty() {
        Ok(Accepted { typed })
    } else {
        Err(Refused::Faults(Seq::of(faults)))
    }
}
