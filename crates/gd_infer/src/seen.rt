//! What an expression is seen to be.

use gd_members::Found;
use gd_model::Ty;
use gd_typing::{Use, Verdict};
use no_memory::NoMemory;
use std::alloc::Global;

/// The type of an expression, and what its name or attribute means.
#[derive(Drop)]
pub struct Seen {
    pub ty: Ty,
    /// None for a local, and where it is not known before a run.
    pub found: Option<Found>,
    /// The number of the local that it is.
    pub local: Option<usize>,
}

impl Seen {
    /// Of this type, and no name.
    pub fn of(ty: Ty) -> Seen {
        Seen {
            ty,
            found: None,
            local: None,
        }
    }

    /// What an operation gives.
    pub fn by(verdict: Verdict) -> Seen {
        Seen::of(verdict.ty)
    }

    /// What a name or an attribute is.
    pub fn named(used: Use) -> Seen {
        Seen {
            ty: used.verdict.ty,
            found: used.found,
            local: None,
        }
    }

    /// The same once more.
    pub fn copy(&self, alloc: Global) -> Result<Seen, NoMemory> {
        Ok(Seen {
            ty: self.ty.copy(alloc)?,
            found: self.found,
            local: self.local,
        })
    }
}
