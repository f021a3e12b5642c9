//! Types, values and faults: the words that the layers share.
#![tactic(auto)]

mod event;
mod fault;
mod key;
mod outcome;
mod shared;
mod ty;
mod value;

pub use event::Event;
pub use fault::RunFault;
pub use gd_rules::{Diag, Mark, Rule};
pub use key::Key;
pub use outcome::Outcome;
pub use shared::Shared;
use std::alloc::AllocError;
pub use ty::{Fixed, FixedThing, Ty};
pub use value::{SignalSource, Target, Value};

/// The answer for a case that a later proof will show impossible. Each call is a promise still owed.
pub fn impossible() -> AllocError {
    AllocError
}
