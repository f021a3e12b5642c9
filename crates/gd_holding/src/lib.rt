//! Holding and release: which things a value holds, how often a thing is held, and how unheld things go in rounds.
#![tactic(auto)]

mod handles;
mod holds;

pub use handles::{handle_in, handle_in_key};
pub use holds::Holds;
