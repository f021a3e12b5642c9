//! The rules that a check reports, and the places at which they hold (docs/diagnostics.md).
#![tactic(auto)]

mod diag;
mod rule;

pub use diag::{Diag, Mark};
pub use rule::Rule;
