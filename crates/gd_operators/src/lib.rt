//! The operators on values (docs/runtime.md, "Operators").
#![tactic(auto)]

mod equality;
mod ints;
mod joining;
mod laws;
mod membership;
mod operators;
mod texts;
mod truthiness;

pub use equality::{is_same, same};
pub use ints::{Plain, apply_ints};
pub use joining::push;
pub use laws::untaken;
pub use membership::first_place;
pub use operators::apply;
pub use truthiness::truth;
