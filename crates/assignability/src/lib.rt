//! Which types go where: what may be assigned, and which values fit a type (docs/language.md, "Types").
#![tactic(auto)]

mod assignment;
mod bases;
mod fitting;

pub use assignment::{Assignment, assign};
pub use bases::Bases;
pub use fitting::fits;
