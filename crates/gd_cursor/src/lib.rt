//! A cursor over the tokens of a file, and how a rule of the grammar stops.
#![tactic(auto)]

mod cursor;
mod stop;

pub use cursor::{Cursor, Edge, count};
pub use stop::Stop;
