//! Calls on texts, each equal to its definition over lists of code points (docs/runtime.md, "Texts").
#![tactic(auto)]

mod cut;
mod formatting;
mod join;
mod laws;
mod made;
mod number;
mod pattern;
mod printed;
mod search;

pub use cut::{left, right, strip, substr};
pub use formatting::{Arg, FormatFault, format};
pub use join::{concat, repeat};
pub use laws::{numerals, one_function, one_reading, one_text};
pub use number::{decimal, is_valid_int, to_int};
pub use search::{find, replace, split};
