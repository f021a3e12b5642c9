//! Printed forms of values, and what `%` makes of a String and its arguments (docs/runtime.md, "Printed forms").
#![tactic(auto)]

mod arguments;
mod print;

pub use arguments::{format_with, formatted};
pub use print::{joined, text_of};
