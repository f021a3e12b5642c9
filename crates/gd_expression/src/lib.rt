//! Expressions, types, patterns, annotations, and the names that have a type and a value.
//!
//! Each production of the grammar (docs/language.md, "Grammar") is a function over a cursor. How deep
//! these functions call one another follows the open brackets and the length of an item, each of
//! which the lexer bounds.
#![tactic(auto)]

mod annotation;
mod expr;
mod match_pattern;
mod operators;
mod types;
mod variable;

pub use annotation::notes;
pub use expr::{expression, expressions};
pub use match_pattern::pattern;
pub use operators::{Assignment, assignment_of};
pub use types::{base, type_name, void};
pub use variable::{Role, named, parameters};
