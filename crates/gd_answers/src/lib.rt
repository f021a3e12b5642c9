//! What operators and builtins answer: a value, or a thing that is not yet among the things of a run, or a fault.
#![tactic(auto)]

mod fresh;
mod texts;

pub use fresh::{Fresh, boolean, int, refused};
pub use texts::{text, text_refusal};
