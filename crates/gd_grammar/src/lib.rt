//! Tokens as the tree of a file.
//!
//! Each production of the grammar (docs/language.md, "Grammar") is a function over a cursor. How deep
//! these functions call one another follows the open brackets, the open blocks and the length of an
//! item, each of which the lexer bounds.
#![tactic(auto)]

mod accessor;
mod class;
mod fault;
mod script;

pub use fault::SyntaxFault;
pub use script::parse;
