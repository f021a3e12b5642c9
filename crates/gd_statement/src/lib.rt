//! Statements and blocks.
//!
//! Each production of the grammar (docs/language.md, "Grammar") is a function over a cursor. How deep
//! these functions call one another follows the open blocks, which the lexer bounds.
#![tactic(auto)]

mod simple;
mod stmt;

pub use stmt::block;
