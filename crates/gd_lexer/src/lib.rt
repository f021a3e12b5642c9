//! The lexer: the bytes of a file become its tokens, or the first lexical fault (docs/language.md, "Lexis").
#![tactic(auto)]

mod brackets;
mod calls;
mod cursor;
mod decode;
mod escape;
mod fault;
mod found;
mod glyph;
mod lexer;
mod lines;
mod mark;
mod name;
mod number;
mod quoted;
mod recent;
mod spelled;
mod stop;
mod stopped;
mod word;

pub use calls::{lex, lexemes};
pub use fault::LexFault;
pub use spelled::{Comment, Lexeme, Lexemes, one_lexeme_list};
