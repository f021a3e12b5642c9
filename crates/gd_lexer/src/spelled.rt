//! Tokens and comments with their bytes.
ghost use Rattle.std.specs.Prelude.{◌≡◌, List, ℕ};
ghost use Rattle.gd_lexis.specs.Lexes.{Lexes};
ghost use Rattle.gd_lexis.specs.Lexemes.{AreComments, Extent};
ghost use Rattle.gd_lexer.specs.Spelled.{tokens_of, AreSpelled};

use gd_syntax::{Seq, Token};

/// A token and its bytes, from `start` to before `end`. Newline has its line feed, and where the file ends
/// without one it has none; Indent, Dedent and End have none.
#[derive(Drop)]
pub struct Lexeme {
    pub token: Token,
    pub start: u32,
    pub end: u32,
}

/// The bytes of a comment, from `start`, where its `#` stands, to before `end`, where its line feed stands or the
/// file ends: a carriage return before the line feed is part of the comment.
#[derive(Clone, Copy, Debug, PartialEq, Eq)]
pub struct Comment {
    pub start: u32,
    pub end: u32,
}

/// The tokens and the comments of a file, each in order.
#[derive(Drop)]
pub struct Lexemes {
    pub tokens: Seq<Lexeme>,
    pub comments: Seq<Comment>,
}

/// A file has at most one list of lexemes, and at most one list of comments.
pub fn one_lexeme_list()
    ensures tokens { (file : ℕ) (bytes : List ℕ) (lexemes : List Lexeme) (others : List Lexeme) → Lexes file bytes (tokens_of lexemes) → Lexes file bytes (tokens_of others)
        → AreSpelled file bytes lexemes → AreSpelled file bytes others → lexemes ≡ others }
    ensures comments { (bytes : List ℕ) (comments : List Extent) (others : List Extent) → AreComments bytes comments → AreComments bytes others → comments ≡ others }
{}
