//! A cursor over the tokens of a file.
//!
//! A rule of the grammar takes a token only where some script goes on with it, so a rule that fails
//! leaves the cursor at the token of the fault.
ghost use Rattle.std.specs.Prelude.{◌≡◌, ◌<◌, ◌-◌, ◌^◌, IsTrue, OnSome};
ghost use Rattle.gd_cursor.specs.Cursor.{left, Keeps, Takes};

use crate::stop::Stop;
use gd_syntax::{Keyword, Mark, Pos, Text, Token, TokenKind};
use std::alloc::Global;

const SET: [char; 3] = ['s', 'e', 't'];

const GET: [char; 3] = ['g', 'e', 't'];

/// A token that stands for the shape of lines and blocks.
#[derive(Clone, Copy, Debug, PartialEq, Eq)]
pub enum Edge {
    Newline,
    Indent,
    Dedent,
    End,
}

#[derive(Drop)]
pub struct Cursor<'a> {
    pub alloc: Global,
    /// The tokens that are left.
    rest: &'a [Token],
    /// The place of the last token taken other than line ends, block ends and `;`.
    last: Pos,
}

impl<'a> Cursor<'a> {
    /// Before the first of these tokens. Until one is taken, `last` is `start`.
    pub fn new(alloc: Global, tokens: &'a [Token], start: Pos) -> Cursor<'a>
        ensures { result.rest.now ≡ tokens.now }
    {
        Cursor {
            alloc,
            rest: tokens,
            last: start,
        }
    }

    /// The number of tokens that are left.
    pub fn left(&self) -> usize
        ensures { result ≡ left self.now }
    {
        self.rest.len()
    }

    /// The number of tokens taken since `before` were left.
    pub fn taken_since(&self, before: usize) -> u32
        ensures { before < 2 ^ 32 → result ≡ before - left self.now }
    {
        count(before.saturating_sub(self.left()))
    }

    /// What the next token is.
    pub fn peek(&self) -> Option<&'a TokenKind>
        ensures { OnSome result (0 < left self.now) }
    {
        match self.rest {
            [token, ..] => Some(&token.kind),
            [] => None,
        }
    }

    /// The place of the next token.
    pub fn here(&self) -> Pos {
        match self.rest {
            [token, ..] => token.pos,
            [] => self.last,
        }
    }

    /// The place of the last token taken other than line ends, block ends and `;`.
    pub fn last(&self) -> Pos {
        self.last
    }

    /// Takes the next token.
    pub fn take(&mut self)
        ensures { left self.new ≡ left self.old - 1 }
    {
        if let [token, rest @ ..] = self.rest {
            if !is_separator(&token.kind) {
                self.last = token.pos;
            }
            self.rest = rest;
        }
    }

    /// Whether the next token is this mark.
    pub fn sees(&self, mark: Mark) -> bool
        ensures { IsTrue result → 0 < left self.now }
    {
        match self.peek() {
            Some(TokenKind::Mark(next)) => *next == mark,
            _ => false,
        }
    }

    /// Takes the next token where it is this mark.
    pub fn eat(&mut self, mark: Mark) -> bool
        ensures onward { Keeps self.old self.new }
        ensures took { IsTrue result → left self.new < left self.old }
    {
        let found = self.sees(mark);
        if found {
            self.take();
        }
        found
    }

    /// Takes this mark. `Here` where the next token is another. Answers its place.
    pub fn expect(&mut self, mark: Mark) -> Result<Pos, Stop>
        ensures { Takes self.old self.new result }
    {
        let place = self.here();
        if self.eat(mark) {
            Ok(place)
        } else {
            Err(Stop::Here)
        }
    }

    /// Whether the next token is this keyword.
    pub fn sees_word(&self, word: Keyword) -> bool
        ensures { IsTrue result → 0 < left self.now }
    {
        match self.peek() {
            Some(TokenKind::Keyword(next)) => *next == word,
            _ => false,
        }
    }

    /// Takes the next token where it is this keyword.
    pub fn eat_word(&mut self, word: Keyword) -> bool
        ensures onward { Keeps self.old self.new }
        ensures took { IsTrue result → left self.new < left self.old }
    {
        let found = self.sees_word(word);
        if found {
            self.take();
        }
        found
    }

    /// Takes this keyword. `Here` where the next token is another. Answers its place.
    pub fn expect_word(&mut self, word: Keyword) -> Result<Pos, Stop>
        ensures { Takes self.old self.new result }
    {
        let place = self.here();
        if self.eat_word(word) {
            Ok(place)
        } else {
            Err(Stop::Here)
        }
    }

    /// Whether the next token is this end or begin of a line or block.
    pub fn sees_edge(&self, edge: Edge) -> bool
        ensures { IsTrue result → 0 < left self.now }
    {
        match self.peek() {
            Some(TokenKind::Newline) => edge == Edge::Newline,
            Some(TokenKind::Indent) => edge == Edge::Indent,
            Some(TokenKind::Dedent) => edge == Edge::Dedent,
            Some(TokenKind::End) => edge == Edge::End,
            _ => false,
        }
    }

    /// Takes the next token where it is this end or begin of a line or block.
    pub fn eat_edge(&mut self, edge: Edge) -> bool
        ensures onward { Keeps self.old self.new }
        ensures took { IsTrue result → left self.new < left self.old }
    {
        let found = self.sees_edge(edge);
        if found {
            self.take();
        }
        found
    }

    /// Takes this end or begin of a line or block. `Here` where the next token is another.
    pub fn expect_edge(&mut self, edge: Edge) -> Result<(), Stop>
        ensures { Takes self.old self.new result }
    {
        if self.eat_edge(edge) {
            Ok(())
        } else {
            Err(Stop::Here)
        }
    }

    /// `end = NL | ";" [NL]`. `Here` where the next token is neither.
    pub fn end(&mut self) -> Result<(), Stop>
        ensures { Takes self.old self.new result }
    {
        if self.eat(Mark::Semicolon) {
            self.eat_edge(Edge::Newline);
            Ok(())
        } else {
            self.expect_edge(Edge::Newline)
        }
    }

    /// Whether the next token is the name with these characters.
    pub fn sees_name(&self, name: &[char]) -> bool
        ensures { IsTrue result → 0 < left self.now }
    {
        match self.peek() {
            Some(TokenKind::Word(next)) => is_spelled(next, name),
            _ => false,
        }
    }

    /// Whether a name and `=` stand next.
    pub fn sees_name_and_equal(&self) -> bool {
        match self.rest {
            [name, equal, ..] => matches!(
                (&name.kind, &equal.kind),
                (TokenKind::Word(_), TokenKind::Mark(Mark::Equal))
            ),
            _ => false,
        }
    }

    /// Whether the next token is a string.
    pub fn sees_text(&self) -> bool {
        matches!(self.peek(), Some(TokenKind::Quoted(_)))
    }

    /// Whether the next token is the name `set`.
    pub fn sees_setter(&self) -> bool
        ensures { IsTrue result → 0 < left self.now }
    {
        self.sees_name(&SET)
    }

    /// Whether the next token is the name `get`.
    pub fn sees_getter(&self) -> bool
        ensures { IsTrue result → 0 < left self.now }
    {
        self.sees_name(&GET)
    }

    /// Whether `:` stands next, and after it `set`, `get` or a line end.
    pub fn sees_accessors(&self) -> bool {
        match self.rest {
            [colon, next, ..] => {
                matches!(&colon.kind, TokenKind::Mark(Mark::Colon)) && begins_accessors(&next.kind)
            }
            _ => false,
        }
    }

    /// Takes a string. `Here` where the next token is none.
    pub fn text(&mut self) -> Result<Text, Stop>
        ensures { Takes self.old self.new result }
    {
        match self.peek() {
            Some(TokenKind::Quoted(text)) => {
                let text = text.share()?;
                self.take();
                Ok(text)
            }
            _ => Err(Stop::Here),
        }
    }

    /// Takes a name. `Here` where the next token is none. Answers the name and its place.
    pub fn name(&mut self) -> Result<(Text, Pos), Stop>
        ensures { Takes self.old self.new result }
    {
        let place = self.here();
        match self.peek() {
            Some(TokenKind::Word(name)) => {
                let name = name.share()?;
                self.take();
                Ok((name, place))
            }
            _ => Err(Stop::Here),
        }
    }
}

/// Whether this token only ends or opens lines and blocks.
fn is_separator(kind: &TokenKind) -> bool {
    matches!(
        kind,
        TokenKind::Newline
            | TokenKind::Indent
            | TokenKind::Dedent
            | TokenKind::End
            | TokenKind::Mark(Mark::Semicolon)
    )
}

/// Whether a name has these characters.
fn is_spelled(name: &Text, characters: &[char]) -> bool {
    name.chars() == characters
}

/// Whether this token after a variable's `:` begins its accessors.
fn begins_accessors(kind: &TokenKind) -> bool {
    match kind {
        TokenKind::Newline => true,
        TokenKind::Word(name) => is_spelled(name, &SET) || is_spelled(name, &GET),
        _ => false,
    }
}

/// A number of tokens. A file has fewer than 2^32.
pub fn count(tokens: usize) -> u32
    ensures { tokens < 2 ^ 32 → result ≡ tokens }
{
    u32::try_from(tokens).unwrap_or(u32::MAX)
}
