//! What was found in a file.
ghost use Rattle.std.specs.Prelude.{◌≡◌, ◌+◌, ◌≤◌, ◌++◌, ◌∷◌, [], OnOk, OnErr, IfOk, length};
ghost use Rattle.gd_lexer.specs.Follows.{IsAtMost};
ghost use Rattle.gd_lexer.specs.Found.{IsNotEnd, AreWhole};

use gd_syntax::{Pos, Token, TokenKind};
use no_memory::NoMemory;
use std::alloc::Global;
use std::marker::Model;

/// The bytes from `start` to before `end`.
#[derive(Clone, Copy, Debug, PartialEq, Eq)]
pub struct Span {
    pub start: u32,
    pub end: u32,
}

/// The tokens before the file's end, the bytes of each, and the bytes of each comment.
#[derive(Drop)]
pub struct Found {
    tokens: Vec<Token>,
    spans: Vec<Span>,
    comments: Vec<Span>,
    /// The place of the last token, or the file's start.
    last: Pos,
}

impl Model for Found {
    ghost use Rattle.gd_lexer.specs.Found.{FoundList};

    ghost Value = { FoundList };

    ghost use Rattle.gd_lexer.specs.FoundView.{found_of, IsInOrder};

    ghost view = { found_of };

    ghost invariant = { IsInOrder };
}

/// What a whole file has: its tokens with End, the bytes of each, and the bytes of each comment.
#[derive(Drop)]
pub struct Whole {
    pub tokens: Vec<Token>,
    pub spans: Vec<Span>,
    pub comments: Vec<Span>,
}

impl Found {
    /// Nothing, of the file that starts here, with room for so many tokens if there is memory for it.
    pub fn new(alloc: Global, start: Pos, room: usize) -> Found
        ensures tokens { result.tokens ≡ [] }
        ensures spans { result.spans ≡ [] }
        ensures comments { result.comments ≡ [] }
        ensures last { result.last ≡ start }
    {
        Found {
            tokens: with_room(alloc, room),
            spans: with_room(alloc, room),
            comments: Vec::new(alloc),
            last: start,
        }
    }

    /// Adds a token.
    #[inline(always)]
    pub fn push(&mut self, pos: Pos, kind: TokenKind, span: Span) -> Result<(), NoMemory>
        requires file { pos.file ≡ self.old.last.file }
        requires line { 1 ≤ pos.line }
        requires column { 1 ≤ pos.column }
        requires later { IsAtMost self.old.last pos }
        requires open { IsNotEnd kind }
        ensures last { OnOk result (self.new.last ≡ pos) }
        ensures count { OnOk result (length self.new.tokens ≡ length self.old.tokens + 1) }
        ensures tokens { OnOk result (self.new.tokens ≡ self.old.tokens ++ record { pos = pos; kind = kind } ∷ []) }
        ensures spans { OnOk result (self.new.spans ≡ self.old.spans ++ span ∷ []) }
        ensures comments { self.new.comments ≡ self.old.comments }
    {
        add(&mut self.spans, span)?;
        add(&mut self.tokens, Token { pos, kind })?;
        self.last = pos;
        Ok(())
    }

    /// Adds a token that has no bytes and stands before the byte `at`.
    pub fn push_empty(&mut self, pos: Pos, kind: TokenKind, at: u32) -> Result<(), NoMemory>
        requires file { pos.file ≡ self.old.last.file }
        requires line { 1 ≤ pos.line }
        requires column { 1 ≤ pos.column }
        requires later { IsAtMost self.old.last pos }
        requires open { IsNotEnd kind }
        ensures last { OnOk result (self.new.last ≡ pos) }
        ensures count { OnOk result (length self.new.tokens ≡ length self.old.tokens + 1) }
        ensures tokens { OnOk result (self.new.tokens ≡ self.old.tokens ++ record { pos = pos; kind = kind } ∷ []) }
        ensures spans { OnOk result (self.new.spans ≡ self.old.spans ++ record { start = at; end = at } ∷ []) }
        ensures comments { self.new.comments ≡ self.old.comments }
    {
        self.push(pos, kind, Span { start: at, end: at })
    }

    /// Adds a comment.
    pub fn comment(&mut self, span: Span) -> Result<(), NoMemory>
        ensures last { self.new.last ≡ self.old.last }
        ensures tokens { self.new.tokens ≡ self.old.tokens }
        ensures spans { self.new.spans ≡ self.old.spans }
        ensures comments { OnOk result (self.new.comments ≡ self.old.comments ++ span ∷ []) }
    {
        add(&mut self.comments, span)
    }

    /// Adds End, at the place `pos` before the byte `at`.
    pub fn finish(self, pos: Pos, at: u32) -> Result<Whole, NoMemory>
        requires file { pos.file ≡ self.last.file }
        requires line { 1 ≤ pos.line }
        requires column { 1 ≤ pos.column }
        requires later { IsAtMost self.last pos }
        ensures whole { IfOk result (λ w. AreWhole pos.file w.tokens.items) }
        ensures count { IfOk result (λ w. length w.tokens.items ≡ length self.tokens + 1) }
        ensures spanned { IfOk result (λ w. length w.tokens.items ≤ length w.spans.items) }
        ensures tokens { IfOk result (λ w. w.tokens.items ≡ self.tokens ++ record { pos = pos; kind = TokenKind.End } ∷ []) }
        ensures spans { IfOk result (λ w. w.spans.items ≡ self.spans ++ record { start = at; end = at } ∷ []) }
        ensures comments { IfOk result (λ w. w.comments.items ≡ self.comments) }
    {
        let Found {
            mut tokens,
            mut spans,
            comments,
            ..
        } = self;
        let end = Token {
            pos,
            kind: TokenKind::End,
        };
        add(&mut tokens, end)?;
        add(&mut spans, Span { start: at, end: at })?;
        Ok(Whole {
            tokens,
            spans,
            comments,
        })
    }
}

/// Adds an item to the list. Where memory does not suffice the item is dropped: `Vec::push` would hand it back, and its
/// larger result takes time at each call.
#[inline(always)]
fn add<T: Drop>(list: &mut Vec<T>, item: T) -> Result<(), NoMemory>
    ensures ok { OnOk result (list.new.items ≡ list.old.items ++ item ∷ []) }
    ensures err { OnErr result (list.new.items ≡ list.old.items) }
{
    list.reserve(1)?;
    list.push_reserved(item);
    Ok(())
}

/// An empty list with room for so many items, or with none where memory does not suffice.
fn with_room<T: Drop>(alloc: Global, room: usize) -> Vec<T>
    ensures { result.items ≡ [] }
{
    match Vec::with_capacity(alloc, room) {
        Ok(list) => list,
        Err(_) => Vec::new(alloc),
    }
}
