//! Strings.
ghost use Rattle.std.specs.Prelude.{◌≡◌, ◌<◌, ◌≤◌, ◌+◌, ◌-◌, ◌++◌, ◌==◌, ◌||◌, [], ◌∷◌, IfOk, OnOk, Some, None, length};
ghost use Rattle.std.specs.Bool.{OnTrue, OnFalse};
ghost use Rattle.gd_lexer.specs.Escape.{reading_of, seen_fault, or_fault};
ghost use Rattle.gd_lexer.specs.Escape as steps;
ghost use Rattle.gd_lexer.specs.Cursor.{sees};
ghost use Rattle.gd_lexer.specs.Quoted as spec;
ghost use Rattle.gd_lexer.specs.Follows.{Follows};

use crate::cursor::Cursor;
use crate::escape::escape;
use crate::stop::{Fault, fault_at};
use gd_lexis::Glyph;
use gd_rules::Rule;
use no_memory::NoMemory;
use std::alloc::Global;

/// How a string is opened, which says how it ends and whether it has escapes.
#[derive(Clone, Copy, Debug, PartialEq, Eq)]
struct Quote {
    mark: char,
    is_triple: bool,
    is_raw: bool,
}

/// What is read of a token: its characters, and the first fault inside it.
#[derive(Drop)]
pub struct Body {
    pub chars: Vec<char>,
    pub fault: Option<Fault>,
}

impl Body {
    pub fn new(alloc: Global) -> Body {
        Body {
            chars: Vec::new(alloc),
            fault: None,
        }
    }

    /// Forgets what was read.
    pub fn clear(&mut self)
        ensures chars { self.new.chars.items ≡ [] }
        ensures fault { self.new.fault ≡ None }
    {
        self.chars.clear();
        self.fault = None;
    }

    /// Adds a character.
    pub fn push(&mut self, c: char) -> Result<(), NoMemory>
        ensures chars { OnOk result (self.new.chars.items ≡ self.old.chars.items ++ c ∷ []) }
        ensures fault { self.new.fault ≡ self.old.fault }
    {
        self.chars.push(c)?;
        Ok(())
    }

    /// Keeps the first fault.
    pub fn refuse(&mut self, fault: Fault)
        ensures chars { self.new.chars ≡ self.old.chars }
        ensures fault { seen_fault self.new.fault ≡ or_fault (seen_fault self.old.fault) (fault.pos, fault.rule) }
    {
        if self.fault.is_none() {
            self.fault = Some(fault);
        }
    }
}

/// Whether the character opens a string.
pub fn is_quote(c: char) -> bool
    ensures { result ≡ (c == 34 || c == 39) }
{
    c == '"' || c == '\''
}

/// Goes over the `r` of a raw string, if it stands here.
fn skip_raw(cursor: &mut Cursor) -> bool
    ensures value { result ≡ sees 114 cursor.old.glyphs 0 }
    ensures at { cursor.new ≡ spec.at_quote cursor.old }
    ensures follows { Follows cursor.old cursor.new }
{
    if cursor.sees('r') {
        cursor.advance();
        return true;
    }
    false
}

/// Goes over what opens a string.
#[tactic(auto, unfolding(crate::specs::Quoted::quote_of, crate::specs::Quoted::opened))]
fn open(cursor: &mut Cursor) -> Quote
    ensures quote { result ≡ spec.quote_of cursor.old }
    ensures at { cursor.new ≡ spec.opened cursor.old }
    ensures follows { Follows cursor.old cursor.new }
    ensures fewer { length cursor.new.glyphs ≤ length cursor.old.glyphs - 1 }
{
    let is_raw = skip_raw(cursor);
    let mark = if cursor.sees('"') { '"' } else { '\'' };
    let is_triple = cursor.sees_second(mark) && cursor.sees_third(mark);
    if is_triple {
        cursor.advance_three();
    } else {
        cursor.advance();
    }
    Quote {
        mark,
        is_triple,
        is_raw,
    }
}

/// Goes over the end of the string, if it stands here.
#[tactic(auto, unfolding(crate::specs::Quoted::closed))]
fn close(cursor: &mut Cursor, quote: Quote) -> bool
    ensures end { OnTrue result (spec.closed quote cursor.old ≡ Some cursor.new) }
    ensures more { OnFalse result (spec.closed quote cursor.old ≡ None) }
    ensures stays { OnFalse result (cursor.new ≡ cursor.old) }
    ensures follows { Follows cursor.old cursor.new }
{
    let mark = quote.mark;
    if !cursor.sees(mark) {
        return false;
    }
    if !quote.is_triple {
        cursor.advance();
        return true;
    }
    if cursor.sees_second(mark) && cursor.sees_third(mark) {
        cursor.advance_three();
        return true;
    }
    false
}

/// Goes over one glyph that stands for itself, or a line end, which is always a line feed.
#[tactic(auto, unfolding(crate::specs::Escape::plain))]
fn plain(cursor: &mut Cursor, glyph: Glyph, body: &mut Body) -> Result<(), NoMemory>
    requires { 0 < length cursor.old.glyphs }
    ensures few { OnOk result (length body.new.chars.items + length cursor.new.glyphs ≤ length body.old.chars.items + length cursor.old.glyphs) }
    ensures value { OnOk result (reading_of cursor.new body.new ≡ steps.plain glyph (reading_of cursor.old body.old)) }
    ensures follows { Follows cursor.old cursor.new }
    ensures fewer { OnOk result (length cursor.new.glyphs ≤ length cursor.old.glyphs - 1) }
{
    match glyph {
        Glyph::Bad(_) => {
            body.refuse(fault_at(cursor.pos(), Rule::NotUtf8));
            cursor.advance();
        }
        Glyph::Char('\r') if cursor.sees_second('\n') => {
            body.push('\n')?;
            cursor.advance_two();
        }
        Glyph::Char(c) => {
            body.push(c)?;
            cursor.advance();
        }
    }
    Ok(())
}

/// Goes over a backslash of a raw string and the glyph after it, which both stay.
#[tactic(auto, unfolding(crate::specs::Escape::kept))]
fn kept(cursor: &mut Cursor, body: &mut Body) -> Result<(), NoMemory>
    requires { 0 < length cursor.old.glyphs }
    ensures few { OnOk result (length body.new.chars.items + length cursor.new.glyphs ≤ length body.old.chars.items + length cursor.old.glyphs) }
    ensures value { OnOk result (reading_of cursor.new body.new ≡ steps.kept (reading_of cursor.old body.old)) }
    ensures follows { Follows cursor.old cursor.new }
    ensures fewer { OnOk result (length cursor.new.glyphs ≤ length cursor.old.glyphs - 1) }
{
    body.push('\\')?;
    cursor.advance();
    match cursor.peek() {
        Some(glyph) => plain(cursor, glyph, body),
        None => Ok(()),
    }
}

/// Goes over one glyph between the ends of the string, or over the escape that begins with it.
fn step(cursor: &mut Cursor, quote: Quote, glyph: Glyph, body: &mut Body) -> Result<(), NoMemory>
    requires { 0 < length cursor.old.glyphs }
    ensures few { OnOk result (length body.new.chars.items + length cursor.new.glyphs ≤ length body.old.chars.items + length cursor.old.glyphs) }
    ensures value { OnOk result (reading_of cursor.new body.new ≡ spec.step_by (spec.is_backslash glyph) quote.is_raw glyph (reading_of cursor.old body.old)) }
    ensures follows { Follows cursor.old cursor.new }
    ensures fewer { OnOk result (length cursor.new.glyphs ≤ length cursor.old.glyphs - 1) }
{
    match glyph {
        Glyph::Char('\\') if quote.is_raw => kept(cursor, body),
        Glyph::Char('\\') => escape(cursor, body),
        _ => plain(cursor, glyph, body),
    }
}

/// Reads the string that begins here into `body`. The answer is whether it ends.
pub fn quoted(cursor: &mut Cursor, body: &mut Body) -> Result<bool, NoMemory>
    ensures few { OnOk result (length body.new.chars.items + length cursor.new.glyphs ≤ length body.old.chars.items + length cursor.old.glyphs) }
    ensures value { IfOk result (λ ended. spec.Scans (reading_of cursor.old body.old) ended (reading_of cursor.new body.new)) }
    ensures follows { Follows cursor.old cursor.new }
    ensures fewer { length cursor.new.glyphs ≤ length cursor.old.glyphs - 1 }
{
    let quote = open(cursor);
    while let Some(glyph) = cursor.peek() {
        if close(cursor, quote) {
            return Ok(true);
        }
        step(cursor, quote, glyph, body)?;
    }
    Ok(false)
}
