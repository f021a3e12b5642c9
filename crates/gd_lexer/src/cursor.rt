//! A place in a file, and what stands from there on.
ghost use Rattle.std.specs.Prelude.{◌≡◌, ◌+◌, ◌-◌, ◌^◌, ◌≤◌, ◌<◌, ◌++◌, length, drop, map, slice_get, All, OnSome, IfNone};
ghost use Rattle.std.specs.List.{prefix_len};
ghost use Rattle.gd_lexis.specs.declared.glyph.Glyph.TheVariants.{Char};
ghost use Rattle.gd_lexis.specs.Lexemes.{IsFileFrom};
ghost use Rattle.gd_lexis.specs.Words.{GoesOn};
ghost use Rattle.gd_lexer.specs.Cursor.{advanced, after_glyph, start_of, IsAt};
ghost use Rattle.gd_lexer.specs.Cursor as spec;
ghost use Rattle.gd_lexer.specs.Follows.{Follows};
ghost use Rattle.gd_lexer.specs.Name as name;

use crate::glyph;
use gd_lexis::Glyph;
use gd_syntax::Pos;
use std::marker::Model;

/// Reads the glyphs of a file in order.
#[derive(Drop)]
pub struct Cursor<'a> {
    rest: &'a [u8],
    offset: u32,
    pos: Pos,
}

impl<'a> Model for Cursor<'a> {
    ghost use Rattle.gd_lexer.specs.Cursor.{Spot};

    ghost Value = { Spot };

    ghost use Rattle.gd_lexer.specs.CursorView.{spot_of, IsInFile};

    ghost view = { spot_of };

    ghost invariant = { IsInFile };
}

impl<'a> Cursor<'a> {
    /// At the start of a file, behind a byte order mark if there is one.
    pub fn new(file: u32, bytes: &'a [u8]) -> Cursor<'a>
        requires { length bytes.now ≤ 1_048_576 }
        ensures value { result ≡ start_of file bytes.now }
        ensures file { IsFileFrom bytes.now result.offset result.glyphs }
        ensures place { IsAt file result.glyphs result }
    {
        Cursor::start(file, bytes)
    }

    fn start(file: u32, bytes: &'a [u8]) -> Cursor<'a>
        requires { length bytes.now ≤ 1_048_576 }
        ensures { result ≡ start_of file bytes.now }
    {
        let pos = Pos {
            file,
            line: 1,
            column: 1,
        };
        match bytes {
            [0xEF, 0xBB, 0xBF, rest @ ..] => Cursor {
                rest,
                offset: 3,
                pos,
            },
            _ => Cursor {
                rest: bytes,
                offset: 0,
                pos,
            },
        }
    }

    /// The place of the next glyph.
    pub fn pos(&self) -> Pos
        ensures value { result ≡ self.now.pos }
        ensures line { (1 ≤ result.line) × (result.line ≤ self.now.offset + 1) }
        ensures column { (1 ≤ result.column) × (result.column ≤ self.now.offset + 1) }
        ensures room { self.now.offset + self.now.left ≤ 1_048_576 }
    {
        self.pos
    }

    /// The number of bytes before the next glyph.
    pub fn offset(&self) -> u32
        ensures value { result ≡ self.now.offset }
        ensures room { result + self.now.left ≤ 1_048_576 }
        ensures few { length self.now.glyphs ≤ self.now.left }
    {
        self.offset
    }

    /// The next glyph, or `None` at the end.
    pub fn peek(&self) -> Option<Glyph>
        ensures value { result ≡ slice_get self.now.glyphs 0 }
        ensures some { OnSome result (0 < length self.now.glyphs) }
        ensures none { IfNone result (length self.now.glyphs ≡ 0) }
    {
        glyph::first(self.rest)
    }

    /// The glyph after the next.
    pub fn second(&self) -> Option<Glyph>
        ensures { result ≡ slice_get self.now.glyphs 1 }
    {
        glyph::first(glyph::after_first(self.rest))
    }

    /// The glyph after the next two.
    pub fn third(&self) -> Option<Glyph>
        ensures { result ≡ slice_get self.now.glyphs 2 }
    {
        glyph::first(glyph::after_first(glyph::after_first(self.rest)))
    }

    /// Whether this character comes next.
    pub fn sees(&self, c: char) -> bool
        ensures { result ≡ spec.sees c self.now.glyphs 0 }
    {
        is_char(self.peek(), c)
    }

    /// Whether this character comes after the next glyph.
    pub fn sees_second(&self, c: char) -> bool
        ensures { result ≡ spec.sees c self.now.glyphs 1 }
    {
        is_char(self.second(), c)
    }

    /// Whether this character comes after the next two glyphs.
    pub fn sees_third(&self, c: char) -> bool
        ensures { result ≡ spec.sees c self.now.glyphs 2 }
    {
        is_char(self.third(), c)
    }

    /// Goes over the next glyph. At the end nothing happens.
    #[inline(always)]
    pub fn advance(&mut self)
        ensures value { self.new ≡ advanced self.old }
        ensures rest { self.new.glyphs ≡ drop 1 self.old.glyphs }
        ensures follows { Follows self.old self.new }
        ensures fewer { length self.new.glyphs ≡ length self.old.glyphs - 1 }
    {
        // Most characters are ASCII, so that this part stands where it is called.
        match self.rest {
            [byte, ..] if *byte < 0x80 => {
                self.rest = glyph::behind(self.rest, 1);
                self.offset += 1;
                self.pos = after_char(self.pos, char::from(*byte));
            }
            _ => self.advance_any(),
        }
    }

    /// Goes over the next glyph, which may be any. At the end nothing happens.
    #[cold]
    #[inline(never)]
    fn advance_any(&mut self)
        ensures value { self.new ≡ advanced self.old }
        ensures rest { self.new.glyphs ≡ drop 1 self.old.glyphs }
        ensures follows { Follows self.old self.new }
        ensures fewer { length self.new.glyphs ≡ length self.old.glyphs - 1 }
    {
        let Some(glyph) = glyph::first(self.rest) else {
            return;
        };
        let width = glyph::width(glyph);
        self.rest = glyph::behind(self.rest, width);
        self.offset += width as u32;
        self.pos = after(self.pos, glyph);
    }

    /// Goes over the ASCII characters that come next with which a name goes on, and returns them. They are all in one
    /// line, and each is one byte.
    pub fn take_word(&mut self) -> &'a [u8]
        ensures glyphs { self.old.glyphs ≡ map Char result.now ++ self.new.glyphs }
        ensures word { All GoesOn result.now }
        ensures follows { Follows self.old self.new }
    {
        let count = word_length(self.rest);
        let word = &self.rest[..count];
        self.rest = glyph::behind(self.rest, count);
        self.offset += count as u32;
        self.pos.column += count as u32;
        word
    }

    /// Goes over the next two glyphs.
    pub fn advance_two(&mut self)
        ensures value { self.new ≡ advanced (advanced self.old) }
        ensures rest { self.new.glyphs ≡ drop 2 self.old.glyphs }
        ensures follows { Follows self.old self.new }
        ensures fewer { length self.new.glyphs ≡ length self.old.glyphs - 2 }
    {
        self.advance();
        self.advance();
    }

    /// Goes over the next three glyphs.
    pub fn advance_three(&mut self)
        ensures value { self.new ≡ advanced (advanced (advanced self.old)) }
        ensures rest { self.new.glyphs ≡ drop 3 self.old.glyphs }
        ensures follows { Follows self.old self.new }
        ensures fewer { length self.new.glyphs ≡ length self.old.glyphs - 3 }
    {
        self.advance();
        self.advance();
        self.advance();
    }
}

/// The number of bytes at the front that are ASCII characters with which a name goes on.
#[inline(always)]
fn word_length(bytes: &[u8]) -> usize
    ensures value { result ≡ prefix_len name.is_word_byte bytes.now }
    ensures fits { result ≤ length bytes.now }
{
    let mut count = 0;
    'word: while count < bytes.len() && is_word_byte(bytes[count]) {
        count += 1;
    }
    count
}

/// Whether the byte is an ASCII character with which a name goes on.
#[inline(always)]
#[tactic(auto, using(crate::proofs::NameLemmas::word_byte))]
fn is_word_byte(byte: u8) -> bool
    ensures { result ≡ name.is_word_byte byte }
{
    byte.is_ascii_alphanumeric() || byte == b'_'
}

/// Whether the glyph is this character.
fn is_char(glyph: Option<Glyph>, c: char) -> bool
    ensures { result ≡ spec.is_char glyph c }
{
    match glyph {
        Some(Glyph::Char(found)) => found == c,
        _ => false,
    }
}

/// The place behind a glyph.
fn after(pos: Pos, glyph: Glyph) -> Pos
    requires line { pos.line < 2 ^ 32 - 1 }
    requires column { pos.column < 2 ^ 32 - 1 }
    ensures { result ≡ after_glyph glyph pos }
{
    match glyph {
        Glyph::Char(c) => after_char(pos, c),
        Glyph::Bad(_) => next_column(pos),
    }
}

/// The place behind a character.
#[inline(always)]
fn after_char(pos: Pos, c: char) -> Pos
    requires line { pos.line < 2 ^ 32 - 1 }
    requires column { pos.column < 2 ^ 32 - 1 }
    ensures { result ≡ spec.after_char c pos }
{
    if c == '\n' {
        Pos {
            file: pos.file,
            line: pos.line + 1,
            column: 1,
        }
    } else {
        next_column(pos)
    }
}

/// The next place in a line.
#[inline(always)]
fn next_column(pos: Pos) -> Pos
    requires column { pos.column < 2 ^ 32 - 1 }
    ensures { result ≡ record { file = pos.file; line = pos.line; column = pos.column + 1 } }
{
    Pos {
        file: pos.file,
        line: pos.line,
        column: pos.column + 1,
    }
}
