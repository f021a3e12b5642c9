//! The steps over a file.
ghost use Rattle.std.specs.Prelude.{◌≡◌, ◌≢◌, ◌<◌, ◌≤◌, ◌+◌, ◌-◌, ◌*◌, ◌&&◌, ◌++◌, OnOk, List, [], ℕ, true, false, IfOk, IfErr, IfSome, IsTrue, Some, None, length, slice_get};
ghost use Rattle.gd_lexer.specs.declared.lexer.Start.TheVariants as starts;
ghost use Rattle.gd_lexer.specs.Token.{IsToken, IsInnerOf, IsFaultOf};
ghost use Rattle.gd_lexis.specs.declared.glyph.Glyph.TheVariants.{Char};
ghost use Rattle.gd_lexer.specs.Start as spec;
ghost use Rattle.gd_lexis.specs.declared.glyph.Glyph.{Glyph};
ghost use Rattle.gd_lexis.specs.Lexemes.{IsFileFrom};
ghost use Rattle.gd_lexer.specs.Cursor.{sees};
ghost use Rattle.gd_lexer.specs.Cut.{IsCommentText, GoesOn, code_of};
ghost use Rattle.gd_lexer.specs.Begun.{newline_if};
ghost use Rattle.gd_lexer.specs.Brackets.{items_of, items_after, ended_if, role_of, FitsBy, IsRefusal};
ghost use Rattle.gd_lexer.specs.Laid.{Holds, Reads, AreLaid};
ghost use Rattle.gd_lexer.specs.Opening.{AreClosed, Opens, Deepens, KeepsRest};
ghost use Rattle.gd_lexer.specs.Lines.{KeepsLine};
ghost use Rattle.gd_lexis.specs.Lines.{innermost};
ghost use Rattle.gd_lexer.specs.Lexical.{is_lexical};
ghost use Rattle.gd_lexer.specs.FirstFaults.{Strays, StopsInText, KeepsTrail, Trails, IsFirstFrom, IsWant, Unopened, Undeepened};
ghost use Rattle.gd_lexer.specs.Found.{IsNotEnd, AreWhole};
ghost use Rattle.gd_lexer.specs.Noted.{Notes, KeepsNotes, KeepsSpelled, IsNoted, span_if};
ghost use Rattle.gd_lexer.specs.Sound.{IsSound, IsPlaced, load, count_of_line};
ghost use Rattle.gd_lexer.specs.Follows.{Follows};

use crate::brackets::Brackets;
use crate::cursor::Cursor;
use crate::found::{Found, Span, Whole};
use crate::lines::{Blank, Lines};
use crate::mark::mark;
use crate::name::{begins_name, read_name};
use crate::number::number;
use crate::quoted::{Body, is_quote, quoted};
use crate::recent::Recent;
use crate::stop::{Fault, Stop, fault_at};
use crate::stopped::stop_at;
use crate::word::{Word, word_of};
use gd_lexis::Glyph;
use gd_rules::Rule;
use gd_syntax::{Mark, Pos, TokenKind};
use no_memory::NoMemory;
use std::alloc::Global;

/// How a token begins.
#[derive(Clone, Copy, Debug, PartialEq, Eq)]
enum Start {
    Name(char),
    Number,
    Quoted,
    Mark(Mark, u8),
    /// A dot before a digit.
    Float,
}

/// Fewer bytes than a token and the blanks before it have on average, so that the list of tokens seldom moves.
const BYTES_OF_A_TOKEN: usize = 3;

/// A file that is read.
#[derive(Drop)]
pub struct Lexer<'a> {
    cursor: Cursor<'a>,
    lines: Lines,
    brackets: Brackets,
    found: Found,
    /// What is read of the next token.
    body: Body,
    recent: Recent,
}

/// A token's kind, and the first fault inside it.
type Scanned = (TokenKind, Option<Fault>);

/// How a token begins with this character at the cursor, or `None` where none does.
fn start_of(c: char, cursor: &Cursor) -> Option<Start>
    ensures { result ≡ spec.start_by c cursor.now.glyphs }
{
    if c.is_ascii_digit() {
        return Some(Start::Number);
    }
    if opens_string(c, cursor) {
        return Some(Start::Quoted);
    }
    if begins_name(c) {
        return Some(Start::Name(c));
    }
    if c == '.' && is_digit(cursor.second()) {
        return Some(Start::Float);
    }
    let (mark, count) = mark(c, cursor)?;
    Some(Start::Mark(mark, count))
}

/// Whether a string begins with this character at the cursor.
fn opens_string(c: char, cursor: &Cursor) -> bool
    ensures { result ≡ spec.opens_string c cursor.now.glyphs }
{
    is_quote(c) || (c == 'r' && (cursor.sees_second('"') || cursor.sees_second('\'')))
}

fn is_digit(glyph: Option<Glyph>) -> bool
    ensures { result ≡ spec.is_digit glyph }
{
    match glyph {
        Some(Glyph::Char(c)) => c.is_ascii_digit(),
        _ => false,
    }
}

impl<'a> Lexer<'a> {
    /// At the start of a file.
    pub fn new(alloc: Global, file: u32, bytes: &'a [u8]) -> Lexer<'a>
        requires { length bytes.now ≤ 1_048_576 }
        ensures sound { IsSound result }
        ensures file { result.found.last.file ≡ file }
        ensures size { result.cursor.offset + result.cursor.left ≡ length bytes.now }
        ensures read { IsFileFrom bytes.now result.cursor.offset result.cursor.glyphs }
        ensures holds { Holds file result.cursor.glyphs result }
        ensures trails { Trails file result.cursor.glyphs result }
        ensures notes { Notes file result.cursor.offset result.cursor.glyphs result }
    {
        let cursor = Cursor::new(file, bytes);
        let found = Found::new(alloc, cursor.pos(), bytes.len() / BYTES_OF_A_TOKEN);
        Lexer {
            cursor,
            lines: Lines::new(alloc),
            brackets: Brackets::new(alloc),
            found,
            body: Body::new(alloc),
            recent: Recent::new(alloc),
        }
    }

    /// Reads the file to its end.
    pub fn run(mut self) -> Result<Whole, Stop>
        requires { IsSound self }
        ensures whole { IfOk result (λ w. AreWhole self.entry.found.last.file w.tokens.items) }
        ensures count { IfOk result (λ w. length w.tokens.items ≤ 4 * (self.entry.cursor.offset + self.entry.cursor.left) + 1) }
        ensures spanned { IfOk result (λ w. length w.tokens.items ≤ length w.spans.items) }
        ensures laid { IfOk result (λ w. (file : ℕ) (all : List Glyph) → Holds file all self.entry → AreLaid file all w.tokens.items) }
        ensures noted { IfOk result (λ w. (file : ℕ) (first : ℕ) (all : List Glyph) → Notes file first all self.entry → IsNoted file first all w) }
        ensures first { IfErr result (IsFirstFrom self.entry) }
    {
        while let Some(glyph) = self.cursor.peek() {
            self.step(glyph)?;
        }
        self.finish()
    }

    /// Goes over the next glyph, and over the token or comment that begins with it.
    fn step(&mut self, glyph: Glyph) -> Result<(), Stop>
        requires sound { IsSound self.old }
        requires head { Some glyph ≡ slice_get self.old.cursor.glyphs 0 }
        requires more { 0 < length self.old.cursor.glyphs }
        ensures sound { OnOk result (IsSound self.new) }
        ensures reads { OnOk result (Reads self.old self.new) }
        ensures trails { OnOk result (KeepsTrail self.old self.new) }
        ensures notes { OnOk result (KeepsNotes self.old self.new) }
        ensures first { IfErr result (IsFirstFrom self.old) }
        ensures follows { Follows self.old.cursor self.new.cursor }
        ensures fewer { OnOk result (length self.new.cursor.glyphs ≤ length self.old.cursor.glyphs - 1) }
    {
        match glyph {
            Glyph::Char(c) => self.character(c),
            Glyph::Bad(_) => self.stray(Rule::NotUtf8),
        }
    }

    /// Goes over this character, and over the token or comment that begins with it.
    fn character(&mut self, c: char) -> Result<(), Stop>
        requires sound { IsSound self.old }
        requires head { Some (Char c) ≡ slice_get self.old.cursor.glyphs 0 }
        requires more { 0 < length self.old.cursor.glyphs }
        ensures sound { OnOk result (IsSound self.new) }
        ensures reads { OnOk result (Reads self.old self.new) }
        ensures trails { OnOk result (KeepsTrail self.old self.new) }
        ensures notes { OnOk result (KeepsNotes self.old self.new) }
        ensures first { IfErr result (IsFirstFrom self.old) }
        ensures follows { Follows self.old.cursor self.new.cursor }
        ensures fewer { OnOk result (length self.new.cursor.glyphs ≤ length self.old.cursor.glyphs - 1) }
    {
        match c {
            ' ' => {
                self.blank(Blank::Space);
                Ok(())
            }
            '\t' => {
                self.blank(Blank::Tab);
                Ok(())
            }
            '\n' => self.line_end(),
            '#' => self.comment(),
            '\\' => self.join(),
            '\r' if self.cursor.sees_second('\n') => {
                self.carriage_return();
                Ok(())
            }
            _ => self.other(c),
        }
    }

    /// Goes over a carriage return before its line feed.
    fn carriage_return(&mut self)
        requires sound { IsSound self.old }
        requires head { Some (Char 13) ≡ slice_get self.old.cursor.glyphs 0 }
        requires feed { sees 10 self.old.cursor.glyphs 1 ≡ true }
        ensures sound { IsSound self.new }
        ensures reads { Reads self.old self.new }
        ensures trails { KeepsTrail self.old self.new }
        ensures notes { KeepsNotes self.old self.new }
        ensures follows { Follows self.old.cursor self.new.cursor }
        ensures fewer { length self.new.cursor.glyphs ≡ length self.old.cursor.glyphs - 1 }
    {
        self.cursor.advance();
    }

    fn blank(&mut self, blank: Blank)
        requires sound { IsSound self.old }
        requires head { Some (Char (code_of blank)) ≡ slice_get self.old.cursor.glyphs 0 }
        ensures sound { IsSound self.new }
        ensures reads { Reads self.old self.new }
        ensures trails { KeepsTrail self.old self.new }
        ensures notes { KeepsNotes self.old self.new }
        ensures follows { Follows self.old.cursor self.new.cursor }
        ensures fewer { length self.new.cursor.glyphs ≡ length self.old.cursor.glyphs - 1 }
    {
        self.lines.blank(blank, self.cursor.pos());
        self.cursor.advance();
    }

    /// Goes over a glyph that begins no token.
    fn stray(&mut self, rule: Rule) -> Result<(), Stop>
        requires lexical { IsTrue (is_lexical rule) }
        requires strays { Strays rule self.old.cursor.glyphs }
        requires sound { IsSound self.old }
        ensures sound { OnOk result (IsSound self.new) }
        ensures reads { OnOk result (Reads self.old self.new) }
        ensures trails { OnOk result (KeepsTrail self.old self.new) }
        ensures notes { OnOk result (KeepsNotes self.old self.new) }
        ensures first { IfErr result (IsFirstFrom self.old) }
        ensures follows { Follows self.old.cursor self.new.cursor }
        ensures fewer { OnOk result (length self.new.cursor.glyphs ≤ length self.old.cursor.glyphs - 1) }
    {
        self.lines.stray(fault_at(self.cursor.pos(), rule))?;
        self.cursor.advance();
        Ok(())
    }

    /// Goes over a backslash, which joins two lines or is a fault.
    fn join(&mut self) -> Result<(), Stop>
        requires sound { IsSound self.old }
        requires head { Some (Char 92) ≡ slice_get self.old.cursor.glyphs 0 }
        ensures sound { OnOk result (IsSound self.new) }
        ensures reads { OnOk result (Reads self.old self.new) }
        ensures trails { OnOk result (KeepsTrail self.old self.new) }
        ensures notes { OnOk result (KeepsNotes self.old self.new) }
        ensures first { IfErr result (IsFirstFrom self.old) }
        ensures follows { Follows self.old.cursor self.new.cursor }
        ensures fewer { OnOk result (length self.new.cursor.glyphs ≤ length self.old.cursor.glyphs - 1) }
    {
        let is_joined = self.cursor.sees_second('\n');
        if is_joined {
            self.cursor.advance_two();
            return Ok(());
        }
        let is_joined_behind_return = self.sees_line_end();
        if is_joined_behind_return {
            self.cursor.advance_three();
            return Ok(());
        }
        self.stray(Rule::StrayCharacter)
    }

    /// Whether a carriage return and its line feed come after the next glyph.
    fn sees_line_end(&self) -> bool
        ensures { result ≡ (sees 13 self.now.cursor.glyphs 1 && sees 10 self.now.cursor.glyphs 2) }
    {
        self.cursor.sees_second('\r') && self.cursor.sees_third('\n')
    }

    /// Goes over a comment with its `#`, up to the line's end.
    fn comment(&mut self) -> Result<(), Stop>
        requires sound { IsSound self.old }
        requires head { Some (Char 35) ≡ slice_get self.old.cursor.glyphs 0 }
        ensures sound { OnOk result (IsSound self.new) }
        ensures reads { OnOk result (Reads self.old self.new) }
        ensures trails { OnOk result (KeepsTrail self.old self.new) }
        ensures notes { OnOk result (KeepsNotes self.old self.new) }
        ensures first { IfErr result (IsFirstFrom self.old) }
        ensures follows { Follows self.old.cursor self.new.cursor }
        ensures fewer { OnOk result (length self.new.cursor.glyphs ≤ length self.old.cursor.glyphs - 1) }
    {
        self.lines.comment()?;
        let start = self.cursor.offset();
        self.cursor.advance();
        self.comment_text()?;
        let end = self.cursor.offset();
        self.found.comment(Span { start, end })?;
        Ok(())
    }

    /// Goes over the rest of a comment, up to the line's end.
    fn comment_text(&mut self) -> Result<(), Stop>
        ensures fault { IfErr result (StopsInText self.old.cursor) }
        ensures text { OnOk result (IsCommentText self.old.cursor.glyphs self.new.cursor.glyphs) }
        ensures follows { Follows self.old.cursor self.new.cursor }
        ensures keeps { KeepsRest self.old self.new }
    {
        'text: while self.is_in_comment()? {
            self.cursor.advance();
        }
        Ok(())
    }

    /// Whether a character of a comment comes next, and not the end of its line.
    fn is_in_comment(&self) -> Result<bool, Stop>
        ensures goes { IfOk result (λ b. GoesOn b self.now.cursor.glyphs) }
        ensures fault { IfErr result (StopsInText self.now.cursor) }
    {
        match self.cursor.peek() {
            None => Ok(false),
            Some(Glyph::Char('\n')) => Ok(false),
            Some(Glyph::Char('\r')) if !self.cursor.sees_second('\n') => {
                Err(stop_at(self.cursor.pos(), Rule::StrayCharacter))
            }
            Some(Glyph::Char(_)) => Ok(true),
            Some(Glyph::Bad(_)) => Err(stop_at(self.cursor.pos(), Rule::NotUtf8)),
        }
    }

    /// Goes over a line feed. Inside brackets it is a blank.
    fn line_end(&mut self) -> Result<(), Stop>
        requires sound { IsSound self.old }
        requires head { Some (Char 10) ≡ slice_get self.old.cursor.glyphs 0 }
        ensures sound { OnOk result (IsSound self.new) }
        ensures reads { OnOk result (Reads self.old self.new) }
        ensures trails { OnOk result (KeepsTrail self.old self.new) }
        ensures notes { OnOk result (KeepsNotes self.old self.new) }
        ensures first { IfErr result (IsFirstFrom self.old) }
        ensures follows { Follows self.old.cursor self.new.cursor }
        ensures fewer { OnOk result (length self.new.cursor.glyphs ≤ length self.old.cursor.glyphs - 1) }
    {
        let pos = self.cursor.pos();
        let start = self.cursor.offset();
        self.cursor.advance();
        if self.brackets.is_inside() {
            return Ok(());
        }
        let end = self.cursor.offset();
        self.newline(pos, Span { start, end })?;
        self.lines.end()?;
        Ok(())
    }

    /// Ends the line with Newline at `pos`, of these bytes, if it has a token.
    fn newline(&mut self, pos: Pos, span: Span) -> Result<(), Stop>
        requires { IsPlaced self.old pos }
        ensures placed { OnOk result (IsPlaced self.new pos) }
        ensures count { OnOk result (length self.new.found.tokens ≤ length self.old.found.tokens + count_of_line self.old.lines.is_open) }
        ensures newline { OnOk result (self.new.found.tokens ≡ self.old.found.tokens ++ newline_if self.old.lines.is_open pos) }
        ensures items { OnOk result (items_of self.new.brackets ≡ ended_if self.old.lines.is_open (items_of self.old.brackets)) }
        ensures spans { OnOk result (self.new.found.spans ≡ self.old.found.spans ++ span_if self.old.lines.is_open span) }
        ensures comments { self.new.found.comments ≡ self.old.found.comments }
        ensures lines { self.new.lines ≡ self.old.lines }
        ensures cursor { self.new.cursor ≡ self.old.cursor }
        ensures want { IfErr result IsWant }
    {
        if !self.lines.is_open() {
            return Ok(());
        }
        self.found.push(pos, TokenKind::Newline, span)?;
        self.brackets.end_item();
        Ok(())
    }

    /// Goes over the token that begins with this character, or over a character that begins none.
    #[tactic(auto, unfolding(crate::specs::Start::start_at))]
    fn other(&mut self, c: char) -> Result<(), Stop>
        requires plain { (c ≢ 32) × (c ≢ 9) × (c ≢ 10) × (c ≢ 35) × (c ≢ 92) }
        requires lone { c ≡ 13 → sees 10 self.old.cursor.glyphs 1 ≡ false }
        requires sound { IsSound self.old }
        requires head { Some (Char c) ≡ slice_get self.old.cursor.glyphs 0 }
        requires more { 0 < length self.old.cursor.glyphs }
        ensures sound { OnOk result (IsSound self.new) }
        ensures reads { OnOk result (Reads self.old self.new) }
        ensures trails { OnOk result (KeepsTrail self.old self.new) }
        ensures notes { OnOk result (KeepsNotes self.old self.new) }
        ensures first { IfErr result (IsFirstFrom self.old) }
        ensures follows { Follows self.old.cursor self.new.cursor }
        ensures fewer { OnOk result (length self.new.cursor.glyphs ≤ length self.old.cursor.glyphs - 1) }
    {
        match start_of(c, &self.cursor) {
            Some(start) => self.token(start),
            None => self.stray(Rule::StrayCharacter),
        }
    }

    /// Goes over a token. The faults at its place come by their rules, before those inside it.
    fn token(&mut self, start: Start) -> Result<(), Stop>
        requires sound { IsSound self.old }
        requires starts { Some start ≡ spec.start_at self.old.cursor.glyphs }
        requires more { 0 < length self.old.cursor.glyphs }
        ensures sound { OnOk result (IsSound self.new) }
        ensures reads { OnOk result (Reads self.old self.new) }
        ensures trails { OnOk result (KeepsTrail self.old self.new) }
        ensures notes { OnOk result (KeepsNotes self.old self.new) }
        ensures first { IfErr result (IsFirstFrom self.old) }
        ensures follows { Follows self.old.cursor self.new.cursor }
        ensures fewer { OnOk result (length self.new.cursor.glyphs ≤ length self.old.cursor.glyphs - 1) }
    {
        let pos = self.cursor.pos();
        let at = self.cursor.offset();
        let deeper = self.open_line(pos, at)?;
        let (kind, inner) = self.scan(start, pos)?;
        self.take(&kind, pos)?;
        self.deepen(deeper, pos, at)?;
        if let Some(fault) = inner {
            return Err(Stop::Fault(fault));
        }
        let span = Span {
            start: at,
            end: self.cursor.offset(),
        };
        self.found.push(pos, kind, span)?;
        Ok(())
    }

    /// Opens the block at this level, if there is one to open, before the token at `pos`.
    fn deepen(&mut self, deeper: Option<u32>, pos: Pos, at: u32) -> Result<(), Stop>
        requires { IsPlaced self.old pos }
        ensures placed { OnOk result (IsPlaced self.new pos) }
        ensures load { OnOk result (load self.new ≤ load self.old + 2) }
        ensures cursor { self.new.cursor ≡ self.old.cursor }
        ensures spelled { OnOk result (KeepsSpelled pos at self.old.found self.new.found) }
        ensures comments { self.new.found.comments ≡ self.old.found.comments }
        ensures deeper { OnOk result (Deepens deeper pos self.old self.new) }
        ensures fault { IfErr result (Undeepened deeper pos self.old) }
    {
        let Some(level) = deeper else {
            return Ok(());
        };
        self.lines.open_block(level, pos)?;
        self.found.push_empty(pos, TokenKind::Indent, at)?;
        Ok(())
    }

    /// Begins a logical line where the token at `pos` is its first, and closes the blocks that end before it.
    /// The answer is the level of a block that begins with it.
    fn open_line(&mut self, pos: Pos, at: u32) -> Result<Option<u32>, Stop>
        requires { IsPlaced self.old pos }
        ensures placed { OnOk result (IsPlaced self.new pos) }
        ensures load { OnOk result (load self.new ≤ load self.old + 1) }
        ensures cursor { self.new.cursor ≡ self.old.cursor }
        ensures spelled { OnOk result (KeepsSpelled pos at self.old.found self.new.found) }
        ensures comments { self.new.found.comments ≡ self.old.found.comments }
        ensures opens { IfOk result (λ deeper. Opens self.old.lines.is_open deeper pos self.old self.new) }
        ensures fault { IfErr result (Unopened pos self.old) }
    {
        if self.lines.is_open() {
            return Ok(None);
        }
        let level = self.lines.open()?;
        if level > self.lines.level() {
            return Ok(Some(level));
        }
        self.close_blocks(level, pos, at)?;
        if level != self.lines.level() {
            return Err(stop_at(pos, Rule::UnmatchedDedent));
        }
        Ok(None)
    }

    /// Closes the blocks above this level before the token at `pos`.
    fn close_blocks(&mut self, level: u32, pos: Pos, at: u32) -> Result<(), Stop>
        requires { IsPlaced self.old pos }
        ensures placed { OnOk result (IsPlaced self.new pos) }
        ensures load { OnOk result (load self.new ≤ load self.old) }
        ensures cursor { self.new.cursor ≡ self.old.cursor }
        ensures closed { OnOk result (AreClosed level pos self.old.lines.blocks self.new.lines.blocks self.old.found.tokens self.new.found.tokens) }
        ensures low { OnOk result (innermost self.new.lines.blocks ≤ level) }
        ensures line { KeepsLine self.old.lines self.new.lines }
        ensures spelled { OnOk result (KeepsSpelled pos at self.old.found self.new.found) }
        ensures comments { self.new.found.comments ≡ self.old.found.comments }
        ensures brackets { self.new.brackets ≡ self.old.brackets }
        ensures want { IfErr result IsWant }
    {
        'above: while level < self.lines.level() {
            self.lines.close_block();
            self.found.push_empty(pos, TokenKind::Dedent, at)?;
        }
        Ok(())
    }

    fn take(&mut self, kind: &TokenKind, pos: Pos) -> Result<(), Stop>
        requires line { 1 ≤ pos.line }
        requires column { 1 ≤ pos.column }
        ensures cursor { self.new.cursor ≡ self.old.cursor }
        ensures found { self.new.found ≡ self.old.found }
        ensures lines { self.new.lines ≡ self.old.lines }
        ensures items { OnOk result (items_of self.new.brackets ≡ items_after kind.now (items_of self.old.brackets)) }
        ensures room { OnOk result (FitsBy (role_of kind.now) (items_of self.old.brackets)) }
        ensures refused { IfErr result (IsRefusal pos (role_of kind.now) (items_of self.old.brackets)) }
    {
        self.brackets.take(kind, pos)
    }

    /// Goes over the token that begins so at `pos`.
    fn scan(&mut self, start: Start, pos: Pos) -> Result<Scanned, Stop>
        requires starts { Some start ≡ spec.start_at self.old.cursor.glyphs }
        requires few { length self.old.cursor.glyphs ≤ 1_048_576 }
        requires line { 1 ≤ pos.line }
        requires column { 1 ≤ pos.column }
        ensures token { IfOk result (λ r. r.1 ≡ None → IsToken r.0 self.old.cursor.glyphs self.new.cursor.glyphs) }
        ensures inner { IfOk result (λ r. IfSome r.1 (IsInnerOf r.0 self.old.cursor)) }
        ensures fault { IfErr result (IsFaultOf pos self.old.cursor.glyphs) }
        ensures keeps { KeepsRest self.old self.new }
        ensures kind { IfOk result (λ r. IsNotEnd r.0) }
        ensures follows { Follows self.old.cursor self.new.cursor }
        ensures fewer { OnOk result (length self.new.cursor.glyphs ≤ length self.old.cursor.glyphs - 1) }
    {
        match start {
            Start::Name(c) => self.name(c, pos),
            Start::Quoted => self.quoted(pos),
            Start::Number => self.number(pos),
            Start::Mark(mark, count) => Ok((self.mark(mark, count), None)),
            Start::Float => Err(self.float(pos)),
        }
    }

    /// Goes over a number.
    #[tactic(auto, using(crate::proofs::StartsLemmas::number_here))]
    fn number(&mut self, pos: Pos) -> Result<Scanned, Stop>
        requires starts { Some starts.Number ≡ spec.start_at self.old.cursor.glyphs }
        requires line { 1 ≤ pos.line }
        requires column { 1 ≤ pos.column }
        ensures token { IfOk result (λ r. r.1 ≡ None → IsToken r.0 self.old.cursor.glyphs self.new.cursor.glyphs) }
        ensures inner { IfOk result (λ r. IfSome r.1 (IsInnerOf r.0 self.old.cursor)) }
        ensures fault { IfErr result (IsFaultOf pos self.old.cursor.glyphs) }
        ensures keeps { KeepsRest self.old self.new }
        ensures kind { IfOk result (λ r. IsNotEnd r.0) }
        ensures follows { Follows self.old.cursor self.new.cursor }
        ensures fewer { OnOk result (length self.new.cursor.glyphs ≤ length self.old.cursor.glyphs - 1) }
    {
        match number(&mut self.cursor) {
            Ok(value) => Ok((TokenKind::Number(value), None)),
            Err(rule) => Err(stop_at(pos, rule)),
        }
    }

    /// The fault of a dot before a digit.
    fn float(&self, pos: Pos) -> Stop
        requires starts { Some starts.Float ≡ spec.start_at self.now.cursor.glyphs }
        requires line { 1 ≤ pos.line }
        requires column { 1 ≤ pos.column }
        ensures { IsFaultOf pos self.now.cursor.glyphs result }
    {
        stop_at(pos, Rule::Float)
    }

    /// Goes over this mark of so many characters.
    fn mark(&mut self, mark: Mark, count: u8) -> TokenKind
        requires starts { Some (starts.Mark mark count) ≡ spec.start_at self.old.cursor.glyphs }
        ensures token { IsToken result self.old.cursor.glyphs self.new.cursor.glyphs }
        ensures kind { IsNotEnd result }
        ensures keeps { KeepsRest self.old self.new }
        ensures follows { Follows self.old.cursor self.new.cursor }
        ensures fewer { length self.new.cursor.glyphs ≤ length self.old.cursor.glyphs - 1 }
    {
        self.advance_by(count);
        TokenKind::Mark(mark)
    }

    /// Goes over the characters of a mark, one to three.
    fn advance_by(&mut self, count: u8)
        ensures rest { self.new.cursor.glyphs ≡ spec.behind_mark count self.old.cursor.glyphs }
        ensures keeps { KeepsRest self.old self.new }
        ensures follows { Follows self.old.cursor self.new.cursor }
        ensures fewer { length self.new.cursor.glyphs ≤ length self.old.cursor.glyphs - 1 }
    {
        match count {
            3 => self.cursor.advance_three(),
            2 => self.cursor.advance_two(),
            _ => self.cursor.advance(),
        }
    }

    fn name(&mut self, c: char, pos: Pos) -> Result<Scanned, Stop>
        requires starts { Some (starts.Name c) ≡ spec.start_at self.old.cursor.glyphs }
        requires few { length self.old.cursor.glyphs ≤ 1_048_576 }
        requires line { 1 ≤ pos.line }
        requires column { 1 ≤ pos.column }
        ensures token { IfOk result (λ r. r.1 ≡ None → IsToken r.0 self.old.cursor.glyphs self.new.cursor.glyphs) }
        ensures inner { IfOk result (λ r. IfSome r.1 (IsInnerOf r.0 self.old.cursor)) }
        ensures fault { IfErr result (IsFaultOf pos self.old.cursor.glyphs) }
        ensures keeps { KeepsRest self.old self.new }
        ensures kind { IfOk result (λ r. IsNotEnd r.0) }
        ensures follows { Follows self.old.cursor self.new.cursor }
        ensures fewer { OnOk result (length self.new.cursor.glyphs ≤ length self.old.cursor.glyphs - 1) }
    {
        self.body.clear();
        self.body.push(c)?;
        self.cursor.advance();
        read_name(&mut self.cursor, &mut self.body.chars)?;
        match word_of(self.body.chars.as_slice()) {
            Word::Name => {
                let text = self.recent.text(self.body.chars.as_slice())?;
                Ok((TokenKind::Word(text), None))
            }
            Word::Keyword(keyword) => Ok((TokenKind::Keyword(keyword), None)),
            Word::Float => Err(stop_at(pos, Rule::Float)),
        }
    }

    /// Goes over a string.
    fn quoted(&mut self, pos: Pos) -> Result<Scanned, Stop>
        requires starts { Some starts.Quoted ≡ spec.start_at self.old.cursor.glyphs }
        requires few { length self.old.cursor.glyphs ≤ 1_048_576 }
        requires line { 1 ≤ pos.line }
        requires column { 1 ≤ pos.column }
        ensures token { IfOk result (λ r. r.1 ≡ None → IsToken r.0 self.old.cursor.glyphs self.new.cursor.glyphs) }
        ensures inner { IfOk result (λ r. IfSome r.1 (IsInnerOf r.0 self.old.cursor)) }
        ensures fault { IfErr result (IsFaultOf pos self.old.cursor.glyphs) }
        ensures keeps { KeepsRest self.old self.new }
        ensures kind { IfOk result (λ r. IsNotEnd r.0) }
        ensures follows { Follows self.old.cursor self.new.cursor }
        ensures fewer { OnOk result (length self.new.cursor.glyphs ≤ length self.old.cursor.glyphs - 1) }
    {
        self.body.clear();
        let is_ended = quoted(&mut self.cursor, &mut self.body)?;
        let fault = self.body.fault;
        if !is_ended {
            return Err(stop_at(pos, Rule::UnterminatedString));
        }
        let text = self.recent.text(self.body.chars.as_slice())?;
        Ok((TokenKind::Quoted(text), fault))
    }

    /// Ends the last line and the open blocks.
    fn finish(mut self) -> Result<Whole, Stop>
        requires { IsSound self }
        ensures whole { IfOk result (λ w. AreWhole self.entry.cursor.pos.file w.tokens.items) }
        ensures count { IfOk result (λ w. length w.tokens.items ≤ load self.entry + 1) }
        ensures spanned { IfOk result (λ w. length w.tokens.items ≤ length w.spans.items) }
        ensures laid { IfOk result (λ w. (file : ℕ) (all : List Glyph) → Holds file all self.entry → self.entry.cursor.glyphs ≡ [] → AreLaid file all w.tokens.items) }
        ensures noted { IfOk result (λ w. (file : ℕ) (first : ℕ) (all : List Glyph) → Notes file first all self.entry → self.entry.cursor.glyphs ≡ [] → IsNoted file first all w) }
        ensures first { IfErr result (λ stop. self.entry.cursor.glyphs ≡ [] → IsFirstFrom self.entry stop) }
    {
        let pos = self.cursor.pos();
        let at = self.cursor.offset();
        self.newline(pos, Span { start: at, end: at })?;
        self.lines.end()?;
        self.close_blocks(0, pos, at)?;
        let Lexer { found, .. } = self;
        Ok(found.finish(pos, at)?)
    }
}
