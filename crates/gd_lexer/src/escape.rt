//! The escapes of a string.
ghost use Rattle.std.specs.Prelude.{◌≡◌, ◌<◌, ◌≤◌, ◌+◌, ◌-◌, ◌*◌, IfSome, IfOk, OnOk, length, List, [], ◌∷◌, ◌++◌};
ghost use Rattle.gd_lexis.specs.Strings as strings;
ghost use Rattle.gd_lexer.specs.Cursor.{Spot};
ghost use Rattle.gd_lexer.specs.Escape as spec;
ghost use Rattle.gd_lexer.specs.Follows.{Follows};

use crate::cursor::Cursor;
use crate::quoted::Body;
use crate::stop::fault_at;
use gd_lexis::Glyph;
use gd_rules::Rule;
use gd_syntax::Pos;
use no_memory::NoMemory;

/// The character that a backslash with this character stands for.
fn simple(c: char) -> Option<char>
    ensures { result ≡ strings.simple c }
{
    match c {
        'n' => Some('\n'),
        't' => Some('\t'),
        'r' => Some('\r'),
        'a' => Some('\u{7}'),
        'b' => Some('\u{8}'),
        'f' => Some('\u{C}'),
        'v' => Some('\u{B}'),
        '"' | '\'' | '\\' => Some(c),
        _ => None,
    }
}

/// Goes over a hexadecimal digit for its value, or stays where none stands here.
#[tactic(auto, unfolding(crate::specs::Escape::hex_digit))]
fn hex_digit(cursor: &mut Cursor) -> Option<u32>
    ensures value { result ≡ (spec.hex_digit cursor.old).value }
    ensures at { cursor.new ≡ (spec.hex_digit cursor.old).at }
    ensures follows { Follows cursor.old cursor.new }
    ensures small { IfSome result (λ d. d < 16) }
{
    let Some(Glyph::Char(c)) = cursor.peek() else {
        return None;
    };
    let digit = c.to_digit(16)?;
    cursor.advance();
    Some(digit)
}

/// Goes over two hexadecimal digits for their value. Where there are fewer, only those are gone over.
#[tactic(auto, unfolding(crate::specs::Escape::hex_pair))]
fn hex_pair(cursor: &mut Cursor) -> Option<u32>
    ensures value { result ≡ (spec.hex_pair cursor.old).value }
    ensures at { cursor.new ≡ (spec.hex_pair cursor.old).at }
    ensures follows { Follows cursor.old cursor.new }
    ensures small { IfSome result (λ n. n < 256) }
{
    let high = hex_digit(cursor)?;
    let low = hex_digit(cursor)?;
    Some(high * 16 + low)
}

/// Goes over four hexadecimal digits for their value. Where there are fewer, only those are gone over.
#[tactic(auto, unfolding(crate::specs::Escape::hex_four))]
fn hex_four(cursor: &mut Cursor) -> Option<u32>
    ensures value { result ≡ (spec.hex_four cursor.old).value }
    ensures at { cursor.new ≡ (spec.hex_four cursor.old).at }
    ensures follows { Follows cursor.old cursor.new }
    ensures small { IfSome result (λ n. n < 65536) }
{
    let high = hex_pair(cursor)?;
    let low = hex_pair(cursor)?;
    Some(high * 256 + low)
}

/// Goes over six hexadecimal digits for their value. Where there are fewer, only those are gone over.
#[tactic(auto, unfolding(crate::specs::Escape::hex_six))]
fn hex_six(cursor: &mut Cursor) -> Option<u32>
    ensures value { result ≡ (spec.hex_six cursor.old).value }
    ensures at { cursor.new ≡ (spec.hex_six cursor.old).at }
    ensures follows { Follows cursor.old cursor.new }
    ensures small { IfSome result (λ n. n < 16777216) }
{
    let high = hex_four(cursor)?;
    let low = hex_pair(cursor)?;
    Some(high * 256 + low)
}

/// Goes over the low surrogate that has to follow a high one, for the character that the two make.
#[tactic(auto, unfolding(crate::specs::Escape::paired))]
fn paired(cursor: &mut Cursor, high: u32) -> Option<char>
    requires { (0xD800 ≤ high) × (high < 0xDC00) }
    ensures value { result ≡ (spec.paired high cursor.old).value }
    ensures at { cursor.new ≡ (spec.paired high cursor.old).at }
    ensures follows { Follows cursor.old cursor.new }
    // The low surrogate has the low ten bits, the high one the bits above.
    ensures pair { IfSome result (λ c. (0x10000 + (high - 0xD800) * 0x400 ≤ c) × (c < 0x10000 + (high - 0xD800) * 0x400 + 0x400)) }
{
    if !(cursor.sees('\\') && cursor.sees_second('u')) {
        return None;
    }
    cursor.advance_two();
    let low = hex_four(cursor)?;
    if low < 0xDC00 || 0xDFFF < low {
        return None;
    }
    char::from_u32(0x10000 + (high - 0xD800) * 0x400 + (low - 0xDC00))
}

/// Goes over the digits after `\u`, and over a low surrogate after a high one.
#[tactic(auto, unfolding(crate::specs::Escape::short))]
fn short(cursor: &mut Cursor) -> Option<char>
    ensures value { result ≡ (spec.short cursor.old).value }
    ensures at { cursor.new ≡ (spec.short cursor.old).at }
    ensures follows { Follows cursor.old cursor.new }
{
    let code = hex_four(cursor)?;
    if 0xD800 <= code && code < 0xDC00 {
        paired(cursor, code)
    } else {
        char::from_u32(code)
    }
}

/// Goes over the digits after `\U`.
#[tactic(auto, unfolding(crate::specs::Escape::long))]
fn long(cursor: &mut Cursor) -> Option<char>
    ensures value { result ≡ (spec.long cursor.old).value }
    ensures at { cursor.new ≡ (spec.long cursor.old).at }
    ensures follows { Follows cursor.old cursor.new }
{
    char::from_u32(hex_six(cursor)?)
}

/// Goes over the glyph after a backslash, and over what belongs to the escape, for the character that it stands for.
#[tactic(auto, unfolding(crate::specs::Escape::character))]
fn character(cursor: &mut Cursor, c: char) -> Option<char>
    ensures value { result ≡ (spec.character c cursor.old).value }
    ensures at { cursor.new ≡ (spec.character c cursor.old).at }
    ensures follows { Follows cursor.old cursor.new }
{
    cursor.advance();
    match c {
        'u' => short(cursor),
        'U' => long(cursor),
        _ => simple(c),
    }
}

/// Goes over a line end, if one stands here.
fn line_end(cursor: &mut Cursor) -> bool
    ensures value { result ≡ spec.is_line_end cursor.old }
    ensures at { cursor.new ≡ spec.after_line_end cursor.old }
    ensures follows { Follows cursor.old cursor.new }
{
    if cursor.sees('\n') {
        cursor.advance();
        return true;
    }
    if cursor.sees('\r') && cursor.sees_second('\n') {
        cursor.advance_two();
        return true;
    }
    false
}

/// Takes what the escape whose backslash stands at `pos` stands for, or refuses it.
fn take(body: &mut Body, found: Option<char>, pos: Pos) -> Result<(), NoMemory>
    requires line { 1 ≤ pos.line }
    requires column { 1 ≤ pos.column }
    ensures few { OnOk result (length body.new.chars.items ≤ length body.old.chars.items + 1) }
    ensures value { OnOk result ((at : Spot) → spec.reading_of at body.new ≡ spec.escaped_by pos found at (spec.reading_of at body.old)) }
{
    match found {
        Some(c) => body.push(c),
        None => {
            body.refuse(fault_at(pos, Rule::BadEscape));
            Ok(())
        }
    }
}

/// Goes over the escape that begins with the backslash here. A backslash before a line end stands for nothing.
#[tactic(auto, unfolding(crate::specs::Escape::escaped))]
pub fn escape(cursor: &mut Cursor, body: &mut Body) -> Result<(), NoMemory>
    requires { 0 < length cursor.old.glyphs }
    ensures few { OnOk result (length body.new.chars.items + length cursor.new.glyphs ≤ length body.old.chars.items + length cursor.old.glyphs) }
    ensures value { OnOk result (spec.reading_of cursor.new body.new ≡ spec.escaped (spec.reading_of cursor.old body.old)) }
    ensures follows { Follows cursor.old cursor.new }
    ensures fewer { OnOk result (length cursor.new.glyphs ≤ length cursor.old.glyphs - 1) }
{
    let pos = cursor.pos();
    cursor.advance();
    if line_end(cursor) {
        return Ok(());
    }
    match cursor.peek() {
        None => Ok(()),
        Some(Glyph::Bad(_)) => {
            cursor.advance();
            take(body, None, pos)
        }
        Some(Glyph::Char(c)) => {
            let found = character(cursor, c);
            take(body, found, pos)
        }
    }
}
