//! Names: which characters they are made of, and reading one.
ghost use Rattle.std.specs.Prelude.{◌≡◌, ◌≤◌, ◌+◌, ◌++◌, ◌||◌, ◌==◌, length, slice_get, Some, OnOk};
ghost use Rattle.unicode_ident.specs.Ident.{is_xid_start, is_xid_continue};
ghost use Rattle.gd_lexis.specs.declared.glyph.Glyph.TheVariants.{Char};
ghost use Rattle.gd_lexer.specs.Name as spec;
ghost use Rattle.gd_lexer.specs.Follows.{Follows};

use crate::cursor::Cursor;
use gd_lexis::Glyph;
use no_memory::NoMemory;

/// Whether a name can begin with the character.
#[inline(always)]
#[tactic(auto, using(crate::proofs::NameLemmas::ascii_begins, std::proofs::lemmas::Bool::Decides::nat_tests))]
pub fn begins_name(c: char) -> bool
    ensures { result ≡ (is_xid_start c || (c == 95)) }
{
    if c.is_ascii() {
        return c.is_ascii_alphabetic() || c == '_';
    }
    unicode_ident::is_xid_start(c)
}

/// Whether a name can go on with the character.
#[inline(always)]
#[tactic(auto, using(crate::proofs::NameLemmas::ascii_continues))]
pub fn continues_name(c: char) -> bool
    ensures { result ≡ is_xid_continue c }
{
    if c.is_ascii() {
        return c.is_ascii_alphanumeric() || c == '_';
    }
    unicode_ident::is_xid_continue(c)
}

/// The next character, if a name can go on with it.
#[inline(always)]
pub fn next_in_name(cursor: &Cursor) -> Option<char>
    ensures { result ≡ spec.next_in_name (slice_get cursor.now.glyphs 0) }
{
    match cursor.peek() {
        Some(Glyph::Char(c)) => goes_on(c),
        _ => None,
    }
}

#[inline(always)]
fn goes_on(c: char) -> Option<char>
    ensures { result ≡ spec.next_in_name (Some (Char c)) }
{
    if continues_name(c) { Some(c) } else { None }
}

/// Goes over the characters that go on a name, and adds them to `chars`.
#[tactic(auto, using(crate::proofs::NameLemmas::name_more, crate::proofs::NameLemmas::after_name_more))]
pub fn read_name(cursor: &mut Cursor, chars: &mut Vec<char>) -> Result<(), NoMemory>
    ensures follows { Follows cursor.old cursor.new }
    ensures chars { OnOk result (chars.new.items ≡ spec.name_behind chars.old.items cursor.old.glyphs) }
    ensures rest { OnOk result (cursor.new.glyphs ≡ spec.after_name cursor.old.glyphs) }
    ensures few { OnOk result (length chars.new.items + length cursor.new.glyphs ≤ length chars.old.items + length cursor.old.glyphs) }
{
    // Most names are ASCII, and are taken whole.
    add_ascii(chars, cursor.take_word())?;
    while let Some(c) = next_in_name(cursor) {
        chars.push(c)?;
        cursor.advance();
    }
    Ok(())
}

/// Adds these ASCII characters. There is room for all of them before the first is added, so that none asks for more.
fn add_ascii(chars: &mut Vec<char>, word: &[u8]) -> Result<(), NoMemory>
    ensures { OnOk result (chars.new.items ≡ chars.old.items ++ word.now) }
{
    chars.reserve(word.len())?;
    for byte in word {
        chars.push_reserved(char::from(*byte));
    }
    Ok(())
}
