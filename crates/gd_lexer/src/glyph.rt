//! Reading the first glyph of some bytes.
ghost use Rattle.std.specs.Prelude.{◌≡◌, ◌≤◌, ◌<◌, length, drop, IfSome};
ghost use Rattle.gd_lexis.specs.Lexemes as lexemes;
ghost use Rattle.gd_lexer.specs.Glyphs as spec;

use crate::decode::decode;
use gd_lexis::Glyph;

/// The number of a glyph's bytes.
pub fn width(glyph: Glyph) -> usize
    ensures value { result ≡ lexemes.width glyph }
    ensures low { 1 ≤ result }
    ensures high { result ≤ 4 }
{
    match glyph {
        Glyph::Char(c) => c.len_utf8(),
        Glyph::Bad(_) => 1,
    }
}

/// The first glyph of some bytes.
#[inline(always)]
#[tactic(auto, unfolding(crate::specs::Glyphs::first_glyph, crate::specs::Glyphs::decoded))]
pub fn first(bytes: &[u8]) -> Option<Glyph>
    ensures value { result ≡ spec.first_glyph bytes.now }
    ensures within { IfSome result (λ g. lexemes.width g ≤ length bytes.now) }
{
    // Most characters are ASCII, so that this part stands where it is called.
    match bytes {
        [byte, ..] if *byte < 0x80 => Some(Glyph::Char(char::from(*byte))),
        _ => first_of_any(bytes),
    }
}

/// The first glyph of bytes that begin with any character.
#[cold]
#[inline(never)]
#[tactic(auto, unfolding(crate::specs::Glyphs::first_glyph), using(crate::proofs::GlyphLemmas::decoded_fits))]
fn first_of_any(bytes: &[u8]) -> Option<Glyph>
    ensures value { result ≡ spec.first_glyph bytes.now }
    ensures within { IfSome result (λ g. lexemes.width g ≤ length bytes.now) }
{
    let [byte, ..] = bytes else {
        return None;
    };
    match decode(bytes) {
        Some(c) => Some(Glyph::Char(c)),
        None => Some(Glyph::Bad(*byte)),
    }
}

/// The bytes behind so many.
#[inline(always)]
pub fn behind(bytes: &[u8], width: usize) -> &[u8]
    requires { width ≤ length bytes.now }
    ensures { result.now ≡ drop width bytes.now }
{
    &bytes[width..]
}

/// The bytes after the first glyph.
pub fn after_first(bytes: &[u8]) -> &[u8]
    ensures { result.now ≡ spec.after_first bytes.now }
{
    match first(bytes) {
        Some(glyph) => behind(bytes, width(glyph)),
        None => bytes,
    }
}
