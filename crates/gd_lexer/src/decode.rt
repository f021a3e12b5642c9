//! The well-formed character at the front of some bytes.
ghost use Rattle.std.specs.Prelude.{◌≡◌, ◌≤◌, ◌<◌};
ghost use Rattle.gd_lexer.specs.Glyphs as spec;

/// Whether the byte can continue a character.
fn continues(byte: u8) -> bool
    ensures { result ≡ spec.continues byte }
{
    0x80 <= byte && byte < 0xC0
}

/// The character of a code.
fn scalar(code: u32) -> Option<char>
    ensures { result ≡ spec.scalar_of code }
{
    char::from_u32(code)
}

fn two(first: u8, rest: &[u8]) -> Option<char>
    requires { 0xC0 ≤ first }
    ensures { result ≡ spec.two first rest.now }
{
    match rest {
        [second, ..] if continues(*second) => {
            scalar((u32::from(first) - 0xC0) * 64 + (u32::from(*second) - 0x80))
        }
        _ => None,
    }
}

fn three_code(first: u8, second: u8, third: u8) -> u32
    requires first { 0xE0 ≤ first }
    requires second { 0x80 ≤ second }
    requires third { 0x80 ≤ third }
    ensures { result ≡ spec.three_code first second third }
{
    (u32::from(first) - 0xE0) * 4096 + (u32::from(second) - 0x80) * 64 + (u32::from(third) - 0x80)
}

fn three(first: u8, rest: &[u8]) -> Option<char>
    requires { 0xE0 ≤ first }
    ensures { result ≡ spec.three first rest.now }
{
    match rest {
        [second, third, ..] if continues(*second) && continues(*third) => {
            let code = three_code(first, *second, *third);
            if 0x800 <= code { scalar(code) } else { None }
        }
        _ => None,
    }
}

fn four_code(first: u8, second: u8, third: u8, fourth: u8) -> u32
    requires first { 0xF0 ≤ first }
    requires second { 0x80 ≤ second }
    requires third { 0x80 ≤ third }
    requires fourth { 0x80 ≤ fourth }
    ensures { result ≡ spec.four_code first second third fourth }
{
    (u32::from(first) - 0xF0) * 262144
        + (u32::from(second) - 0x80) * 4096
        + (u32::from(third) - 0x80) * 64
        + (u32::from(fourth) - 0x80)
}

fn four(first: u8, rest: &[u8]) -> Option<char>
    requires { 0xF0 ≤ first }
    ensures { result ≡ spec.four first rest.now }
{
    match rest {
        [second, third, fourth, ..]
            if continues(*second) && continues(*third) && continues(*fourth) => {
            let code = four_code(first, *second, *third, *fourth);
            if 0x10000 <= code { scalar(code) } else { None }
        }
        _ => None,
    }
}

/// The character that the bytes begin with, or `None` where they begin with no well-formed one.
#[tactic(auto, unfolding(crate::specs::Glyphs::decoded))]
pub fn decode(bytes: &[u8]) -> Option<char>
    ensures { result ≡ spec.decoded bytes.now }
{
    let [first, rest @ ..] = bytes else {
        return None;
    };
    if *first < 0x80 {
        Some(char::from(*first))
    } else if *first < 0xC2 {
        None
    } else if *first < 0xE0 {
        two(*first, rest)
    } else if *first < 0xF0 {
        three(*first, rest)
    } else if *first < 0xF5 {
        four(*first, rest)
    } else {
        None
    }
}
