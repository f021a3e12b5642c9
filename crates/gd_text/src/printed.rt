//! What a conversion makes of its argument (docs/runtime.md, "Formatting").
ghost use Rattle.std.specs.Prelude.{◌≡◌, ◌+◌, ◌≤◌, ◌++◌, true, length, replicate, unsigned_abs, IfOk};
ghost use Rattle.std.specs.String.{string_bytes};
ghost use Rattle.std.specs.Fmt.{sign_text_with};
ghost use Rattle.gd_text.specs.declared.formatting.Arg.TheVariants.{Num};
ghost use Rattle.gd_text.specs.Format as spec;
ghost use Rattle.gd_text.specs.Text.{Puts};

use crate::formatting::Arg;
use crate::pattern::{Conversion, Letter};
use gd_syntax::{TextBuilder, TextFault};
use std::alloc::{AllocError, Global};

/// Whether a conversion with this letter takes the argument.
pub fn takes(letter: Letter, arg: &Arg) -> bool
    ensures { result ≡ spec.takes letter arg.now }
{
    match letter {
        Letter::Any => true,
        Letter::Character => is_character(arg),
        Letter::Decimal | Letter::Octal | Letter::LowerHex | Letter::UpperHex => {
            matches!(arg, Arg::Num(_))
        }
    }
}

/// Whether the argument is an int that is the code of a character, or a text of one character.
fn is_character(arg: &Arg) -> bool
    ensures { result ≡ spec.takes Letter.Character arg.now }
{
    match arg {
        Arg::Num(n) => character(*n).is_some(),
        Arg::Str(text) => text.length() == 1,
        Arg::Other(_) => false,
    }
}

/// Puts what the conversion makes of the argument at the end.
pub fn put_shown(
    alloc: Global,
    out: &mut TextBuilder,
    conversion: &Conversion,
    arg: &Arg,
) -> Result<(), TextFault>
    requires { spec.takes conversion.now.letter arg.now ≡ true }
    ensures { Puts (spec.shown conversion.now arg.now) out.old out.new result }
{
    match arg {
        Arg::Num(n) => put_int(alloc, out, conversion, *n),
        Arg::Str(text) => put_filled(out, conversion, text.chars()),
        Arg::Other(text) => put_filled(out, conversion, text.chars()),
    }
}

/// Puts what stands for an int, with blanks up to the width.
fn put_int(
    alloc: Global,
    out: &mut TextBuilder,
    conversion: &Conversion,
    n: i64,
) -> Result<(), TextFault>
    requires { spec.takes conversion.now.letter (Num n) ≡ true }
    ensures { Puts (spec.shown conversion.now (Num n)) out.old out.new result }
{
    match conversion.letter {
        Letter::Any => {
            let digits = format!(in alloc; "{n}")?;
            put_filled_bytes(out, conversion, digits.as_bytes())
        }
        Letter::Character => match character(n) {
            Some(c) => put_filled(out, conversion, &[c]),
            None => unreachable!(),
        },
        Letter::Decimal | Letter::Octal | Letter::LowerHex | Letter::UpperHex => {
            let digits = numeral(alloc, conversion.letter, n.unsigned_abs())?;
            put_number(out, conversion, sign(conversion.plus, n), digits.as_bytes())
        }
    }
}

/// Puts the characters, with blanks up to the width.
fn put_filled(
    out: &mut TextBuilder,
    conversion: &Conversion,
    text: &[char],
) -> Result<(), TextFault>
    ensures { Puts (spec.filled conversion.now text.now) out.old out.new result }
{
    let missing = conversion.width.saturating_sub(text.len());
    if conversion.minus {
        put(out, text)?;
        return put_many(out, ' ', missing);
    }
    put_many(out, ' ', missing)?;
    put(out, text)
}

/// Puts the characters whose codes are these bytes, with blanks up to the width.
fn put_filled_bytes(
    out: &mut TextBuilder,
    conversion: &Conversion,
    bytes: &[u8],
) -> Result<(), TextFault>
    ensures { Puts (spec.filled conversion.now bytes.now) out.old out.new result }
{
    let missing = conversion.width.saturating_sub(bytes.len());
    if conversion.minus {
        put_bytes(out, bytes)?;
        return put_many(out, ' ', missing);
    }
    put_many(out, ' ', missing)?;
    put_bytes(out, bytes)
}

/// Puts a number: its sign, zeros and digits, with blanks up to the width.
fn put_number(
    out: &mut TextBuilder,
    conversion: &Conversion,
    sign: &[char],
    digits: &[u8],
) -> Result<(), TextFault>
    ensures { Puts (spec.filled conversion.now (sign.now ++ (spec.zeros conversion.now (length sign.now + length digits.now) ++ digits.now))) out.old out.new result }
{
    let len = sign.len() + digits.len();
    let zeros = zero_count(conversion, len);
    let missing = conversion.width.saturating_sub(len).saturating_sub(zeros);
    if conversion.minus {
        put_parts(out, sign, zeros, digits)?;
        return put_many(out, ' ', missing);
    }
    put_many(out, ' ', missing)?;
    put_parts(out, sign, zeros, digits)
}

/// Puts a sign, zeros and digits.
fn put_parts(
    out: &mut TextBuilder,
    sign: &[char],
    zeros: usize,
    digits: &[u8],
) -> Result<(), TextFault>
    ensures { Puts (sign.now ++ (replicate zeros 48 ++ digits.now)) out.old out.new result }
{
    put(out, sign)?;
    put_many(out, '0', zeros)?;
    put_bytes(out, digits)
}

/// Puts the characters.
pub fn put(out: &mut TextBuilder, more: &[char]) -> Result<(), TextFault>
    ensures { Puts more.now out.old out.new result }
{
    out.append(more)
}

/// Puts the characters whose codes are these bytes.
fn put_bytes(out: &mut TextBuilder, bytes: &[u8]) -> Result<(), TextFault>
    ensures { Puts bytes.now out.old out.new result }
{
    out.append_bytes(bytes)
}

/// Puts the character, `n` times.
fn put_many(out: &mut TextBuilder, c: char, n: usize) -> Result<(), TextFault>
    ensures { Puts (replicate n c) out.old out.new result }
{
    out.fill(c, n)
}

/// The character with this code.
fn character(n: i64) -> Option<char>
    ensures { result ≡ spec.character n }
{
    if n < 0 || n > 0x10_FFFF {
        return None;
    }
    char::from_u32(n as u32)
}

/// The sign that is shown before a number.
fn sign(plus: bool, n: i64) -> &'static [char]
    ensures { result.now ≡ spec.sign plus n }
{
    if n < 0 {
        &['-']
    } else if plus {
        &['+']
    } else {
        &[]
    }
}

/// How many zeros bring a number of `len` characters to the width.
fn zero_count(conversion: &Conversion, len: usize) -> usize
    ensures { replicate result 48 ≡ spec.zeros conversion.now len }
{
    if conversion.zero && !conversion.minus {
        conversion.width.saturating_sub(len)
    } else {
        0
    }
}

/// The digits of a number in the base of the letter.
fn numeral(alloc: Global, letter: Letter, n: u64) -> Result<String, AllocError>
    ensures { IfOk result (λ s. string_bytes s ≡ spec.digits_under letter n) }
{
    match letter {
        Letter::Octal => format!(in alloc; "{n:o}"),
        Letter::LowerHex => format!(in alloc; "{n:x}"),
        Letter::UpperHex => format!(in alloc; "{n:X}"),
        Letter::Any | Letter::Character | Letter::Decimal => format!(in alloc; "{n}"),
    }
}
