//! Whole numbers, and what is wrong with others.
ghost use Rattle.std.specs.Prelude.{◌≡◌, ◌<◌, ◌≤◌, ◌-◌, ◌^◌, IfSome, IfErr, IsTrue, length, slice_get, Some, None, true};
ghost use Rattle.gd_lexer.specs.Lexical.{is_lexical};
ghost use Rattle.gd_lexer.specs.Number.{radix, digit_at, is_there};
ghost use Rattle.gd_lexer.specs.Number as spec;
ghost use Rattle.gd_lexer.specs.Follows.{Follows};

use crate::cursor::Cursor;
use crate::name::next_in_name;
use gd_lexis::Glyph;
use gd_rules::Rule;

/// In what base a number is written.
#[derive(Clone, Copy, Debug, PartialEq, Eq)]
enum Base {
    Binary,
    Decimal,
    Hexadecimal,
}

/// What goes on a number.
#[derive(Clone, Copy, Debug, PartialEq, Eq)]
enum Part {
    /// A digit, by its value.
    Digit(u32),
    /// A `_` before a digit.
    Bar,
}

impl Base {
    fn radix(self) -> u32
        ensures { result ≡ radix self }
    {
        match self {
            Base::Binary => 2,
            Base::Decimal => 10,
            Base::Hexadecimal => 16,
        }
    }

    fn is_decimal(self) -> bool
        ensures { result ≡ spec.is_decimal self }
    {
        match self {
            Base::Decimal => true,
            _ => false,
        }
    }
}

/// The value of a digit of the base.
fn digit(glyph: Option<Glyph>, base: Base) -> Option<u32>
    ensures value { result ≡ digit_at (radix base) glyph }
    ensures small { IfSome result (λ d. d < radix base) }
{
    match glyph {
        Some(Glyph::Char(c)) => c.to_digit(base.radix()),
        _ => None,
    }
}

fn is_digit(glyph: Option<Glyph>, base: Base) -> bool
    ensures { result ≡ is_there (digit_at (radix base) glyph) }
{
    match digit(glyph, base) {
        Some(_) => true,
        None => false,
    }
}

/// The value with one more digit, or `None` where it is above the greatest integer.
fn append(value: Option<u64>, base: Base, digit: u32) -> Option<u64>
    ensures value { result ≡ spec.appended value (radix base) digit }
    ensures small { IfSome result (λ v. v < 2 ^ 63) }
{
    let value = value?
        .checked_mul(u64::from(base.radix()))?
        .checked_add(u64::from(digit))?;
    if value <= i64::MAX as u64 {
        Some(value)
    } else {
        None
    }
}

/// What goes on a number of the base here.
fn next_part(cursor: &Cursor, base: Base) -> Option<Part>
    ensures { result ≡ spec.part_at (radix base) cursor.now.glyphs }
{
    if let Some(d) = digit(cursor.peek(), base) {
        return Some(Part::Digit(d));
    }
    if cursor.sees('_') && is_digit(cursor.second(), base) {
        Some(Part::Bar)
    } else {
        None
    }
}

/// The value with one more part of its number.
fn extend(value: Option<u64>, base: Base, part: Part) -> Option<u64>
    requires { IfSome value (λ v. v < 2 ^ 63) }
    ensures value { result ≡ spec.extended value (radix base) part }
    ensures small { IfSome result (λ v. v < 2 ^ 63) }
{
    match part {
        Part::Digit(d) => append(value, base, d),
        Part::Bar => value,
    }
}

/// Goes over the digits from here on, between which single `_` may stand, to the first glyph that does not go on the
/// number. The answer is its value, or `None` where that is above the greatest integer.
#[tactic(auto, using(crate::proofs::NumberLemmas::value_more, crate::proofs::NumberLemmas::value_end, crate::proofs::NumberLemmas::after_digits_more, crate::proofs::NumberLemmas::after_digits_end))]
fn digits(cursor: &mut Cursor, base: Base) -> Option<u64>
    ensures value { result ≡ spec.value_behind (Some 0) (radix base) cursor.old.glyphs }
    ensures rest { cursor.new.glyphs ≡ spec.after_digits (radix base) cursor.old.glyphs }
    ensures follows { Follows cursor.old cursor.new }
    ensures small { IfSome result (λ v. v < 2 ^ 63) }
{
    let mut value = Some(0);
    while let Some(part) = next_part(cursor, base) {
        value = extend(value, base, part);
        cursor.advance();
    }
    value
}

/// The base of the number here. A prefix is one only where a digit of its base follows.
fn base_of(cursor: &Cursor) -> Base
    ensures { result ≡ spec.base_at cursor.now.glyphs }
{
    if cursor.sees('0') && cursor.sees_second('x') && is_digit(cursor.third(), Base::Hexadecimal) {
        Base::Hexadecimal
    } else if cursor.sees('0')
        && cursor.sees_second('b')
        && is_digit(cursor.third(), Base::Binary)
    {
        Base::Binary
    } else {
        Base::Decimal
    }
}

/// Goes over the prefix of a number of the base.
fn prefix(cursor: &mut Cursor, base: Base)
    ensures rest { cursor.new.glyphs ≡ spec.after_prefix base cursor.old.glyphs }
    ensures follows { Follows cursor.old cursor.new }
{
    match base {
        Base::Decimal => {}
        _ => cursor.advance_two(),
    }
}

/// Whether a decimal number before the cursor is the front of a float.
fn is_float(cursor: &Cursor) -> bool
    ensures { result ≡ spec.goes_on_as_float cursor.now.glyphs }
{
    cursor.sees('.') || ((cursor.sees('e') || cursor.sees('E')) && has_exponent(cursor))
}

/// Whether an optional sign and a digit come after the next glyph.
fn has_exponent(cursor: &Cursor) -> bool
    ensures { result ≡ spec.has_exponent cursor.now.glyphs }
{
    if cursor.sees_second('+') || cursor.sees_second('-') {
        is_digit(cursor.third(), Base::Decimal)
    } else {
        is_digit(cursor.second(), Base::Decimal)
    }
}

/// Reads the number that begins with the next digit, or tells the rule that it breaks.
#[tactic(auto, using(crate::proofs::NumberLemmas::number_fewer), unfolding(crate::specs::Number::number_at, crate::specs::Number::after_number))]
pub fn number(cursor: &mut Cursor) -> Result<i64, Rule>
    requires { is_there (digit_at 10 (slice_get cursor.old.glyphs 0)) ≡ true }
    ensures value { result ≡ spec.number_at cursor.old.glyphs }
    ensures rest { cursor.new.glyphs ≡ spec.after_number cursor.old.glyphs }
    ensures lexical { IfErr result (λ r. IsTrue (is_lexical r)) }
    ensures follows { Follows cursor.old cursor.new }
    ensures fewer { length cursor.new.glyphs ≤ length cursor.old.glyphs - 1 }
{
    let base = base_of(cursor);
    prefix(cursor, base);
    let value = digits(cursor, base);
    if base.is_decimal() && is_float(cursor) {
        return Err(Rule::Float);
    }
    let Some(value) = value else {
        return Err(Rule::IntegerTooLarge);
    };
    if next_in_name(cursor).is_some() {
        return Err(Rule::BadNumber);
    }
    Ok(value as i64)
}
