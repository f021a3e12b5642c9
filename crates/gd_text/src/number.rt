//! Integers as texts, and texts as integers.
ghost use Rattle.std.specs.Prelude.{◌≡◌, ◌%◌, ◌^◌, ◌==◌, Some, List, ℕ, length, take, count_by, IsTrue, fold, position};
ghost use Rattle.std.specs.Char.{is_ascii_digit};
ghost use Rattle.std.specs.Fmt.{signed_decimal};
ghost use Rattle.std.specs.List.{list_all};
ghost use Rattle.gd_text.specs.Text.{Gives};
ghost use Rattle.gd_text.specs.Number as spec;

use gd_syntax::{Text, TextFault};
use itoa::Buffer;
use std::alloc::Global;

/// The number in decimal digits, with a `-` before a negative one.
pub fn decimal(alloc: Global, n: i64) -> Result<Text, TextFault>
    ensures { Gives (Some (signed_decimal n)) result }
{
    let mut buffer = Buffer::new();
    Text::from_utf8(alloc, buffer.format(n).as_bytes())
}

/// Whether the text is one or more digits behind at most one sign.
pub fn is_valid_int(a: &Text) -> bool
    ensures { result ≡ spec.is_valid_int a.now }
{
    let digits = without_sign(a.chars());
    !digits.is_empty() && all_digits(digits)
}

/// The characters without one sign at the start.
fn without_sign(chars: &[char]) -> &[char]
    ensures { result.now ≡ spec.without_sign chars.now }
{
    match chars {
        ['+' | '-', rest @ ..] => rest,
        _ => chars,
    }
}

fn all_digits(chars: &[char]) -> bool
    ensures { result ≡ list_all is_ascii_digit chars.now }
{
    chars.iter().all(|c| c.is_ascii_digit())
}

/// The number that the digits before the first `.` make, modulo 2^64, all other characters being passed over; it is
/// negated where an odd number of `-` stands before the first digit other than 0.
pub fn to_int(a: &Text) -> i64
    ensures { result ≡ spec.to_int a.now }
{
    let whole = before_point(a.chars());
    let magnitude = digits_value(whole).cast_signed();
    if is_negated(whole) {
        magnitude.wrapping_neg()
    } else {
        magnitude
    }
}

/// What stands before the first `.`, or all where there is none.
fn before_point(chars: &[char]) -> &[char]
    ensures { result.now ≡ spec.before_point chars.now }
{
    for (i, c) in chars.iter().enumerate() {
        if *c == '.' {
            return &chars[..i];
        }
    }
    chars
}

/// The number that the digits make, modulo 2^64.
pub fn digits_value(chars: &[char]) -> u64
    ensures { result ≡ spec.digits_value chars.now % 2 ^ 64 }
{
    let mut value = 0u64;
    for c in chars {
        if c.is_ascii_digit() {
            value = value
                .wrapping_mul(10)
                .wrapping_add(u64::from(*c as u32 - '0' as u32));
        }
    }
    value
}

/// Whether an odd number of `-` stands before the first digit other than 0.
fn is_negated(chars: &[char]) -> bool
    ensures { result ≡ spec.is_negated chars.now }
{
    let mut odd = false;
    for c in chars {
        match *c {
            '1'..='9' => return odd,
            '-' => odd = !odd,
            _ => {}
        }
    }
    odd
}
