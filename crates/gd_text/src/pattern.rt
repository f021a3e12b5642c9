//! The grammar of patterns: characters, `%%`, and conversions of flags, a width and a letter.
ghost use Rattle.std.specs.Prelude.{◌≡◌, ◌+◌, ◌≤◌, ◌<◌, nat_lt, length, IfSome};
ghost use Rattle.std.specs.Char.{is_ascii_digit};
ghost use Rattle.std.specs.List.{prefix_len};
ghost use Rattle.gd_text.specs.Number as number;
ghost use Rattle.gd_text.specs.Pattern.{is_flag, count_of};
ghost use Rattle.gd_text.specs.Reading as spec;

use crate::number::digits_value;

/// What a conversion makes of its argument.
#[derive(Clone, Copy, Debug, PartialEq, Eq)]
pub enum Letter {
    /// `s`
    Any,
    /// `c`
    Character,
    /// `d`
    Decimal,
    /// `o`
    Octal,
    /// `x`
    LowerHex,
    /// `X`
    UpperHex,
}

/// A conversion: its flags, its width in code points (0 where none is written), and its letter.
#[derive(Clone, Copy, Debug)]
pub struct Conversion {
    pub minus: bool,
    pub plus: bool,
    pub zero: bool,
    pub width: usize,
    pub letter: Letter,
}

/// A piece of a pattern: a character that stands for itself (one `%` for `%%`), or a conversion.
#[derive(Clone, Copy, Debug)]
pub enum Piece {
    Plain(char),
    Shown(Conversion),
}

/// The piece that the characters begin with, and how many it has.
#[tactic(auto, unfolding(crate::specs::Reading::read_piece))]
pub fn read_piece(chars: &[char]) -> Option<(Piece, usize)>
    ensures value { result ≡ spec.read_piece chars.now }
    ensures within { IfSome result (λ p. (0 < p.1) × (p.1 ≤ length chars.now)) }
{
    match chars {
        ['%', rest @ ..] => {
            let (piece, read) = read_behind(rest)?;
            Some((piece, read + 1))
        }
        [c, ..] => Some((Piece::Plain(*c), 1)),
        [] => None,
    }
}

/// The piece of which a `%` has been read, and how many characters it has behind that.
#[tactic(auto, unfolding(crate::specs::Reading::read_behind))]
fn read_behind(chars: &[char]) -> Option<(Piece, usize)>
    ensures value { result ≡ spec.read_behind chars.now }
    ensures within { IfSome result (λ p. p.1 ≤ length chars.now) }
{
    match chars {
        ['%', ..] => Some((Piece::Plain('%'), 1)),
        _ => {
            let (conversion, read) = read_conversion(chars)?;
            Some((Piece::Shown(conversion), read))
        }
    }
}

/// The conversion that stands behind a `%`, and how many characters it has.
#[tactic(auto, unfolding(crate::specs::Reading::read_conversion))]
fn read_conversion(chars: &[char]) -> Option<(Conversion, usize)>
    ensures value { result ≡ spec.read_conversion chars.now }
    ensures within { IfSome result (λ p. p.1 ≤ length chars.now) }
{
    let (flags, rest) = chars.split_at(flag_count(chars));
    let (digits, rest) = rest.split_at(digit_count(rest));
    let conversion = conversion_of(flags, digits, rest)?;
    Some((conversion, flags.len() + digits.len() + 1))
}

/// The conversion with these flags, these digits of its width, and the letter that stands behind them.
#[tactic(auto, unfolding(crate::specs::Reading::conversion_of))]
fn conversion_of(flags: &[char], digits: &[char], behind: &[char]) -> Option<Conversion>
    ensures value { result ≡ spec.conversion_of flags.now digits.now behind.now }
    ensures within { IfSome result (λ c. 0 < length behind.now) }
{
    let letter = read_letter(*behind.first()?)?;
    if are_doubled(flags) || digits.len() > 3 {
        return None;
    }
    Some(Conversion {
        minus: count_of('-', flags) == 1,
        plus: count_of('+', flags) == 1,
        zero: count_of('0', flags) == 1,
        width: width(digits),
        letter,
    })
}

/// How many flags stand at the start.
#[tactic(auto, using(crate::proofs::Prefixes::prefix_counts))]
fn flag_count(chars: &[char]) -> usize
    ensures value { result ≡ prefix_len is_flag chars.now }
    ensures within { result ≤ length chars.now }
{
    chars.iter().take_while(|c| is_flag(**c)).count()
}

/// Whether the character is `-`, `+` or `0`.
fn is_flag(c: char) -> bool
    ensures { result ≡ is_flag c }
{
    matches!(c, '-' | '+' | '0')
}

/// How many digits stand at the start.
#[tactic(auto, using(crate::proofs::Prefixes::prefix_counts))]
fn digit_count(chars: &[char]) -> usize
    ensures value { result ≡ prefix_len is_ascii_digit chars.now }
    ensures within { result ≤ length chars.now }
{
    chars.iter().take_while(|c| c.is_ascii_digit()).count()
}

/// Whether a flag stands twice.
fn are_doubled(flags: &[char]) -> bool
    ensures { result ≡ spec.are_doubled flags.now }
{
    count_of('-', flags) > 1 || count_of('+', flags) > 1 || count_of('0', flags) > 1
}

/// How often the sign stands among the characters.
fn count_of(sign: char, chars: &[char]) -> usize
    ensures { result ≡ count_of sign chars.now }
{
    chars.iter().filter(|c| **c == sign).count()
}

/// The number that up to three digits make.
#[tactic(auto, using(crate::proofs::Widths::three_digits))]
fn width(digits: &[char]) -> usize
    requires { length digits.now ≤ 3 }
    ensures { result ≡ number.digits_value digits.now }
{
    digits_value(digits) as usize
}

fn read_letter(c: char) -> Option<Letter>
    ensures { result ≡ spec.letter_of c }
{
    match c {
        's' => Some(Letter::Any),
        'c' => Some(Letter::Character),
        'd' => Some(Letter::Decimal),
        'o' => Some(Letter::Octal),
        'x' => Some(Letter::LowerHex),
        'X' => Some(Letter::UpperHex),
        _ => None,
    }
}
