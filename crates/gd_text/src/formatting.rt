//! Texts from patterns (docs/runtime.md, "Formatting").
ghost use Rattle.std.specs.Prelude.{◌≡◌, ◌≤◌, ◌<◌, ◌⊎◌, true, None, Some, length, IsSome, IfSome, IfNone};
ghost use Rattle.gd_text.specs.Format as spec;
ghost use Rattle.gd_text.specs.Format.{Formats};
ghost use Rattle.gd_text.specs.Text.{Gives, Puts};

use crate::made::made;
use crate::pattern::{Piece, read_piece};
use crate::printed::{put, put_shown, takes};
use gd_syntax::{MAX_TEXT, Text, TextBuilder, TextFault};
use std::alloc::Global;
use thiserror::Error;

/// What a conversion is given: an int, a String, or the printed form of any other value.
#[derive(Drop)]
pub enum Arg {
    Num(i64),
    Str(Text),
    Other(Text),
}

/// What fills the free places of a list of arguments.
impl Default for Arg {
    fn default() -> Arg {
        Arg::Num(0)
    }
}

/// Why a pattern gives no text.
#[derive(Clone, Copy, Debug, PartialEq, Eq, Drop, Error)]
pub enum FormatFault {
    /// The pattern is none, or the arguments do not fit its conversions in number or in kind.
    #[error("bad format")]
    BadFormat,
    /// The text would have more than `MAX_TEXT` code points.
    #[error("too long")]
    TooLong,
    /// No memory was left.
    #[error("out of memory")]
    NoMemory,
}

/// The text that the pattern gives with the arguments. `BadFormat` exactly where the pattern is none or the arguments
/// do not fit it, then `TooLong` exactly where the text passes the limit.
#[tactic(auto, using(crate::proofs::Formatted::formatted_fits, crate::proofs::Formatted::made_formatted))]
pub fn format(alloc: Global, pattern: &Text, args: &[Arg]) -> Result<Text, FormatFault>
    ensures { Formats pattern.now args.now result }
{
    let chars = pattern.chars();
    // The pattern is read twice: a bad format goes before a text that is too long.
    if !fits(chars, args) {
        return Err(FormatFault::BadFormat);
    }
    match text_with(alloc, chars, args) {
        Ok(text) => Ok(text),
        Err(fault) => Err(passed_on(fault)),
    }
}

/// The fault of `format` for one that the text was not made for.
fn passed_on(fault: TextFault) -> FormatFault
    requires { (fault ≡ TextFault.TooLong) ⊎ (fault ≡ TextFault.NoMemory) }
    ensures { spec.PassesOn fault result }
{
    match fault {
        TextFault::TooLong => FormatFault::TooLong,
        TextFault::NoMemory => FormatFault::NoMemory,
        TextFault::NotUtf8 | TextFault::OutOfRange => unreachable!(),
    }
}

/// Whether the pattern is one, and there is an argument for each conversion, of a kind that it takes, and no more.
#[tactic(auto, using(crate::proofs::Formatted::fits_behind, crate::proofs::Formatted::fits_no_piece, crate::proofs::Formatted::fits_no_pattern))]
fn fits(chars: &[char], args: &[Arg]) -> bool
    requires { length chars.now ≤ MAX_TEXT }
    ensures { result ≡ spec.fits chars.now args.now }
{
    let (mut rest, mut left) = (chars, args);
    while !rest.is_empty() {
        let Some((piece, read)) = read_piece(rest) else {
            return false;
        };
        let Some(more) = left_by(&piece, left) else {
            return false;
        };
        left = more;
        rest = &rest[read..];
    }
    left.is_empty()
}

/// The arguments that are left behind the piece, if it takes what it is given.
fn left_by<'a>(piece: &Piece, args: &'a [Arg]) -> Option<&'a [Arg]>
    ensures some { IfSome result (λ more. spec.left_by piece.now args.now ≡ Some more.now) }
    ensures none { IfNone result (spec.left_by piece.now args.now ≡ None) }
{
    match piece {
        Piece::Plain(_) => Some(args),
        Piece::Shown(conversion) => match args {
            [arg, more @ ..] if takes(conversion.letter, arg) => Some(more),
            _ => None,
        },
    }
}

/// The text that the pattern gives with arguments that fit it.
#[tactic(auto, using(crate::proofs::Formatted::fits_behind, crate::proofs::Formatted::fits_no_piece, crate::proofs::Formatted::fits_no_pattern, crate::proofs::Formatted::text_behind))]
fn text_with(alloc: Global, chars: &[char], args: &[Arg]) -> Result<Text, TextFault>
    requires short { length chars.now ≤ MAX_TEXT }
    requires fit { spec.fits chars.now args.now ≡ true }
    ensures { Gives (Some (spec.text_with chars.now args.now)) result }
{
    let mut out = TextBuilder::new(alloc);
    let (mut rest, mut left) = (chars, args);
    while !rest.is_empty() {
        let Some((piece, read)) = read_piece(rest) else {
            unreachable!()
        };
        let Some(more) = left_by(&piece, left) else {
            unreachable!()
        };
        put_piece(alloc, &mut out, &piece, left)?;
        left = more;
        rest = &rest[read..];
    }
    made(out)
}

/// Puts the text of the piece at the end.
fn put_piece(
    alloc: Global,
    out: &mut TextBuilder,
    piece: &Piece,
    args: &[Arg],
) -> Result<(), TextFault>
    requires { IsSome (spec.left_by piece.now args.now) }
    ensures { Puts (spec.piece_text piece.now args.now) out.old out.new result }
{
    match piece {
        Piece::Plain(c) => put(out, &[*c]),
        Piece::Shown(conversion) => match args {
            [arg, ..] => put_shown(alloc, out, conversion, arg),
            [] => unreachable!(),
        },
    }
}
