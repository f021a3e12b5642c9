//! Parts of texts.
ghost use Rattle.std.specs.Prelude.{◌≡◌, ◌≤◌, ◌<◌, Some, length, drop, take};
ghost use Rattle.gd_text.specs.Text as spec;
ghost use Rattle.gd_text.specs.Text.{Gives};

use crate::made::{copied, shared};
use gd_syntax::{Text, TextFault};
use std::alloc::Global;

/// The `len` code points from place `from` on, or the rest where `len` is negative or fewer are left.
/// `OutOfRange` exactly where `from` is negative.
pub fn substr(alloc: Global, a: &Text, from: i64, len: i64) -> Result<Text, TextFault>
    ensures { Gives (spec.substr a.now from len) result }
{
    if from < 0 {
        return Err(TextFault::OutOfRange);
    }
    if from == 0 && len < 0 {
        return shared(a);
    }
    let chars = a.chars();
    let first = chars.len().min(from as usize);
    let rest = &chars[first..];
    if len < 0 {
        return copied(alloc, rest);
    }
    copied(alloc, &rest[..rest.len().min(len as usize)])
}

/// The first `n` code points; a negative `n` leaves out that many at the end.
pub fn left(alloc: Global, a: &Text, n: i64) -> Result<Text, TextFault>
    ensures { Gives (Some (spec.left a.now n)) result }
{
    let chars = a.chars();
    let end = if n < 0 {
        chars.len().saturating_sub(n.unsigned_abs() as usize)
    } else {
        chars.len().min(n as usize)
    };
    if end == chars.len() {
        return shared(a);
    }
    copied(alloc, &chars[..end])
}

/// The last `n` code points; a negative `n` leaves out that many at the start.
pub fn right(alloc: Global, a: &Text, n: i64) -> Result<Text, TextFault>
    ensures { Gives (Some (spec.right a.now n)) result }
{
    let chars = a.chars();
    let first = if n < 0 {
        chars.len().min(n.unsigned_abs() as usize)
    } else {
        chars.len().saturating_sub(n as usize)
    };
    if first == 0 {
        return shared(a);
    }
    copied(alloc, &chars[first..])
}

/// The text without the code points up to 32 at both ends.
pub fn strip(alloc: Global, a: &Text) -> Result<Text, TextFault>
    ensures { Gives (Some (spec.stripped a.now)) result }
{
    copied(alloc, without_end(without_start(a.chars())))
}

fn without_start(chars: &[char]) -> &[char]
    ensures { result.now ≡ spec.without_start chars.now }
{
    for (first, c) in chars.iter().enumerate() {
        if *c > ' ' {
            return &chars[first..];
        }
    }
    &[]
}

fn without_end(chars: &[char]) -> &[char]
    ensures { result.now ≡ spec.without_end chars.now }
{
    for end in (0..chars.len()).rev() {
        if chars[end] > ' ' {
            return &chars[..end + 1];
        }
    }
    &[]
}
