//! Texts that are put together.
ghost use Rattle.std.specs.Prelude.{◌≡◌, ◌≤◌, ◌<◌, ◌++◌, Some, length};
ghost use Rattle.std.specs.List.{repeat};
ghost use Rattle.gd_text.specs.Text as spec;
ghost use Rattle.gd_text.specs.Text.{Gives};

use crate::made::{append, copied, made, room};
use gd_syntax::{MAX_TEXT, Text, TextBuilder, TextFault};
use std::alloc::Global;

/// The text `a` and then `b`. `TooLong` exactly where it passes the limit.
pub fn concat(alloc: Global, a: &Text, b: &Text) -> Result<Text, TextFault>
    ensures { Gives (Some (a.now ++ b.now)) result }
{
    let (a, b) = (a.chars(), b.chars());
    let mut out = TextBuilder::with_capacity(alloc, a.len() + b.len())?;
    append(&mut out, a)?;
    append(&mut out, b)?;
    made(out)
}

/// The text `a`, `n` times. `OutOfRange` exactly where `n` is negative, then `TooLong` exactly where the text
/// passes the limit.
pub fn repeat(alloc: Global, a: &Text, n: i64) -> Result<Text, TextFault>
    ensures { Gives (spec.repeated a.now n) result }
{
    if n < 0 {
        return Err(TextFault::OutOfRange);
    }
    copies(alloc, a.chars(), n as u64)
}

/// The characters, `turns` times.
fn copies(alloc: Global, chars: &[char], turns: u64) -> Result<Text, TextFault>
    requires { length chars.now ≤ MAX_TEXT }
    ensures { Gives (Some (repeat turns chars.now)) result }
{
    if chars.is_empty() {
        return copied(alloc, chars);
    }
    if turns > MAX_TEXT as u64 {
        return Err(TextFault::TooLong);
    }
    let total = chars.len() * turns as usize;
    if total > MAX_TEXT {
        return Err(TextFault::TooLong);
    }
    let mut out = room(alloc, total)?;
    for turn in 0..turns {
        append(&mut out, chars)?;
    }
    made(out)
}
