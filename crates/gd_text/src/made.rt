//! Texts that are built up to the limit.
ghost use Rattle.std.specs.Prelude.{◌≡◌, ◌+◌, ◌≤◌, ◌<◌, [], ◌++◌, Some, length, IfOk, IfErr, OnErr, OnOk, IsErrOf, ◌⊎◌, MatchResult};
ghost use Rattle.gd_text.specs.Text.{Gives};

use gd_syntax::{MAX_TEXT, Text, TextBuilder, TextFault};
use std::alloc::Global;

/// A text in the making, with room for these many characters.
pub fn room(alloc: Global, n: usize) -> Result<TextBuilder, TextFault>
    requires { n ≤ MAX_TEXT }
    ensures empty { IfOk result (λ b. b ≡ []) }
    ensures no_memory { IfErr result (λ e. e ≡ TextFault.NoMemory) }
{
    TextBuilder::with_capacity(alloc, n)
}

/// The text that is made.
pub fn made(out: TextBuilder) -> Result<Text, TextFault>
    ensures { Gives (Some out) result }
{
    Ok(out.finish()?)
}

/// The same text over the same characters.
pub fn shared(a: &Text) -> Result<Text, TextFault>
    ensures { Gives (Some a.now) result }
{
    Ok(a.share()?)
}

/// The text of a part of a text.
pub fn copied(alloc: Global, chars: &[char]) -> Result<Text, TextFault>
    ensures { Gives (Some chars.now) result }
{
    Text::of_slice(alloc, chars)
}

/// Puts the characters at the end, where no more than a text may have come of it.
pub fn append(out: &mut TextBuilder, more: &[char]) -> Result<(), TextFault>
    ensures ok { OnOk result (out.new ≡ out.old ++ more.now) }
    ensures too_long { IfErr result (λ e. ((e ≡ TextFault.TooLong) × (MAX_TEXT < length out.old + length more.now)) ⊎ (e ≡ TextFault.NoMemory)) }
{
    out.append(more)
}
