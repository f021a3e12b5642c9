//! Texts in texts.
ghost use Rattle.std.specs.Prelude.{◌≡◌, ◌+◌, ◌≤◌, ◌<◌, Some, drop, take, length, option_map, IfSome, MatchResult, OnErr};
ghost use Rattle.gd_text.specs.Text.{Gives, GivesList};
ghost use Rattle.gd_text.specs.Search as spec;

use crate::made::{append, copied, made, room, shared};
use gd_syntax::{MAX_TEXT, Text, TextFault};
use std::alloc::Global;

/// The first place from `from` on at which `what` stands; `None` where there is none, for an empty `what` and for a
/// negative `from`.
pub fn find(a: &Text, what: &Text, from: i64) -> Option<u32>
    ensures { result ≡ spec.find a.now what.now from }
{
    let (chars, what) = (a.chars(), what.chars());
    if from < 0 || what.is_empty() || from > chars.len() as i64 {
        return None;
    }
    match find_from(chars, what, from as usize) {
        Some(at) => Some(at as u32),
        None => None,
    }
}

/// The first place from `from` on at which `what` stands.
fn find_from(chars: &[char], what: &[char], from: usize) -> Option<usize>
    requires { from ≤ length chars.now }
    ensures first { result ≡ option_map (λ i. from + i) (spec.first_at what.now (drop from chars.now)) }
    ensures within { IfSome result (λ i. (from ≤ i) × (i + length what.now ≤ length chars.now)) }
{
    for at in from..chars.len() {
        if chars[at..].starts_with(what) {
            return Some(at);
        }
    }
    None
}

/// The text with `with` in place of each `what`, from the left without overlap. An empty `what` changes nothing.
/// `TooLong` exactly where the text passes the limit.
pub fn replace(alloc: Global, a: &Text, what: &Text, with: &Text) -> Result<Text, TextFault>
    ensures { Gives (Some (spec.replaced a.now what.now with.now)) result }
{
    let (chars, what, with) = (a.chars(), what.chars(), with.chars());
    if what.is_empty() {
        return shared(a);
    }
    let mut out = room(alloc, chars.len())?;
    let mut start = 0;
    while let Some(at) = find_from(chars, what, start) {
        append(&mut out, &chars[start..at])?;
        append(&mut out, with)?;
        start = at + what.len();
    }
    append(&mut out, &chars[start..])?;
    made(out)
}

/// The parts of the text between the places of `by`, from the left without overlap, without the empty ones where
/// `empty` is false; an empty `by` gives the single characters. `TooLong` exactly where the list passes the limit.
pub fn split(alloc: Global, a: &Text, by: &Text, empty: bool) -> Result<Vec<Text>, TextFault>
    ensures { GivesList (spec.split a.now by.now empty) result }
{
    let (chars, by) = (a.chars(), by.chars());
    if by.is_empty() {
        return single_characters(alloc, chars);
    }
    let mut parts = Vec::new(alloc);
    let mut start = 0;
    while let Some(at) = find_from(chars, by, start) {
        add_part(&mut parts, alloc, &chars[start..at], empty)?;
        start = at + by.len();
    }
    add_part(&mut parts, alloc, &chars[start..], empty)?;
    Ok(parts)
}

/// A text of each character.
fn single_characters(alloc: Global, chars: &[char]) -> Result<Vec<Text>, TextFault>
    requires { length chars.now ≤ MAX_TEXT }
    ensures { GivesList (spec.single_characters chars.now) result }
{
    let mut parts = Vec::with_capacity(alloc, chars.len())?;
    for i in 0..chars.len() {
        add_part(&mut parts, alloc, &chars[i..i + 1], true)?;
    }
    Ok(parts)
}

/// Adds a part at the end, unless it is empty and empty ones are left out.
fn add_part(
    parts: &mut Vec<Text>,
    alloc: Global,
    part: &[char],
    empty: bool,
) -> Result<(), TextFault>
    requires few { length parts.old.items ≤ MAX_TEXT }
    requires short { length part.now ≤ MAX_TEXT }
    ensures { spec.AddsPart parts.old.items part.now empty parts.new.items result }
{
    if part.is_empty() && !empty {
        return Ok(());
    }
    if parts.len() >= MAX_TEXT {
        return Err(TextFault::TooLong);
    }
    let text = copied(alloc, part)?;
    match parts.push(text) {
        Ok(()) => Ok(()),
        Err(_) => Err(TextFault::NoMemory),
    }
}
