//! `char` and `range`, which make a String and an array of ints.
ghost use Rattle.std.specs.Prelude.{◌≡◌, ◌∷◌, [], map, pos, Some};
ghost use Rattle.gd_answers.specs.Answers.{Gives, exact};
ghost use Rattle.gd_model.specs.Meant.{datum};
ghost use Rattle.gd_text.specs.Text.{Gives as GivesText};
ghost use Rattle.value_semantics.specs.Answer.{and_then};
ghost use Rattle.value_semantics.specs.Builtins as spec;
ghost use Rattle.value_semantics.specs.Functions.{one_int};
ghost use Rattle.value_semantics.specs.Made.{text_made};
ghost use Rattle.value_semantics.specs.Ranges as ranges;

use crate::functions::one_int;
use crate::misfit::misfit;
use gd_answers::{Fresh, refused, text};
use gd_containers::{MAX_ITEMS, ThingFault, TypedArray};
use gd_model::{RunFault, Ty, Value};
use gd_operators::push;
use gd_syntax::{Text, TextFault};
use std::alloc::Global;

/// `char(n)`: the String of the character with this code. `OutOfRange` where there is none.
pub fn call_char(alloc: Global, args: &[Value]) -> Result<Fresh, ThingFault>
    ensures { Gives (and_then (one_int (map datum args.now)) spec.char_call) result }
{
    let n = one_int(args)?;
    character(alloc, n)
}

fn character(alloc: Global, n: i64) -> Result<Fresh, ThingFault>
    ensures { Gives (spec.char_call n) result }
{
    match char_of(n) {
        Some(c) => one_character(alloc, c),
        None => refused(RunFault::OutOfRange),
    }
}

fn one_character(alloc: Global, c: char) -> Result<Fresh, ThingFault>
    ensures { Gives (text_made (c ∷ [])) result }
{
    match Vec::from_slice(alloc, &[c]) {
        Ok(chars) => text(text_of_chars(chars)),
        Err(_) => Err(ThingFault::NoMemory),
    }
}

fn text_of_chars(chars: Vec<char>) -> Result<Text, TextFault>
    ensures { GivesText (Some chars.items) result }
{
    Text::of(chars)
}

fn char_of(n: i64) -> Option<char>
    ensures { result ≡ spec.char_of n }
{
    if n < 0 || n > 0x10_FFFF {
        return None;
    }
    char::from_u32(n as u32)
}

/// `range` of the end, of the first int and the end, or of these and the step. `ZeroDivisorOrStep` for step 0, then
/// `TooLong` exactly where there are more ints than an array may have.
pub fn call_range(alloc: Global, args: &[Value]) -> Result<Fresh, ThingFault>
    ensures { Gives (and_then (spec.range_args (map datum args.now)) (λ p. ranges.range_gives p.0 p.1 p.2)) result }
{
    let (first, end, step) = range_args(args)?;
    range(alloc, first, end, step)
}

/// The first int, the end and the step.
fn range_args(args: &[Value]) -> Result<(i64, i64, i64), ThingFault>
    ensures { result ≡ exact (spec.range_args (map datum args.now)) }
{
    match args {
        [Value::Int(end)] => Ok((0, *end, 1)),
        [Value::Int(first), Value::Int(end)] => Ok((*first, *end, 1)),
        [Value::Int(first), Value::Int(end), Value::Int(step)] => Ok((*first, *end, *step)),
        _ => misfit(args, 1, 3),
    }
}

/// The ints from `first` on by `step` and before `end`.
fn range(alloc: Global, first: i64, end: i64, step: i64) -> Result<Fresh, ThingFault>
    ensures { Gives (ranges.range_gives first end step) result }
{
    if step == 0 {
        return refused(RunFault::ZeroDivisorOrStep);
    }
    let size = range_size(first, end, step);
    if size > MAX_ITEMS as u64 {
        return refused(RunFault::TooLong);
    }
    let mut all = TypedArray::new(alloc, Ty::Variant, false);
    let mut next = first;
    for _turn in 0..size {
        push(&mut all, Value::Int(next))?;
        next = next.wrapping_add(step);
    }
    Ok(Fresh::Array(all))
}

/// How many ints a range has.
fn range_size(first: i64, end: i64, step: i64) -> u64
    requires { ¬ (step ≡ pos 0) }
    ensures { result ≡ ranges.range_size first end step }
{
    if comes_before(step, end, first) {
        end.abs_diff(first).div_ceil(step.unsigned_abs())
    } else {
        0
    }
}

/// Whether the int comes before the end of a range that goes on by `step`.
fn comes_before(step: i64, end: i64, n: i64) -> bool
    ensures { result ≡ ranges.comes_before step end n }
{
    (step > 0 && n < end) || (step < 0 && n > end)
}
