//! `resize`, whose new elements are start values that the caller makes.
ghost use Rattle.std.specs.Prelude.{◌≡◌, ◌⊎◌, ℕ, ◌+◌, ◌≤◌, List, [], ◌++◌, length, map, take, drop};
ghost use Rattle.gd_model.specs.declared.value.Value.{Value as TheValue};
ghost use Rattle.gd_model.specs.declared.value.Value.TheVariants.{Nil};
ghost use Rattle.gd_model.specs.Meant.{array_thing, datum};
ghost use Rattle.gd_answers.specs.Answers.{exact};
ghost use Rattle.value_semantics.specs.declared.builtin.Builtin.TheVariants as b;
ghost use Rattle.store_semantics.specs.Writes as spec;
ghost use Rattle.container_methods.specs.Arrays.{HasPlace, answer, gone, items_after};

use crate::array_change::ArrayChange;
use crate::calling::opened;
use gd_answers::refused;
use gd_containers::{MAX_ITEMS, ThingFault, TypedArray};
use gd_model::{RunFault, Value};
use value_semantics::Builtin;

/// How many elements stay, and how many start values of the element type follow them. `WrongNumberOfArguments`, then
/// `ReadOnly`, then `ValueOfAnotherType` for another argument than an int, then `OutOfRange` below 0, then `TooLong`.
pub fn resize(a: &TypedArray, args: &[Value]) -> Result<(u32, u32), ThingFault>
    ensures { result ≡ exact (spec.resize (array_thing a.now) (map datum args.now)) }
{
    match opened(Builtin::ArrayResize, a.fixed(), args) {
        Ok(()) => sizes(a, args),
        Err(fault) => Err(fault),
    }
}

fn sizes(a: &TypedArray, args: &[Value]) -> Result<(u32, u32), ThingFault>
    ensures { result ≡ exact (spec.resize_size (array_thing a.now) (map datum args.now)) }
{
    match args {
        [Value::Int(n)] => sizes_for(a, *n),
        _ => refused(RunFault::ValueOfAnotherType),
    }
}

fn sizes_for(a: &TypedArray, n: i64) -> Result<(u32, u32), ThingFault>
    ensures { result ≡ exact (spec.resized_to (array_thing a.now) n) }
{
    if n < 0 {
        return refused(RunFault::OutOfRange);
    }
    if n > MAX_ITEMS as i64 {
        return refused(RunFault::TooLong);
    }
    let wanted = n as u32;
    let more = wanted.saturating_sub(a.size());
    Ok((wanted - more, more))
}

/// The change after which so many elements stay and the start values follow them, as `resize` decided.
pub fn resized_by(stay: u32, starts: Vec<Value>) -> ArrayChange
    ensures items { (xs : List TheValue) → (stay ≡ length xs) ⊎ (starts.items ≡ []) → items_after result xs ≡ take stay xs ++ starts.items }
    ensures place { (n : ℕ) → n + length starts.items ≤ MAX_ITEMS → HasPlace result n }
    ensures silent { (xs : List TheValue) → answer result xs ≡ Nil }
    ensures gone { (xs : List TheValue) → (stay ≡ length xs) ⊎ (starts.items ≡ []) → gone result xs ≡ drop stay xs }
{
    if starts.is_empty() {
        ArrayChange::Cut(stay)
    } else {
        ArrayChange::Extend(starts)
    }
}
