//! The methods of arrays that do not write.
ghost use Rattle.std.specs.Prelude.{◌≡◌, Ok, false, map, pos};
ghost use Rattle.gd_model.specs.Meant.{array_thing, datum};
ghost use Rattle.gd_model.specs.Place.{element_at};
ghost use Rattle.gd_model.specs.Whole.{AllWhole, Whole};
ghost use Rattle.gd_answers.specs.Answers.{Gives, exact, meant};
ghost use Rattle.value_semantics.specs.Answer.{and_then, in_form};
ghost use Rattle.value_semantics.specs.Equality as equality;
ghost use Rattle.value_semantics.specs.Made as made;
ghost use Rattle.value_semantics.specs.Methods as spec;

use crate::misfit::misfit;
use crate::text_methods::found;
use gd_answers::{Fresh, boolean, int, refused};
use gd_containers::{Look, ThingFault, TypedArray};
use gd_model::{RunFault, Value};
use gd_operators::{first_place, same};
use std::alloc::Global;
use value_semantics::Builtin;

/// The end of a slice that is not given.
const NO_END: i64 = 2_147_483_647;

/// A method of the array `a`. `WrongNumberOfArguments`, then `ValueOfAnotherType`, then `TooDeepToCompare`;
/// `NoSuchMethod` where it is no method of arrays that does not write.
pub fn call_on_array<K: Look>(
    alloc: Global,
    method: Builtin,
    a: &TypedArray,
    args: &[Value],
    look: &K,
) -> Result<Fresh, ThingFault>
    requires elements { AllWhole (K.things look.now) (K.names look.now) a.now.items }
    requires whole { AllWhole (K.things look.now) (K.names look.now) args.now }
    ensures { Gives (spec.arrays_call (K.store look.now) method (array_thing a.now) (map datum args.now)) result }
{
    match method {
        Builtin::ArraySize
        | Builtin::ArrayIsEmpty
        | Builtin::ArrayIsReadOnly
        | Builtin::ArrayFront
        | Builtin::ArrayBack
        | Builtin::ArrayDuplicate => call_alone(alloc, method, a, args),
        Builtin::ArraySlice => call_slice(alloc, a, args),
        Builtin::ArrayHas => call_has(a, args, look),
        Builtin::ArrayCount => call_count(a, args, look),
        Builtin::ArrayFind => call_find(a, args, look),
        _ => refused(RunFault::NoSuchMethod),
    }
}

fn call_alone(
    alloc: Global,
    method: Builtin,
    a: &TypedArray,
    args: &[Value],
) -> Result<Fresh, ThingFault>
    ensures { Gives (spec.alone (spec.array_alone method (array_thing a.now)) (map datum args.now)) result }
{
    match args {
        [] => alone(alloc, method, a),
        _ => refused(RunFault::WrongNumberOfArguments),
    }
}

fn alone(alloc: Global, method: Builtin, a: &TypedArray) -> Result<Fresh, ThingFault>
    ensures { Gives (spec.array_alone method (array_thing a.now)) result }
{
    match method {
        Builtin::ArraySize => int(i64::from(a.size())),
        Builtin::ArrayIsEmpty => boolean(a.size() == 0),
        Builtin::ArrayIsReadOnly => boolean(a.fixed()),
        Builtin::ArrayFront => item_or_null(a, 0),
        Builtin::ArrayBack => item_or_null(a, -1),
        Builtin::ArrayDuplicate => duplicate(alloc, a),
        _ => refused(RunFault::NoSuchMethod),
    }
}

fn item_or_null(a: &TypedArray, at: i64) -> Result<Fresh, ThingFault>
    ensures { Gives (Ok (spec.item_or_null (element_at (map datum a.now.items) at))) result }
{
    match a.get(at) {
        Ok(v) => Ok(Fresh::Value(v.share()?)),
        Err(_) => Ok(Fresh::Value(Value::Nil)),
    }
}

fn duplicate(alloc: Global, a: &TypedArray) -> Result<Fresh, ThingFault>
    ensures { Gives (Ok (made.array (record (array_thing a.now) { fixed = false }))) result }
{
    Ok(Fresh::Array(a.slice(alloc, 0, i64::from(a.size()))?))
}

fn call_slice(alloc: Global, a: &TypedArray, args: &[Value]) -> Result<Fresh, ThingFault>
    ensures { Gives (in_form (λ p. made.array (spec.sliced (array_thing a.now) p)) (spec.int_and_maybe (pos 2147483647) (map datum args.now))) result }
{
    match args {
        [Value::Int(from)] => slice(alloc, a, *from, NO_END),
        [Value::Int(from), Value::Int(to)] => slice(alloc, a, *from, *to),
        _ => misfit(args, 1, 2),
    }
}

fn slice(alloc: Global, a: &TypedArray, from: i64, to: i64) -> Result<Fresh, ThingFault>
    ensures { Gives (Ok (made.array (spec.sliced (array_thing a.now) (from, to)))) result }
{
    Ok(Fresh::Array(a.slice(alloc, from, to)?))
}

fn call_has<K: Look>(a: &TypedArray, args: &[Value], look: &K) -> Result<Fresh, ThingFault>
    requires elements { AllWhole (K.things look.now) (K.names look.now) a.now.items }
    requires whole { AllWhole (K.things look.now) (K.names look.now) args.now }
    ensures { meant result ≡ exact (and_then (spec.one_value (map datum args.now)) (spec.has_gives (K.store look.now) (array_thing a.now))) }
{
    match args {
        [v] => has(a, v, look),
        _ => refused(RunFault::WrongNumberOfArguments),
    }
}

fn has<K: Look>(a: &TypedArray, v: &Value, look: &K) -> Result<Fresh, ThingFault>
    requires elements { AllWhole (K.things look.now) (K.names look.now) a.now.items }
    requires whole { Whole (K.things look.now) (K.names look.now) v.now }
    ensures { meant result ≡ exact (spec.has_gives (K.store look.now) (array_thing a.now) (datum v.now)) }
{
    match first_place(a, v, 0, look) {
        Ok(place) => boolean(place.is_some()),
        Err(fault) => Err(fault),
    }
}

fn call_count<K: Look>(a: &TypedArray, args: &[Value], look: &K) -> Result<Fresh, ThingFault>
    requires elements { AllWhole (K.things look.now) (K.names look.now) a.now.items }
    requires whole { AllWhole (K.things look.now) (K.names look.now) args.now }
    ensures { meant result ≡ exact (and_then (spec.one_value (map datum args.now)) (spec.count_gives (K.store look.now) (array_thing a.now))) }
{
    match args {
        [v] => counted(a, v, look),
        _ => refused(RunFault::WrongNumberOfArguments),
    }
}

fn counted<K: Look>(a: &TypedArray, v: &Value, look: &K) -> Result<Fresh, ThingFault>
    requires elements { AllWhole (K.things look.now) (K.names look.now) a.now.items }
    requires whole { Whole (K.things look.now) (K.names look.now) v.now }
    ensures { meant result ≡ exact (spec.count_gives (K.store look.now) (array_thing a.now) (datum v.now)) }
{
    match count(a, v, look) {
        Ok(n) => int(i64::from(n)),
        Err(fault) => Err(fault),
    }
}

/// How many elements equal the value.
fn count<K: Look>(a: &TypedArray, v: &Value, look: &K) -> Result<u32, ThingFault>
    requires elements { AllWhole (K.things look.now) (K.names look.now) a.now.items }
    requires whole { Whole (K.things look.now) (K.names look.now) v.now }
    ensures { result ≡ exact (spec.count_from (λ x. equality.same (K.store look.now) x (datum v.now)) 0 (map datum a.now.items)) }
{
    let items = a.items();
    let mut all = 0;
    for i in 0..a.size() {
        all += u32::from(same(&items[i as usize], v, look)?);
    }
    Ok(all)
}

fn call_find<K: Look>(a: &TypedArray, args: &[Value], look: &K) -> Result<Fresh, ThingFault>
    requires elements { AllWhole (K.things look.now) (K.names look.now) a.now.items }
    requires whole { AllWhole (K.things look.now) (K.names look.now) args.now }
    ensures { meant result ≡ exact (and_then (spec.value_and_maybe (map datum args.now)) (spec.place_gives (K.store look.now) (array_thing a.now))) }
{
    match args {
        [v] => place_found(a, v, 0, look),
        [v, Value::Int(from)] => place_found(a, v, *from, look),
        _ => misfit(args, 1, 2),
    }
}

fn place_found<K: Look>(a: &TypedArray, v: &Value, from: i64, look: &K) -> Result<Fresh, ThingFault>
    requires elements { AllWhole (K.things look.now) (K.names look.now) a.now.items }
    requires whole { Whole (K.things look.now) (K.names look.now) v.now }
    ensures { meant result ≡ exact (spec.place_gives (K.store look.now) (array_thing a.now) (datum v.now, from)) }
{
    match place_of(a, v, from, look) {
        Ok(place) => found(place),
        Err(fault) => Err(fault),
    }
}

/// The first place from `from` on of an element that equals the value; none where `from` is negative.
fn place_of<K: Look>(
    a: &TypedArray,
    v: &Value,
    from: i64,
    look: &K,
) -> Result<Option<u32>, ThingFault>
    requires elements { AllWhole (K.things look.now) (K.names look.now) a.now.items }
    requires whole { Whole (K.things look.now) (K.names look.now) v.now }
    ensures { result ≡ exact (spec.place_of (K.store look.now) (array_thing a.now) (datum v.now, from)) }
{
    if from < 0 || from >= i64::from(a.size()) {
        return Ok(None);
    }
    first_place(a, v, from as u32, look)
}
