//! The methods of arrays that write: what each does to the array.
ghost use Rattle.std.specs.Prelude.{◌≡◌, ◌<◌, [], ◌∷◌, Bool, Ok, false, not, length, map, replicate, IfOk, OnOk};
ghost use Rattle.gd_model.specs.declared.fault.RunFault.TheVariants.{ValueOfAnotherType, TooLong};
ghost use Rattle.gd_model.specs.Datum.{Datum};
ghost use Rattle.gd_model.specs.Meant.{array_thing, datum};
ghost use Rattle.gd_model.specs.Place as place;
ghost use Rattle.gd_model.specs.Store.{Store};
ghost use Rattle.gd_model.specs.Whole.{AllWhole, Whole};
ghost use Rattle.gd_answers.specs.Answers.{AnswersAs};
ghost use Rattle.assignability.specs.Fits as fitting;
ghost use Rattle.value_semantics.specs.declared.builtin.Builtin.TheVariants as b;
ghost use Rattle.store_semantics.specs.Subscripts.{unless};
ghost use Rattle.store_semantics.specs.Writes as spec;
ghost use Rattle.container_methods.specs.Arrays.{HasPlace, gives, made, without_found};

use crate::array_change::ArrayChange;
use crate::calling::opened;
use crate::fitting::all_fit;
use crate::sorting::sorted;
use assignability::{Bases, fits};
use gd_answers::refused;
use gd_containers::{Look, MAX_ITEMS, ThingFault, TypedArray, array_of, gap_place, item_place};
use gd_model::{RunFault, Value};
use gd_operators::first_place;
use no_memory::NoMemory;
use std::alloc::Global;
use value_semantics::Builtin;

/// What the method does to the array with these arguments. It is refused with `WrongNumberOfArguments`, then `ReadOnly`,
/// then `ValueOfAnotherType` for arguments of other kinds, and then as the method says: `OutOfRange`, `BadOperands`,
/// `TooDeepToCompare`, `ValueOfAnotherType` of what does not fit the element type, `TooLong`.
///
/// What the change brings are shares of the arguments' values and of those of another array, which the array does not
/// hold before the change is made. `resize` is decided by a call of its own, and is refused here.
pub fn decide_array<B: Bases, K: Look>(
    alloc: Global,
    method: Builtin,
    a: &TypedArray,
    args: &[Value],
    bases: &B,
    look: &K,
) -> Result<ArrayChange, ThingFault>
    requires elements { AllWhole (K.things look.now) (K.names look.now) a.now.items }
    requires whole { AllWhole (K.things look.now) (K.names look.now) args.now }
    ensures meant { AnswersAs (made a.now) (spec.array_write (fitting.fits (B.bases bases.now) (K.store look.now) a.now.element) (K.store look.now) method (array_thing a.now) (map datum args.now)) result }
    ensures open { OnOk result (a.now.fixed ≡ false) }
    ensures place { IfOk result (λ change. HasPlace change (length a.now.items)) }
{
    match opened(method, a.fixed(), args) {
        Ok(()) => decided(alloc, method, a, args, bases, look),
        Err(fault) => Err(fault),
    }
}

fn decided<B: Bases, K: Look>(
    alloc: Global,
    method: Builtin,
    a: &TypedArray,
    args: &[Value],
    bases: &B,
    look: &K,
) -> Result<ArrayChange, ThingFault>
    requires elements { AllWhole (K.things look.now) (K.names look.now) a.now.items }
    requires whole { AllWhole (K.things look.now) (K.names look.now) args.now }
    ensures meant { AnswersAs (made a.now) (gives (B.bases bases.now) (K.store look.now) method a.now args.now) result }
    ensures place { IfOk result (λ change. HasPlace change (length a.now.items)) }
{
    match method {
        Builtin::ArrayAppend => append(a, args, bases, look),
        Builtin::ArrayPushBack => append(a, args, bases, look),
        Builtin::ArrayPushFront => push_front(a, args, bases, look),
        Builtin::ArrayPopBack => pop_back(a, args),
        Builtin::ArrayPopFront => pop_front(a, args),
        Builtin::ArrayInsert => insert(a, args, bases, look),
        Builtin::ArrayRemoveAt => remove_at(a, args),
        Builtin::ArrayErase => erase(a, args, look),
        Builtin::ArrayClear => clear(a, args),
        Builtin::ArrayReverse => reverse(a, args),
        Builtin::ArraySort => sort(alloc, a, args),
        Builtin::ArrayAppendArray => append_array(alloc, a, args, bases, look),
        Builtin::ArrayFill => fill(alloc, a, args, bases, look),
        _ => refused(RunFault::ValueOfAnotherType),
    }
}

/// The value once more, to go into the array. `ValueOfAnotherType` where it does not fit, then `TooLong`.
fn entering<B: Bases, K: Look>(
    a: &TypedArray,
    v: &Value,
    bases: &B,
    look: &K,
) -> Result<Value, ThingFault>
    requires whole { Whole (K.things look.now) (K.names look.now) v.now }
    ensures meant { AnswersAs datum (unless ((not (fitting.fits (B.bases bases.now) (K.store look.now) a.now.element (datum v.now)), ValueOfAnotherType) ∷ (spec.is_full (map datum a.now.items), TooLong) ∷ []) (datum v.now)) result }
    ensures value { IfOk result (λ w. w ≡ v.now) }
    ensures room { OnOk result (length a.now.items < MAX_ITEMS) }
{
    if !fits(bases, look, a.element(), v) {
        return refused(RunFault::ValueOfAnotherType);
    }
    if a.items().len() >= MAX_ITEMS {
        return refused(RunFault::TooLong);
    }
    Ok(v.share()?)
}

fn append<B: Bases, K: Look>(
    a: &TypedArray,
    args: &[Value],
    bases: &B,
    look: &K,
) -> Result<ArrayChange, ThingFault>
    requires whole { AllWhole (K.things look.now) (K.names look.now) args.now }
    ensures meant { AnswersAs (made a.now) (gives (B.bases bases.now) (K.store look.now) b.ArrayAppend a.now args.now) result }
    ensures place { IfOk result (λ change. HasPlace change (length a.now.items)) }
{
    match args {
        [v] => match entering(a, v, bases, look) {
            Ok(entered) => Ok(ArrayChange::Push(entered)),
            Err(fault) => Err(fault),
        },
        _ => refused(RunFault::ValueOfAnotherType),
    }
}

fn push_front<B: Bases, K: Look>(
    a: &TypedArray,
    args: &[Value],
    bases: &B,
    look: &K,
) -> Result<ArrayChange, ThingFault>
    requires whole { AllWhole (K.things look.now) (K.names look.now) args.now }
    ensures meant { AnswersAs (made a.now) (gives (B.bases bases.now) (K.store look.now) b.ArrayPushFront a.now args.now) result }
    ensures place { IfOk result (λ change. HasPlace change (length a.now.items)) }
{
    match args {
        [v] => match entering(a, v, bases, look) {
            Ok(entered) => Ok(ArrayChange::Insert(0, entered)),
            Err(fault) => Err(fault),
        },
        _ => refused(RunFault::ValueOfAnotherType),
    }
}

fn pop_back(a: &TypedArray, args: &[Value]) -> Result<ArrayChange, ThingFault>
    ensures meant { (fits : Datum → Bool) (store : Store) → AnswersAs (made a.now) (spec.array_gives fits store b.ArrayPopBack (array_thing a.now) (map datum args.now)) result }
    ensures place { IfOk result (λ change. HasPlace change (length a.now.items)) }
{
    match args {
        [] => Ok(taken(a, -1)),
        _ => refused(RunFault::ValueOfAnotherType),
    }
}

fn pop_front(a: &TypedArray, args: &[Value]) -> Result<ArrayChange, ThingFault>
    ensures meant { (fits : Datum → Bool) (store : Store) → AnswersAs (made a.now) (spec.array_gives fits store b.ArrayPopFront (array_thing a.now) (map datum args.now)) result }
    ensures place { IfOk result (λ change. HasPlace change (length a.now.items)) }
{
    match args {
        [] => Ok(taken(a, 0)),
        _ => refused(RunFault::ValueOfAnotherType),
    }
}

/// The element at a place is the answer, or null where there is none.
fn taken(a: &TypedArray, at: i64) -> ArrayChange
    ensures meant { spec.taken (array_thing a.now) at ≡ Ok (made a.now result) }
    ensures place { HasPlace result (length a.now.items) }
{
    match item_place(at, a.size() as usize) {
        Some(i) => ArrayChange::Take(i as u32),
        None => ArrayChange::Keep,
    }
}

fn insert<B: Bases, K: Look>(
    a: &TypedArray,
    args: &[Value],
    bases: &B,
    look: &K,
) -> Result<ArrayChange, ThingFault>
    requires whole { AllWhole (K.things look.now) (K.names look.now) args.now }
    ensures meant { AnswersAs (made a.now) (gives (B.bases bases.now) (K.store look.now) b.ArrayInsert a.now args.now) result }
    ensures place { IfOk result (λ change. HasPlace change (length a.now.items)) }
{
    match args {
        [at, v] => insert_at(a, at, v, bases, look),
        _ => refused(RunFault::ValueOfAnotherType),
    }
}

fn insert_at<B: Bases, K: Look>(
    a: &TypedArray,
    at: &Value,
    v: &Value,
    bases: &B,
    look: &K,
) -> Result<ArrayChange, ThingFault>
    requires whole { Whole (K.things look.now) (K.names look.now) v.now }
    ensures meant { AnswersAs (made a.now) (spec.array_gives (fitting.fits (B.bases bases.now) (K.store look.now) a.now.element) (K.store look.now) b.ArrayInsert (array_thing a.now) (datum at.now ∷ datum v.now ∷ [])) result }
    ensures place { IfOk result (λ change. HasPlace change (length a.now.items)) }
{
    match at {
        Value::Int(n) => inserted(a, *n, v, bases, look),
        _ => refused(RunFault::ValueOfAnotherType),
    }
}

/// The value goes before the place. `OutOfRange`, then `ValueOfAnotherType`, then `TooLong`.
fn inserted<B: Bases, K: Look>(
    a: &TypedArray,
    at: i64,
    v: &Value,
    bases: &B,
    look: &K,
) -> Result<ArrayChange, ThingFault>
    requires whole { Whole (K.things look.now) (K.names look.now) v.now }
    ensures meant { AnswersAs (made a.now) (spec.inserted (fitting.fits (B.bases bases.now) (K.store look.now) a.now.element) (array_thing a.now) (place.gap at (length (map datum a.now.items))) (datum v.now)) result }
    ensures place { IfOk result (λ change. HasPlace change (length a.now.items)) }
{
    let Some(i) = gap_place(at, a.size() as usize) else {
        return refused(RunFault::OutOfRange);
    };
    match entering(a, v, bases, look) {
        Ok(entered) => Ok(ArrayChange::Insert(i as u32, entered)),
        Err(fault) => Err(fault),
    }
}

fn remove_at(a: &TypedArray, args: &[Value]) -> Result<ArrayChange, ThingFault>
    ensures meant { (fits : Datum → Bool) (store : Store) → AnswersAs (made a.now) (spec.array_gives fits store b.ArrayRemoveAt (array_thing a.now) (map datum args.now)) result }
    ensures place { IfOk result (λ change. HasPlace change (length a.now.items)) }
{
    match args {
        [Value::Int(at)] => removed(a, *at),
        _ => refused(RunFault::ValueOfAnotherType),
    }
}

fn removed(a: &TypedArray, at: i64) -> Result<ArrayChange, ThingFault>
    ensures meant { AnswersAs (made a.now) (spec.removed (array_thing a.now) (place.place at (length (map datum a.now.items)))) result }
    ensures place { IfOk result (λ change. HasPlace change (length a.now.items)) }
{
    match item_place(at, a.size() as usize) {
        Some(i) => Ok(ArrayChange::Remove(i as u32)),
        None => refused(RunFault::OutOfRange),
    }
}

fn erase<K: Look>(a: &TypedArray, args: &[Value], look: &K) -> Result<ArrayChange, ThingFault>
    requires elements { AllWhole (K.things look.now) (K.names look.now) a.now.items }
    requires whole { AllWhole (K.things look.now) (K.names look.now) args.now }
    ensures meant { (fits : Datum → Bool) → AnswersAs (made a.now) (spec.array_gives fits (K.store look.now) b.ArrayErase (array_thing a.now) (map datum args.now)) result }
    ensures place { IfOk result (λ change. HasPlace change (length a.now.items)) }
{
    match args {
        [v] => erased(a, v, look),
        _ => refused(RunFault::ValueOfAnotherType),
    }
}

/// The first element leaves that equals the value.
fn erased<K: Look>(a: &TypedArray, v: &Value, look: &K) -> Result<ArrayChange, ThingFault>
    requires elements { AllWhole (K.things look.now) (K.names look.now) a.now.items }
    requires whole { Whole (K.things look.now) (K.names look.now) v.now }
    ensures meant { AnswersAs (made a.now) (spec.without_value (K.store look.now) (array_thing a.now) (datum v.now)) result }
    ensures place { IfOk result (λ change. HasPlace change (length a.now.items)) }
{
    match first_place(a, v, 0, look) {
        Ok(found) => Ok(without(found)),
        Err(fault) => Err(fault),
    }
}

/// The element that was found leaves.
fn without(found: Option<u32>) -> ArrayChange
    ensures { result ≡ without_found found }
{
    match found {
        Some(i) => ArrayChange::Remove(i),
        None => ArrayChange::Keep,
    }
}

fn clear(a: &TypedArray, args: &[Value]) -> Result<ArrayChange, ThingFault>
    ensures meant { (fits : Datum → Bool) (store : Store) → AnswersAs (made a.now) (spec.array_gives fits store b.ArrayClear (array_thing a.now) (map datum args.now)) result }
    ensures place { IfOk result (λ change. HasPlace change (length a.now.items)) }
{
    match args {
        [] => Ok(ArrayChange::Clear),
        _ => refused(RunFault::ValueOfAnotherType),
    }
}

fn reverse(a: &TypedArray, args: &[Value]) -> Result<ArrayChange, ThingFault>
    ensures meant { (fits : Datum → Bool) (store : Store) → AnswersAs (made a.now) (spec.array_gives fits store b.ArrayReverse (array_thing a.now) (map datum args.now)) result }
    ensures place { IfOk result (λ change. HasPlace change (length a.now.items)) }
{
    match args {
        [] => Ok(ArrayChange::Reverse),
        _ => refused(RunFault::ValueOfAnotherType),
    }
}

fn sort(alloc: Global, a: &TypedArray, args: &[Value]) -> Result<ArrayChange, ThingFault>
    ensures meant { (fits : Datum → Bool) (store : Store) → AnswersAs (made a.now) (spec.array_gives fits store b.ArraySort (array_thing a.now) (map datum args.now)) result }
    ensures place { IfOk result (λ change. HasPlace change (length a.now.items)) }
{
    match args {
        [] => {
            // No array is longer than its limit, and sorting keeps the length.
            let _size = a.size();
            match sorted(alloc, a) {
                Ok(items) => Ok(ArrayChange::Replace(items)),
                Err(fault) => Err(fault),
            }
        }
        _ => refused(RunFault::ValueOfAnotherType),
    }
}

fn append_array<B: Bases, K: Look>(
    alloc: Global,
    a: &TypedArray,
    args: &[Value],
    bases: &B,
    look: &K,
) -> Result<ArrayChange, ThingFault>
    requires whole { AllWhole (K.things look.now) (K.names look.now) args.now }
    ensures meant { AnswersAs (made a.now) (gives (B.bases bases.now) (K.store look.now) b.ArrayAppendArray a.now args.now) result }
    ensures place { IfOk result (λ change. HasPlace change (length a.now.items)) }
{
    match args {
        [other] => append_other(alloc, a, other, bases, look),
        _ => refused(RunFault::ValueOfAnotherType),
    }
}

fn append_other<B: Bases, K: Look>(
    alloc: Global,
    a: &TypedArray,
    other: &Value,
    bases: &B,
    look: &K,
) -> Result<ArrayChange, ThingFault>
    requires whole { Whole (K.things look.now) (K.names look.now) other.now }
    ensures meant { AnswersAs (made a.now) (spec.array_gives (fitting.fits (B.bases bases.now) (K.store look.now) a.now.element) (K.store look.now) b.ArrayAppendArray (array_thing a.now) (datum other.now ∷ [])) result }
    ensures place { IfOk result (λ change. HasPlace change (length a.now.items)) }
{
    match other {
        Value::Array(h) => joined(alloc, a, array_of(look, *h), bases, look),
        _ => refused(RunFault::ValueOfAnotherType),
    }
}

/// The elements of the other array come last. `ValueOfAnotherType` where one does not fit, then `TooLong`.
fn joined<B: Bases, K: Look>(
    alloc: Global,
    a: &TypedArray,
    other: &TypedArray,
    bases: &B,
    look: &K,
) -> Result<ArrayChange, ThingFault>
    requires whole { AllWhole (K.things look.now) (K.names look.now) other.now.items }
    ensures meant { AnswersAs (made a.now) (spec.joined (fitting.fits (B.bases bases.now) (K.store look.now) a.now.element) (array_thing a.now) (array_thing other.now)) result }
    ensures place { IfOk result (λ change. HasPlace change (length a.now.items)) }
{
    if !all_fit(bases, look, a.element(), other.items()) {
        return refused(RunFault::ValueOfAnotherType);
    }
    if a.items().len() + other.items().len() > MAX_ITEMS {
        return refused(RunFault::TooLong);
    }
    Ok(ArrayChange::Extend(other.share_items(alloc)?))
}

fn fill<B: Bases, K: Look>(
    alloc: Global,
    a: &TypedArray,
    args: &[Value],
    bases: &B,
    look: &K,
) -> Result<ArrayChange, ThingFault>
    requires whole { AllWhole (K.things look.now) (K.names look.now) args.now }
    ensures meant { AnswersAs (made a.now) (gives (B.bases bases.now) (K.store look.now) b.ArrayFill a.now args.now) result }
    ensures place { IfOk result (λ change. HasPlace change (length a.now.items)) }
{
    match args {
        [v] => filled(alloc, a, v, bases, look),
        _ => refused(RunFault::ValueOfAnotherType),
    }
}

/// Each element becomes the value. `ValueOfAnotherType` where it does not fit, also in an empty array.
fn filled<B: Bases, K: Look>(
    alloc: Global,
    a: &TypedArray,
    v: &Value,
    bases: &B,
    look: &K,
) -> Result<ArrayChange, ThingFault>
    requires whole { Whole (K.things look.now) (K.names look.now) v.now }
    ensures meant { AnswersAs (made a.now) (spec.filled (fitting.fits (B.bases bases.now) (K.store look.now) a.now.element) (array_thing a.now) (datum v.now)) result }
    ensures place { IfOk result (λ change. HasPlace change (length a.now.items)) }
{
    if !fits(bases, look, a.element(), v) {
        return refused(RunFault::ValueOfAnotherType);
    }
    Ok(ArrayChange::Replace(copies(alloc, v, a.size() as usize)?))
}

/// The value so many times.
fn copies(alloc: Global, v: &Value, count: usize) -> Result<Vec<Value>, NoMemory>
    ensures { IfOk result (λ all. all.items ≡ replicate count v.now) }
{
    let mut all = Vec::with_capacity(alloc, count)?;
    for _ in 0..count {
        all.push(v.share()?)?;
    }
    Ok(all)
}
