//! Merging a dictionary into another.
ghost use Rattle.std.specs.Prelude.{◌≡◌, ◌≤◌, ◌&&◌, ◌||◌, ◌++◌, [], ◌∷◌, not, is_none, IfOk, OnOk, if◌then◌else◌};
ghost use Rattle.std.specs.List.{list_all};
ghost use Rattle.gd_model.specs.KeyDatum.{key_datum};
ghost use Rattle.gd_model.specs.Meant.{datum, dict_thing};
ghost use Rattle.gd_model.specs.View.{value_at};
ghost use Rattle.gd_model.specs.Whole.{AllWhole, Whole, key_value, pair_values};
ghost use Rattle.gd_answers.specs.Answers.{AnswersAs};
ghost use Rattle.assignability.specs.Fits as fitting;
ghost use Rattle.store_semantics.specs.Writes as spec;
ghost use Rattle.container_methods.specs.Dicts.{HasRoom, both_fit, fresh_count, made, written};

use crate::dict_change::DictChange;
use crate::growing::push;
use assignability::{Bases, fits};
use gd_answers::refused;
use gd_containers::{Look, MAX_ITEMS, OrderedDict, ThingFault};
use gd_model::{Key, RunFault, Value};
use no_memory::NoMemory;
use std::alloc::Global;

/// The pairs of the other dictionary whose keys are new here, or all of them with `over`, are put. `ValueOfAnotherType`
/// where one of these does not fit, then `TooLong`.
pub fn merge<B: Bases, K: Look>(
    alloc: Global,
    d: &OrderedDict,
    other: &OrderedDict,
    over: bool,
    bases: &B,
    look: &K,
) -> Result<DictChange, ThingFault>
    requires whole { AllWhole (K.things look.now) (K.names look.now) (pair_values other.now.pairs) }
    ensures meant { AnswersAs (made d.now) (spec.merge (fitting.fits (B.bases bases.now) (K.store look.now) d.now.key_type) (fitting.fits (B.bases bases.now) (K.store look.now) d.now.value_type) (dict_thing d.now) (dict_thing other.now) over) result }
    ensures room { IfOk result (λ change. HasRoom change d.now.pairs) }
{
    other.keys_differ();
    if has_misfit(d, other, over, bases, look)? {
        return refused(RunFault::ValueOfAnotherType);
    }
    if d.size() + fresh(d, other) > MAX_ITEMS as u32 {
        return refused(RunFault::TooLong);
    }
    let pairs = collected(alloc, d, other, over)?;
    Ok(DictChange::Merge(pairs))
}

/// Whether a pair with this key is put.
fn is_put(d: &OrderedDict, key: &Key, over: bool) -> bool
    ensures { result ≡ (over || is_none (value_at d.now.pairs key.now)) }
{
    over || d.get(key).is_none()
}

/// Whether a pair that is put does not fit the types of the dictionary.
fn has_misfit<B: Bases, K: Look>(
    d: &OrderedDict,
    other: &OrderedDict,
    over: bool,
    bases: &B,
    look: &K,
) -> Result<bool, NoMemory>
    requires whole { AllWhole (K.things look.now) (K.names look.now) (pair_values other.now.pairs) }
    ensures { IfOk result (λ yes. yes ≡ not (list_all (both_fit (fitting.fits (B.bases bases.now) (K.store look.now) d.now.key_type) (fitting.fits (B.bases bases.now) (K.store look.now) d.now.value_type)) (written over d.now.pairs other.now.pairs))) }
{
    for i in 0..other.size() {
        let Some((key, value)) = other.at(i) else {
            unreachable!();
        };
        if is_misfit(d, key, value, over, bases, look)? {
            return Ok(true);
        }
    }
    Ok(false)
}

/// Whether the pair is put and does not fit the types of the dictionary.
fn is_misfit<B: Bases, K: Look>(
    d: &OrderedDict,
    key: &Key,
    value: &Value,
    over: bool,
    bases: &B,
    look: &K,
) -> Result<bool, NoMemory>
    requires key { Whole (K.things look.now) (K.names look.now) (key_value key.now) }
    requires whole { Whole (K.things look.now) (K.names look.now) value.now }
    ensures { IfOk result (λ yes. yes ≡ ((over || is_none (value_at d.now.pairs key.now)) && not (both_fit (fitting.fits (B.bases bases.now) (K.store look.now) d.now.key_type) (fitting.fits (B.bases bases.now) (K.store look.now) d.now.value_type) (key.now, value.now)))) }
{
    if !is_put(d, key, over) {
        return Ok(false);
    }
    let fit = pair_fits(d, key, value, bases, look)?;
    Ok(!fit)
}

/// Whether the key and the value fit the types of the dictionary.
fn pair_fits<B: Bases, K: Look>(
    d: &OrderedDict,
    key: &Key,
    value: &Value,
    bases: &B,
    look: &K,
) -> Result<bool, NoMemory>
    requires key { Whole (K.things look.now) (K.names look.now) (key_value key.now) }
    requires whole { Whole (K.things look.now) (K.names look.now) value.now }
    ensures { IfOk result (λ yes. yes ≡ (fitting.fits (B.bases bases.now) (K.store look.now) d.now.key_type (key_datum key.now) && fitting.fits (B.bases bases.now) (K.store look.now) d.now.value_type (datum value.now))) }
{
    let named = value_of(key)?;
    Ok(fits(bases, look, d.key_type(), &named) && fits(bases, look, d.value_type(), value))
}

/// The value that a key is.
fn value_of(key: &Key) -> Result<Value, NoMemory>
    ensures { IfOk result (λ v. v ≡ key_value key.now) }
{
    match key {
        Key::Nil => Ok(Value::Nil),
        Key::Bool(b) => Ok(Value::Bool(*b)),
        Key::Int(n) => Ok(Value::Int(*n)),
        Key::Str(text) => Ok(Value::Str(text.share()?)),
        Key::Object(h) => Ok(Value::Object(*h)),
    }
}

/// How many keys of the other dictionary are new here.
fn fresh(d: &OrderedDict, other: &OrderedDict) -> u32
    ensures count { result ≡ fresh_count d.now.pairs other.now.pairs }
    ensures limit { result ≤ MAX_ITEMS }
{
    let mut all = 0;
    for i in 0..other.size() {
        let Some((key, _)) = other.at(i) else {
            unreachable!();
        };
        all += u32::from(is_put(d, key, false));
    }
    all
}

/// The pairs that are put.
fn collected(
    alloc: Global,
    d: &OrderedDict,
    other: &OrderedDict,
    over: bool,
) -> Result<Vec<(Key, Value)>, NoMemory>
    ensures { IfOk result (λ all. all.items ≡ written over d.now.pairs other.now.pairs) }
{
    let mut all = Vec::new(alloc);
    for i in 0..other.size() {
        let Some((key, value)) = other.at(i) else {
            unreachable!();
        };
        collect(&mut all, is_put(d, key, over), key, value)?;
    }
    Ok(all)
}

/// Puts the pair at the end of the list, if it is to be put.
fn collect(
    all: &mut Vec<(Key, Value)>,
    is_put: bool,
    key: &Key,
    value: &Value,
) -> Result<(), NoMemory>
    ensures { OnOk result (all.new.items ≡ all.old.items ++ (if is_put then (key.now, value.now) ∷ [] else [])) }
{
    if is_put {
        push(all, (key.share()?, value.share()?))?;
    }
    Ok(())
}
