//! The methods of dictionaries that write: what each does to the dictionary.
ghost use Rattle.std.specs.Prelude.{◌≡◌, ◌<◌, ◌&&◌, Bool, [], ◌∷◌, None, false, not, length, map, IfOk, OnOk};
ghost use Rattle.gd_model.specs.declared.fault.RunFault.TheVariants.{ValueOfAnotherType, TooLong};
ghost use Rattle.gd_model.specs.Datum.{Datum};
ghost use Rattle.gd_model.specs.KeyDatum.{key_datum};
ghost use Rattle.gd_model.specs.Meant.{datum, dict_thing, pair_datum};
ghost use Rattle.gd_model.specs.Store.{Store, value_at};
ghost use Rattle.gd_model.specs.Whole.{AllWhole, Whole};
ghost use Rattle.gd_answers.specs.Answers.{AnswersAs, exact};
ghost use Rattle.assignability.specs.Fits as fitting;
ghost use Rattle.value_semantics.specs.declared.builtin.Builtin.TheVariants as b;
ghost use Rattle.store_semantics.specs.Subscripts.{unless};
ghost use Rattle.store_semantics.specs.Writes as spec;
ghost use Rattle.container_methods.specs.Dicts.{HasRoom, gives, made};

use crate::calling::opened;
use crate::dict_change::DictChange;
use crate::merging::merge;
use assignability::{Bases, fits};
use gd_answers::refused;
use gd_containers::{Look, MAX_ITEMS, OrderedDict, ThingFault, dict_of, key_of};
use gd_model::{Key, RunFault, Value};
use std::alloc::Global;
use value_semantics::Builtin;

/// What the method does to the dictionary with these arguments. It is refused with `WrongNumberOfArguments`, then
/// `ReadOnly`, then `ValueOfAnotherType` for arguments of other kinds, and then as the method says: `BadKey`,
/// `ValueOfAnotherType` of a key or a value that does not fit, `TooLong`.
///
/// What the change brings are shares of the arguments' values and of those of another dictionary, which the dictionary
/// does not hold before the change is made; so is the answer of `get_or_add`.
pub fn decide_dict<B: Bases, K: Look>(
    alloc: Global,
    method: Builtin,
    d: &OrderedDict,
    args: &[Value],
    bases: &B,
    look: &K,
) -> Result<DictChange, ThingFault>
    requires whole { AllWhole (K.things look.now) (K.names look.now) args.now }
    ensures meant { AnswersAs (made d.now) (spec.dict_write (fitting.fits (B.bases bases.now) (K.store look.now) d.now.key_type) (fitting.fits (B.bases bases.now) (K.store look.now) d.now.value_type) (K.store look.now) method (dict_thing d.now) (map datum args.now)) result }
    ensures open { OnOk result (d.now.fixed ≡ false) }
    ensures room { IfOk result (λ change. HasRoom change d.now.pairs) }
{
    match opened(method, d.fixed(), args) {
        Ok(()) => decided(alloc, method, d, args, bases, look),
        Err(fault) => Err(fault),
    }
}

fn decided<B: Bases, K: Look>(
    alloc: Global,
    method: Builtin,
    d: &OrderedDict,
    args: &[Value],
    bases: &B,
    look: &K,
) -> Result<DictChange, ThingFault>
    requires whole { AllWhole (K.things look.now) (K.names look.now) args.now }
    ensures meant { AnswersAs (made d.now) (gives (B.bases bases.now) (K.store look.now) method d.now args.now) result }
    ensures room { IfOk result (λ change. HasRoom change d.now.pairs) }
{
    match method {
        Builtin::DictionaryGetOrAdd => get_or_add(d, args, bases, look),
        Builtin::DictionaryErase => erase(d, args),
        Builtin::DictionaryClear => clear(d, args),
        Builtin::DictionaryMerge => merge_with(alloc, d, args, bases, look),
        _ => refused(RunFault::ValueOfAnotherType),
    }
}

fn get_or_add<B: Bases, K: Look>(
    d: &OrderedDict,
    args: &[Value],
    bases: &B,
    look: &K,
) -> Result<DictChange, ThingFault>
    requires whole { AllWhole (K.things look.now) (K.names look.now) args.now }
    ensures meant { AnswersAs (made d.now) (gives (B.bases bases.now) (K.store look.now) b.DictionaryGetOrAdd d.now args.now) result }
    ensures room { IfOk result (λ change. HasRoom change d.now.pairs) }
{
    match args {
        [k] => got_or_added(d, k, &Value::Nil, bases, look),
        [k, other] => got_or_added(d, k, other, bases, look),
        _ => refused(RunFault::ValueOfAnotherType),
    }
}

/// The value at the key, or else the other one, which is added. `BadKey`; then of a new key `ValueOfAnotherType` where it
/// or the value does not fit, then `TooLong`.
fn got_or_added<B: Bases, K: Look>(
    d: &OrderedDict,
    k: &Value,
    other: &Value,
    bases: &B,
    look: &K,
) -> Result<DictChange, ThingFault>
    requires key { Whole (K.things look.now) (K.names look.now) k.now }
    requires whole { Whole (K.things look.now) (K.names look.now) other.now }
    ensures meant { AnswersAs (made d.now) (spec.get_or_add (fitting.fits (B.bases bases.now) (K.store look.now) d.now.key_type) (fitting.fits (B.bases bases.now) (K.store look.now) d.now.value_type) (dict_thing d.now) (datum k.now) (datum other.now)) result }
    ensures room { IfOk result (λ change. HasRoom change d.now.pairs) }
{
    match key_of(k) {
        Ok(key) => at_key(d, key, k, other, bases, look),
        Err(fault) => Err(fault),
    }
}

fn at_key<B: Bases, K: Look>(
    d: &OrderedDict,
    key: Key,
    k: &Value,
    other: &Value,
    bases: &B,
    look: &K,
) -> Result<DictChange, ThingFault>
    requires named { key_datum key ≡ datum k.now }
    requires key { Whole (K.things look.now) (K.names look.now) k.now }
    requires whole { Whole (K.things look.now) (K.names look.now) other.now }
    ensures meant { AnswersAs (made d.now) (spec.got_or_added (fitting.fits (B.bases bases.now) (K.store look.now) d.now.key_type) (fitting.fits (B.bases bases.now) (K.store look.now) d.now.value_type) (dict_thing d.now) (datum k.now) (datum other.now) (value_at (map pair_datum d.now.pairs) (datum k.now))) result }
    ensures room { IfOk result (λ change. HasRoom change d.now.pairs) }
{
    match d.get(&key) {
        Some(there) => Ok(DictChange::Keep(there.share()?)),
        None => added(d, key, k, other, bases, look),
    }
}

/// The pair of a new key.
fn added<B: Bases, K: Look>(
    d: &OrderedDict,
    key: Key,
    k: &Value,
    other: &Value,
    bases: &B,
    look: &K,
) -> Result<DictChange, ThingFault>
    requires named { key_datum key ≡ datum k.now }
    requires key { Whole (K.things look.now) (K.names look.now) k.now }
    requires whole { Whole (K.things look.now) (K.names look.now) other.now }
    ensures meant { AnswersAs (made d.now) (spec.got_or_added (fitting.fits (B.bases bases.now) (K.store look.now) d.now.key_type) (fitting.fits (B.bases bases.now) (K.store look.now) d.now.value_type) (dict_thing d.now) (datum k.now) (datum other.now) None) result }
    ensures room { IfOk result (λ change. HasRoom change d.now.pairs) }
{
    match entering(d, k, other, bases, look) {
        Ok(()) => {
            let value = other.share()?;
            let answer = other.share()?;
            Ok(DictChange::Add(key, value, answer))
        }
        Err(fault) => Err(fault),
    }
}

/// Whether the pair of a new key may come in. `ValueOfAnotherType` where the key or the value does not fit, then `TooLong`.
fn entering<B: Bases, K: Look>(
    d: &OrderedDict,
    k: &Value,
    other: &Value,
    bases: &B,
    look: &K,
) -> Result<(), ThingFault>
    requires key { Whole (K.things look.now) (K.names look.now) k.now }
    requires whole { Whole (K.things look.now) (K.names look.now) other.now }
    ensures meant { result ≡ exact (unless ((not (fitting.fits (B.bases bases.now) (K.store look.now) d.now.key_type (datum k.now) && fitting.fits (B.bases bases.now) (K.store look.now) d.now.value_type (datum other.now)), ValueOfAnotherType) ∷ (spec.is_full (map pair_datum d.now.pairs), TooLong) ∷ []) tt) }
    ensures room { OnOk result (length d.now.pairs < MAX_ITEMS) }
{
    if !fits(bases, look, d.key_type(), k) {
        return refused(RunFault::ValueOfAnotherType);
    }
    if !fits(bases, look, d.value_type(), other) {
        return refused(RunFault::ValueOfAnotherType);
    }
    if d.size() as usize >= MAX_ITEMS {
        return refused(RunFault::TooLong);
    }
    Ok(())
}

fn erase(d: &OrderedDict, args: &[Value]) -> Result<DictChange, ThingFault>
    ensures meant { (key_fits : Datum → Bool) (value_fits : Datum → Bool) (store : Store) → AnswersAs (made d.now) (spec.dict_gives key_fits value_fits store b.DictionaryErase (dict_thing d.now) (map datum args.now)) result }
    ensures room { IfOk result (λ change. HasRoom change d.now.pairs) }
{
    match args {
        [k] => match key_of(k) {
            Ok(key) => Ok(DictChange::Erase(key)),
            Err(fault) => Err(fault),
        },
        _ => refused(RunFault::ValueOfAnotherType),
    }
}

fn clear(d: &OrderedDict, args: &[Value]) -> Result<DictChange, ThingFault>
    ensures meant { (key_fits : Datum → Bool) (value_fits : Datum → Bool) (store : Store) → AnswersAs (made d.now) (spec.dict_gives key_fits value_fits store b.DictionaryClear (dict_thing d.now) (map datum args.now)) result }
    ensures room { IfOk result (λ change. HasRoom change d.now.pairs) }
{
    match args {
        [] => Ok(DictChange::Clear),
        _ => refused(RunFault::ValueOfAnotherType),
    }
}

fn merge_with<B: Bases, K: Look>(
    alloc: Global,
    d: &OrderedDict,
    args: &[Value],
    bases: &B,
    look: &K,
) -> Result<DictChange, ThingFault>
    requires whole { AllWhole (K.things look.now) (K.names look.now) args.now }
    ensures meant { AnswersAs (made d.now) (gives (B.bases bases.now) (K.store look.now) b.DictionaryMerge d.now args.now) result }
    ensures room { IfOk result (λ change. HasRoom change d.now.pairs) }
{
    match args {
        [only] => merge_other(alloc, d, only, &Value::Bool(false), bases, look),
        [other, over] => merge_other(alloc, d, other, over, bases, look),
        _ => refused(RunFault::ValueOfAnotherType),
    }
}

fn merge_other<B: Bases, K: Look>(
    alloc: Global,
    d: &OrderedDict,
    other: &Value,
    over: &Value,
    bases: &B,
    look: &K,
) -> Result<DictChange, ThingFault>
    requires whole { Whole (K.things look.now) (K.names look.now) other.now }
    ensures meant { AnswersAs (made d.now) (spec.dict_gives (fitting.fits (B.bases bases.now) (K.store look.now) d.now.key_type) (fitting.fits (B.bases bases.now) (K.store look.now) d.now.value_type) (K.store look.now) b.DictionaryMerge (dict_thing d.now) (datum other.now ∷ datum over.now ∷ [])) result }
    ensures room { IfOk result (λ change. HasRoom change d.now.pairs) }
{
    match other {
        Value::Dict(h) => match over {
            Value::Bool(over) => merge(alloc, d, dict_of(look, *h), *over, bases, look),
            _ => refused(RunFault::ValueOfAnotherType),
        },
        _ => refused(RunFault::ValueOfAnotherType),
    }
}
