//! The methods of dictionaries that do not write.
ghost use Rattle.std.specs.Prelude.{◌≡◌, ◌<◌, ◌≤◌, Ok, false, [], length, map, IfOk, OnOk, IfErr};
ghost use Rattle.gd_model.specs.Meant.{datum, dict_thing, pair_datum};
ghost use Rattle.gd_model.specs.View.{with_pair};
ghost use Rattle.gd_model.specs.Whole.{AllWhole, Whole, key_value, pair_values};
ghost use Rattle.gd_answers.specs.Answers.{AnswersAs, Gives};
ghost use Rattle.value_semantics.specs.Answer.{and_then};
ghost use Rattle.value_semantics.specs.Equality as equality;
ghost use Rattle.value_semantics.specs.Made as made;
ghost use Rattle.value_semantics.specs.Methods as spec;

use gd_answers::{Fresh, boolean, int, refused};
use gd_containers::{Look, MAX_ITEMS, OrderedDict, ThingFault, TypedArray, key_of};
use gd_model::{Key, RunFault, Ty, Value};
use gd_operators::{push, same};
use no_memory::NoMemory;
use std::alloc::Global;
use value_semantics::Builtin;

/// A method of the dictionary `d`. `WrongNumberOfArguments`, then `BadKey`, then `TooDeepToCompare`; `NoSuchMethod`
/// where it is no method of dictionaries that does not write.
pub fn call_on_dict<K: Look>(
    alloc: Global,
    method: Builtin,
    d: &OrderedDict,
    args: &[Value],
    look: &K,
) -> Result<Fresh, ThingFault>
    requires elements { AllWhole (K.things look.now) (K.names look.now) (pair_values d.now.pairs) }
    requires whole { AllWhole (K.things look.now) (K.names look.now) args.now }
    ensures { Gives (spec.dicts_call (K.store look.now) method (dict_thing d.now) (map datum args.now)) result }
{
    match method {
        Builtin::DictionarySize
        | Builtin::DictionaryIsEmpty
        | Builtin::DictionaryIsReadOnly
        | Builtin::DictionaryKeys
        | Builtin::DictionaryValues
        | Builtin::DictionaryDuplicate => call_alone(alloc, method, d, args),
        Builtin::DictionaryHas => call_has(d, args),
        Builtin::DictionaryGet => call_get(d, args),
        Builtin::DictionaryFindKey => call_find_key(d, args, look),
        _ => refused(RunFault::NoSuchMethod),
    }
}

fn call_alone(
    alloc: Global,
    method: Builtin,
    d: &OrderedDict,
    args: &[Value],
) -> Result<Fresh, ThingFault>
    ensures { Gives (spec.alone (spec.dict_alone method (dict_thing d.now)) (map datum args.now)) result }
{
    match args {
        [] => alone(alloc, method, d),
        _ => refused(RunFault::WrongNumberOfArguments),
    }
}

fn alone(alloc: Global, method: Builtin, d: &OrderedDict) -> Result<Fresh, ThingFault>
    ensures { Gives (spec.dict_alone method (dict_thing d.now)) result }
{
    match method {
        Builtin::DictionarySize => int(i64::from(d.size())),
        Builtin::DictionaryIsEmpty => boolean(d.size() == 0),
        Builtin::DictionaryIsReadOnly => boolean(d.fixed()),
        Builtin::DictionaryKeys => keys(alloc, d),
        Builtin::DictionaryValues => values(alloc, d),
        Builtin::DictionaryDuplicate => duplicate(alloc, d),
        _ => refused(RunFault::NoSuchMethod),
    }
}

fn call_has(d: &OrderedDict, args: &[Value]) -> Result<Fresh, ThingFault>
    ensures { Gives (and_then (spec.one_value (map datum args.now)) (spec.has_key_gives (dict_thing d.now))) result }
{
    match args {
        [k] => has(d, k),
        _ => refused(RunFault::WrongNumberOfArguments),
    }
}

fn has(d: &OrderedDict, k: &Value) -> Result<Fresh, ThingFault>
    ensures { Gives (spec.has_key_gives (dict_thing d.now) (datum k.now)) result }
{
    let key = key_of(k)?;
    boolean(d.get(&key).is_some())
}

fn call_get(d: &OrderedDict, args: &[Value]) -> Result<Fresh, ThingFault>
    ensures { Gives (and_then (spec.key_and_maybe (map datum args.now)) (spec.value_or (dict_thing d.now))) result }
{
    match args {
        [k] => value_or(d, k, &Value::Nil),
        [k, default] => value_or(d, k, default),
        _ => refused(RunFault::WrongNumberOfArguments),
    }
}

/// The value at the key, or the default. `BadKey` where it is no key.
fn value_or(d: &OrderedDict, k: &Value, default: &Value) -> Result<Fresh, ThingFault>
    ensures { Gives (spec.value_or (dict_thing d.now) (datum k.now, datum default.now)) result }
{
    let key = key_of(k)?;
    match d.get(&key) {
        Some(v) => Ok(Fresh::Value(v.share()?)),
        None => Ok(Fresh::Value(default.share()?)),
    }
}

/// The value that a key is.
fn value_of(key: &Key) -> Result<Value, NoMemory>
    ensures { IfOk result (λ v. v ≡ key_value key.now) }
{
    match key {
        Key::Nil => Ok(Value::Nil),
        Key::Bool(b) => Ok(Value::Bool(*b)),
        Key::Int(n) => Ok(Value::Int(*n)),
        Key::Str(text) => Ok(Value::Str(text.share()?)),
        Key::Object(h) => Ok(Value::Object(*h)),
    }
}

fn keys(alloc: Global, d: &OrderedDict) -> Result<Fresh, ThingFault>
    ensures { Gives (Ok (made.array (spec.keys_array (map pair_datum d.now.pairs)))) result }
{
    let mut all = TypedArray::new(alloc, Ty::Variant, false);
    for i in 0..d.size() {
        let Some((key, _)) = d.at(i) else {
            unreachable!();
        };
        push(&mut all, value_of(key)?)?;
    }
    Ok(Fresh::Array(all))
}

fn values(alloc: Global, d: &OrderedDict) -> Result<Fresh, ThingFault>
    ensures { Gives (Ok (made.array (spec.values_array (map pair_datum d.now.pairs)))) result }
{
    let mut all = TypedArray::new(alloc, Ty::Variant, false);
    for i in 0..d.size() {
        let Some((_, value)) = d.at(i) else {
            unreachable!();
        };
        push(&mut all, value.share()?)?;
    }
    Ok(Fresh::Array(all))
}

/// A writable dictionary with the same pairs: each is put at the end, since no two have one key.
fn duplicate(alloc: Global, d: &OrderedDict) -> Result<Fresh, ThingFault>
    ensures { Gives (Ok (made.dict (spec.dict_copy (dict_thing d.now)))) result }
{
    d.keys_differ();
    let key = d.key_type().copy(alloc)?;
    let value = d.value_type().copy(alloc)?;
    let mut all = OrderedDict::of(alloc, false, key, value);
    for i in 0..d.size() {
        let Some((key, value)) = d.at(i) else {
            unreachable!();
        };
        put(&mut all, key.share()?, value.share()?)?;
    }
    Ok(Fresh::Dict(all))
}

/// Puts a pair into a dictionary that has room for it and is not read-only; only memory may lack.
fn put(d: &mut OrderedDict, key: Key, value: Value) -> Result<(), ThingFault>
    requires open { d.old.fixed ≡ false }
    requires room { length d.old.pairs < MAX_ITEMS }
    ensures ok { OnOk result (d.new ≡ record d.old { pairs = with_pair d.old.pairs key value }) }
    ensures err { IfErr result (λ fault. fault ≡ ThingFault.NoMemory) }
{
    d.put(key, value, true)?;
    Ok(())
}

fn call_find_key<K: Look>(d: &OrderedDict, args: &[Value], look: &K) -> Result<Fresh, ThingFault>
    requires elements { AllWhole (K.things look.now) (K.names look.now) (pair_values d.now.pairs) }
    requires whole { AllWhole (K.things look.now) (K.names look.now) args.now }
    ensures { Gives (and_then (spec.one_value (map datum args.now)) (spec.find_key_gives (K.store look.now) (dict_thing d.now))) result }
{
    match args {
        [v] => found_key(d, v, look),
        _ => refused(RunFault::WrongNumberOfArguments),
    }
}

fn found_key<K: Look>(d: &OrderedDict, v: &Value, look: &K) -> Result<Fresh, ThingFault>
    requires elements { AllWhole (K.things look.now) (K.names look.now) (pair_values d.now.pairs) }
    requires whole { Whole (K.things look.now) (K.names look.now) v.now }
    ensures { Gives (spec.find_key_gives (K.store look.now) (dict_thing d.now) (datum v.now)) result }
{
    match find_key(d, v, look) {
        Ok(key) => Ok(Fresh::Value(key)),
        Err(fault) => Err(fault),
    }
}

/// The key of the first pair whose value equals `v`, or null.
fn find_key<K: Look>(d: &OrderedDict, v: &Value, look: &K) -> Result<Value, ThingFault>
    requires elements { AllWhole (K.things look.now) (K.names look.now) (pair_values d.now.pairs) }
    requires whole { Whole (K.things look.now) (K.names look.now) v.now }
    ensures { AnswersAs datum (spec.first_key (λ x. equality.same (K.store look.now) x (datum v.now)) (map pair_datum d.now.pairs)) result }
{
    for i in 0..d.size() {
        let Some((key, value)) = d.at(i) else {
            unreachable!();
        };
        if same(value, v, look)? {
            return Ok(value_of(key)?);
        }
    }
    Ok(Value::Nil)
}
