//! What a method does to a dictionary, decided and then done.
ghost use Rattle.std.specs.Prelude.{◌≡◌, ◌≤◌, ◌++◌, false, is_some, length, OnOk, IfOk, IfErr};
ghost use Rattle.std.specs.Option.{option_to_list};
ghost use Rattle.gd_model.specs.declared.value.Value.TheVariants as v;
ghost use Rattle.container_methods.specs.declared.dict_change.DictChange.TheVariants.{Erase};
ghost use Rattle.container_methods.specs.Dicts.{Makes, HasRoom, pairs_of, put_all, replaced, replaced_by};

use crate::growing::push;
use gd_containers::{OrderedDict, ThingFault};
use gd_model::{Key, Value};
use no_memory::NoMemory;
use std::alloc::Global;

/// A change of a dictionary.
#[derive(Drop)]
pub enum DictChange {
    /// Nothing changes; the value is the answer.
    Keep(Value),
    /// The pair comes last, its key being a new one; the second value is the answer.
    Add(Key, Value, Value),
    /// The pair of the key leaves, where one is there.
    Erase(Key),
    /// All pairs leave.
    Clear,
    /// These pairs are put in turn.
    Merge(Vec<(Key, Value)>),
}

/// Pairs that left a dictionary.
#[derive(Drop)]
pub enum GonePairs {
    Nothing,
    One(Key, Value),
    All(Vec<(Key, Value)>),
}

/// Makes the change. It gives the method's answer and what left the dictionary; of a merge that is each value that another
/// took the place of, with the key that was brought once more. Only memory may lack; then nothing changes but that some
/// pairs of a merge may have been put.
pub fn change_dict(
    alloc: Global,
    d: &mut OrderedDict,
    change: DictChange,
) -> Result<(Value, GonePairs), ThingFault>
    requires open { d.old.fixed ≡ false }
    requires room { HasRoom change d.old.pairs }
    ensures { Makes change d.old d.new result }
{
    match change {
        DictChange::Keep(answer) => Ok((answer, GonePairs::Nothing)),
        DictChange::Add(key, value, answer) => {
            d.put(key, value, true)?;
            Ok((answer, GonePairs::Nothing))
        }
        DictChange::Erase(key) => erased(d, &key),
        DictChange::Clear => Ok((Value::Nil, GonePairs::All(d.clear()?))),
        DictChange::Merge(pairs) => Ok((Value::Nil, GonePairs::All(put_all(alloc, d, pairs)?))),
    }
}

/// The pair of the key leaves, where one is there.
fn erased(d: &mut OrderedDict, key: &Key) -> Result<(Value, GonePairs), ThingFault>
    requires open { d.old.fixed ≡ false }
    ensures { Makes (Erase key.now) d.old d.new result }
{
    match d.erase(key) {
        Ok(pair) => Ok(left(pair)),
        Err(fault) => Err(fault),
    }
}

/// Whether a pair has left, and the pair.
fn left(pair: Option<(Key, Value)>) -> (Value, GonePairs)
    ensures answer { result.0 ≡ v.Bool (is_some pair) }
    ensures gone { pairs_of result.1 ≡ option_to_list pair }
{
    match pair {
        Some((key, value)) => (Value::Bool(true), GonePairs::One(key, value)),
        None => (Value::Bool(false), GonePairs::Nothing),
    }
}

/// Puts the pairs in turn. It gives each value that another took the place of, with its key. Only memory may lack.
fn put_all(
    alloc: Global,
    d: &mut OrderedDict,
    mut pairs: Vec<(Key, Value)>,
) -> Result<Vec<(Key, Value)>, ThingFault>
    requires open { d.old.fixed ≡ false }
    requires room { length (put_all d.old.pairs pairs.items) ≤ 16777216 }
    ensures old { IfOk result (λ old. old.items ≡ replaced d.old.pairs pairs.items) }
    ensures ok { OnOk result (d.new ≡ record d.old { pairs = put_all d.old.pairs pairs.items }) }
    ensures fault { IfErr result (λ f. f ≡ ThingFault.NoMemory) }
{
    let mut old = Vec::new(alloc);
    pairs.reverse();
    while let Some((key, value)) = pairs.pop() {
        let again = key.share()?;
        match d.put(key, value, true) {
            Ok(was) => note(&mut old, again, was)?,
            Err(fault) => return Err(fault),
        }
    }
    Ok(old)
}

/// Notes the key with the value that it had, if it had one.
fn note(old: &mut Vec<(Key, Value)>, key: Key, was: Option<Value>) -> Result<(), NoMemory>
    ensures { OnOk result (old.new.items ≡ old.old.items ++ replaced_by key was) }
{
    if let Some(value) = was {
        push(old, (key, value))?;
    }
    Ok(())
}
