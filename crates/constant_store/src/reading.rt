//! Subscripts and attributes of values of constants.
ghost use Rattle.std.specs.Prelude.{◌≡◌, true, IfOk};
ghost use Rattle.gd_model.specs.KeyDatum.{key_datum};
ghost use Rattle.gd_model.specs.Meant.{datum, array_thing, dict_thing};
ghost use Rattle.gd_model.specs.Place.{element_at};
ghost use Rattle.gd_answers.specs.Answers.{AnswersAs};
ghost use Rattle.store_semantics.specs.Subscripts as spec;
ghost use Rattle.constant_store.specs.Reading.{attribute};
ghost use Rattle.constant_store.specs.Things.{is_held, store_of};

use crate::ConstantStore;
use gd_answers::refused;
use gd_containers::{OrderedDict, ThingFault, TypedArray, array_of, dict_of, item_place, key_of};
use gd_model::{Key, RunFault, Value};
use gd_syntax::Text;
use std::alloc::Global;

impl ConstantStore {
    /// `base[index]`: an element of an array, a character of a String, or the value at a key. `BadOperands` where the base has no
    /// subscripts, or is an array or a String and the index no int; `OutOfRange` where there is no such element; `BadKey`,
    /// then `NoSuchKey`, for a dictionary.
    pub fn subscript(&self, base: &Value, index: &Value) -> Result<Value, ThingFault>
        requires { is_held self.now (datum base.now) ≡ true }
        ensures value { AnswersAs datum (spec.subscript (store_of self.now) (datum base.now) (datum index.now)) result }
        ensures held { IfOk result (λ v. is_held self.now (datum v) ≡ true) }
    {
        let _alloc = self.allocator();
        self.element_of(base, index)
    }

    /// `base.name`, which only a dictionary has: its value at the name as a String. `NullReceiver` for null, `NoSuchMember` for
    /// another value, `NoSuchKey` where the dictionary lacks it.
    pub fn attribute(&self, base: &Value, name: &Text) -> Result<Value, ThingFault>
        requires { is_held self.now (datum base.now) ≡ true }
        ensures value { AnswersAs datum (attribute (store_of self.now) (datum base.now) name.now) result }
        ensures held { IfOk result (λ v. is_held self.now (datum v) ≡ true) }
    {
        let _alloc = self.allocator();
        self.member_of(base, name)
    }

    fn element_of(&self, base: &Value, index: &Value) -> Result<Value, ThingFault>
        requires { is_held self.now (datum base.now) ≡ true }
        ensures { AnswersAs datum (spec.subscript (store_of self.now) (datum base.now) (datum index.now)) result }
    {
        let alloc = self.allocator();
        match base {
            Value::Array(h) => item(array_of(self, *h), index),
            Value::Dict(h) => entry(dict_of(self, *h), index),
            Value::Str(text) => character(alloc, text, index),
            _ => refused(RunFault::BadOperands),
        }
    }

    fn member_of(&self, base: &Value, name: &Text) -> Result<Value, ThingFault>
        requires { is_held self.now (datum base.now) ≡ true }
        ensures { AnswersAs datum (attribute (store_of self.now) (datum base.now) name.now) result }
    {
        let _alloc = self.allocator();
        match base {
            Value::Dict(h) => value_of(dict_of(self, *h), &Key::Str(name.share()?)),
            Value::Nil => refused(RunFault::NullReceiver),
            _ => refused(RunFault::NoSuchMember),
        }
    }
}

fn item(array: &TypedArray, index: &Value) -> Result<Value, ThingFault>
    ensures { AnswersAs datum (spec.item (array_thing array.now) (datum index.now)) result }
{
    let Value::Int(at) = index else {
        return refused(RunFault::BadOperands);
    };
    match array.get(*at) {
        Ok(item) => Ok(item.share()?),
        Err(fault) => refused(fault),
    }
}

fn character(alloc: Global, chars: &Text, index: &Value) -> Result<Value, ThingFault>
    ensures { AnswersAs datum (spec.character chars.now (datum index.now)) result }
{
    let Value::Int(at) = index else {
        return refused(RunFault::BadOperands);
    };
    character_at(alloc, chars, *at)
}

fn character_at(alloc: Global, chars: &Text, at: i64) -> Result<Value, ThingFault>
    ensures { AnswersAs datum (spec.one_character (element_at chars.now at)) result }
{
    let chars = chars.chars();
    match item_place(at, chars.len()) {
        Some(i) => Ok(Value::Str(Text::one(alloc, chars[i])?)),
        None => refused(RunFault::OutOfRange),
    }
}

fn entry(dict: &OrderedDict, index: &Value) -> Result<Value, ThingFault>
    ensures { AnswersAs datum (spec.entry (dict_thing dict.now) (datum index.now)) result }
{
    value_of(dict, &key_of(index)?)
}

/// The value at the key; `NoSuchKey` where there is none.
fn value_of(dict: &OrderedDict, key: &Key) -> Result<Value, ThingFault>
    ensures { AnswersAs datum (spec.entry (dict_thing dict.now) (key_datum key.now)) result }
{
    match dict.get(key) {
        Some(value) => Ok(value.share()?),
        None => refused(RunFault::NoSuchKey),
    }
}
