//! Values of constants as the analysis keeps them, and back.
ghost use Rattle.std.specs.Prelude.{◌≡◌, true, IfOk, IfSome, map, option_map};
ghost use Rattle.gd_model.specs.KeyDatum.{key_datum};
ghost use Rattle.gd_model.specs.Meant.{datum, pair_datum};
ghost use Rattle.constant_store.specs.Fixing.{dictionary_type, fixed, fixed_pair, fixed_thing, thing_at, value_of};
ghost use Rattle.constant_store.specs.Things.{all_data_held, all_held, data_in, is_held, is_plain, meant, pair_data};

use crate::store::value_naming;
use crate::{ConstantStore, ConstantThing};
use gd_containers::OrderedDict;
use gd_model::{Fixed, FixedThing, Key, Ty, Value};
use gd_syntax::Seq;
use no_memory::NoMemory;
use sqlite_items::Boxed;
use std::alloc::Global;

impl ConstantStore {
    /// The value as the analysis keeps it, a thing by its place among those of the store.
    pub fn fixed(&self, v: &Value) -> Result<Fixed, NoMemory>
        requires { is_held self.now (datum v.now) ≡ true }
        ensures { IfOk result (λ f. f ≡ fixed (datum v.now)) }
    {
        let _alloc = self.allocator();
        Ok(match v {
            Value::Nil => Fixed::Nil,
            Value::Bool(b) => Fixed::Bool(*b),
            Value::Int(n) => Fixed::Int(*n),
            Value::Str(text) => Fixed::Str(text.share()?),
            Value::Array(h) | Value::Dict(h) => Fixed::Thing((h.serial - 1) as u32),
            Value::Object(_) | Value::Callable(_) | Value::Signal(_) => unreachable!(),
        })
    }

    /// The value that `fixed` made so; `None` where the store has no such thing.
    pub fn value(&self, f: &Fixed) -> Result<Option<Value>, NoMemory>
        ensures value { IfOk result (λ v. option_map datum v ≡ value_of self.now f.now) }
        ensures held { IfOk result (λ v. IfSome v (λ x. is_held self.now (datum x) ≡ true)) }
    {
        Ok(match f {
            Fixed::Nil => Some(Value::Nil),
            Fixed::Bool(b) => Some(Value::Bool(*b)),
            Fixed::Int(n) => Some(Value::Int(*n)),
            Fixed::Str(text) => Some(Value::Str(text.share()?)),
            Fixed::Thing(place) => self.named(*place),
        })
    }

    /// The value that names the thing at a place.
    fn named(&self, place: u32) -> Option<Value>
        ensures { option_map datum result ≡ thing_at self.now place }
    {
        let _alloc = self.allocator();
        let index = place as usize;
        if index >= u32::MAX as usize {
            return None;
        }
        match self.at(index) {
            Some(thing) => Some(value_naming(thing, index)),
            None => None,
        }
    }

    /// The things of the store in the order in which they were made.
    pub fn things(&self, alloc: Global) -> Result<Vec<FixedThing>, NoMemory>
        ensures { IfOk result (λ all. all.items ≡ map fixed_thing self.now) }
    {
        let _alloc = self.allocator();
        let things = self.list();
        let mut all = Vec::with_capacity(alloc, things.len())?;
        for i in 0..things.len() {
            all.push(self.fixed_thing(alloc, &things[i])?)?;
        }
        Ok(all)
    }

    fn fixed_thing(&self, alloc: Global, thing: &ConstantThing) -> Result<FixedThing, NoMemory>
        requires { all_data_held self.now (data_in (meant thing.now)) ≡ true }
        ensures { IfOk result (λ f. f ≡ fixed_thing thing.now) }
    {
        match thing {
            ConstantThing::Array(array) => {
                let items = self.fixed_items(alloc, array.items())?;
                Ok(FixedThing::Items(array.element().copy(alloc)?, items))
            }
            ConstantThing::Dict(dict) => {
                let pairs = self.fixed_pairs(alloc, dict)?;
                Ok(FixedThing::Pairs(type_of(alloc, dict)?, pairs))
            }
        }
    }

    fn fixed_items(&self, alloc: Global, items: &[Value]) -> Result<Seq<Fixed>, NoMemory>
        requires { all_held self.now items.now ≡ true }
        ensures { IfOk result (λ all. all ≡ map (λ v. fixed (datum v)) items.now) }
    {
        let mut all = Vec::with_capacity(alloc, items.len())?;
        for i in 0..items.len() {
            all.push(self.fixed(&items[i])?)?;
        }
        Ok(Seq::of(all))
    }

    fn fixed_pairs(
        &self,
        alloc: Global,
        dict: &OrderedDict,
    ) -> Result<Seq<(Fixed, Fixed)>, NoMemory>
        requires { all_data_held self.now (pair_data (map pair_datum dict.now.pairs)) ≡ true }
        ensures { IfOk result (λ all. all ≡ map fixed_pair dict.now.pairs) }
    {
        let mut all = Vec::with_capacity(alloc, dict.size() as usize)?;
        for i in 0..dict.size() {
            let Some((key, value)) = dict.at(i) else {
                unreachable!();
            };
            all.push((fixed_key(key)?, self.fixed(value)?))?;
        }
        Ok(Seq::of(all))
    }
}

/// The key as the analysis keeps it. No key of a constant is an object.
fn fixed_key(key: &Key) -> Result<Fixed, NoMemory>
    requires { is_plain (key_datum key.now) ≡ true }
    ensures { IfOk result (λ f. f ≡ fixed (key_datum key.now)) }
{
    Ok(match key {
        Key::Nil => Fixed::Nil,
        Key::Bool(b) => Fixed::Bool(*b),
        Key::Int(n) => Fixed::Int(*n),
        Key::Str(text) => Fixed::Str(text.share()?),
        Key::Object(_) => unreachable!(),
    })
}

/// The type of the dictionary: Dictionary where both of its types are Variant.
fn type_of(alloc: Global, dict: &OrderedDict) -> Result<Ty, NoMemory>
    ensures { IfOk result (λ t. t ≡ dictionary_type dict.now.key_type dict.now.value_type) }
{
    let key = dict.key_type();
    let value = dict.value_type();
    if matches!(key, Ty::Variant) && matches!(value, Ty::Variant) {
        return Ok(Ty::Dict);
    }
    let key = Boxed::new(alloc, key.copy(alloc)?)?;
    Ok(Ty::DictOf(key, Boxed::new(alloc, value.copy(alloc)?)?))
}
