//! Arrays and dictionaries that literals make.
ghost use Rattle.std.specs.Prelude.{◌≡◌, [], ◌∷◌, true, false, not, map, length, ◌≤◌, IfOk};
ghost use Rattle.std.specs.List.{position_from};
ghost use Rattle.gd_model.specs.KeyDatum.{key_datum};
ghost use Rattle.gd_model.specs.Same.{is_key};
ghost use Rattle.gd_model.specs.Meant.{datum, dict_thing, pair_datum};
ghost use Rattle.gd_model.specs.Store as thing;
ghost use Rattle.gd_model.specs.declared.ty.Ty.TheVariants.{Variant};
ghost use Rattle.constant_store.specs.Literals.{AnswersLiteral, Makes, array_made, dictionary_made, enum_pair, fits, placed, tested, unless, with_more};
ghost use Rattle.constant_store.specs.Literals as spec;
ghost use Rattle.constant_store.specs.Things.{all_held, all_pairs_held, is_held, value_pair};

use crate::{ConstantStore, ConstantThing};
use gd_containers::{MAX_ITEMS, OrderedDict, ThingFault, TypedArray, key_of};
use gd_model::{Key, RunFault, Ty, Value};
use gd_syntax::Text;
use no_memory::NoMemory;
use std::alloc::Global;
use thiserror::Error;

/// Why a literal makes no thing. A place counts the elements or the pairs from 0.
#[derive(Clone, Copy, Debug, PartialEq, Eq, Drop, Error)]
pub enum LiteralFault {
    /// The element at this place does not fit the type of the elements.
    #[error("element of another type")]
    Element(usize),
    /// The key of the pair at this place is of a kind that is no key.
    #[error("bad key")]
    BadKey(usize),
    /// The key of the pair at this place does not fit the type of the keys.
    #[error("key of another type")]
    Key(usize),
    /// The value of the pair at this place does not fit the type of the values.
    #[error("value of another type")]
    Value(usize),
    /// There are more elements or pairs than a thing holds.
    #[error("too long")]
    TooLong,
    /// No memory was left.
    #[error("out of memory")]
    NoMemory,
}

impl From<NoMemory> for LiteralFault {
    ghost use Rattle.constant_store.specs.declared.literals.LiteralFault.TheVariants.{NoMemory};

    ghost from_gives = { λ _ fault. fault ≡ NoMemory };

    fn from(_: NoMemory) -> LiteralFault {
        LiteralFault::NoMemory
    }
}

impl LiteralFault {
    ghost use Rattle.constant_store.specs.Faults.{run_fault};

    /// The fault of a run that this is; `None` for want of memory.
    pub fn run_fault(self) -> Option<RunFault>
        ensures { result ≡ run_fault self }
    {
        match self {
            LiteralFault::Element(_) | LiteralFault::Key(_) | LiteralFault::Value(_) => {
                Some(RunFault::ValueOfAnotherType)
            }
            LiteralFault::BadKey(_) => Some(RunFault::BadKey),
            LiteralFault::TooLong => Some(RunFault::TooLong),
            LiteralFault::NoMemory => None,
        }
    }
}

impl ConstantStore {
    /// The array of these elements, whose type is `element`. The first element that does not fit it is refused.
    pub fn array(&mut self, element: Ty, items: Vec<Value>) -> Result<Value, LiteralFault>
        requires { all_held self.old items.items ≡ true }
        ensures made { Makes self.old self.new (array_made self.old element (map datum items.items)) result }
        ensures held { IfOk result (λ v. is_held self.new (datum v) ≡ true) }
    {
        match self.first_misfit(&element, items.as_slice()) {
            Some(place) => return Err(LiteralFault::Element(place)),
            None => {}
        }
        if items.len() > MAX_ITEMS {
            return Err(LiteralFault::TooLong);
        }
        let array = filled(self.allocator(), element, items)?;
        Ok(self.keep(ConstantThing::Array(array))?)
    }

    /// The dictionary of these pairs, whose keys are of the type `key` and whose values of the type `value`. A key that comes again
    /// keeps its first place, and has the later value. Refused is the first pair with a key of a kind that is no key, with a
    /// key that does not fit, or with a value that does not fit, tested in this order.
    pub fn dictionary(
        &mut self,
        key: Ty,
        value: Ty,
        pairs: &[(Value, Value)],
    ) -> Result<Value, LiteralFault>
        requires { all_pairs_held self.old pairs.now ≡ true }
        ensures made { Makes self.old self.new (dictionary_made self.old key value (map value_pair pairs.now)) result }
        ensures held { IfOk result (λ v. is_held self.new (datum v) ≡ true) }
    {
        let dict = self.paired(key, value, pairs)?;
        Ok(self.keep(ConstantThing::Dict(dict))?)
    }

    /// The dictionary of an enum: its values by their names, in the order of their declarations. Of a name that is declared
    /// twice, the caller passes the first declaration alone.
    pub fn enumeration(&mut self, values: &[(Text, i64)]) -> Result<Value, LiteralFault>
        ensures made { Makes self.old self.new (dictionary_made self.old Variant Variant (map enum_pair values.now)) result }
        ensures held { IfOk result (λ v. is_held self.new (datum v) ≡ true) }
    {
        let pairs = named(self.allocator(), values)?;
        self.dictionary(Ty::Variant, Ty::Variant, pairs.as_slice())
    }

    /// The place of the first element that does not fit the type.
    fn first_misfit(&self, element: &Ty, items: &[Value]) -> Option<usize>
        requires { all_held self.now items.now ≡ true }
        ensures { result ≡ position_from (λ d. not (fits self.now element.now d)) 0 (map datum items.now) }
    {
        for i in 0..items.len() {
            if !self.fits(element, &items[i]) {
                return Some(i);
            }
        }
        None
    }

    /// The read-only dictionary of the pairs.
    fn paired(
        &self,
        key: Ty,
        value: Ty,
        pairs: &[(Value, Value)],
    ) -> Result<OrderedDict, LiteralFault>
        requires { all_pairs_held self.now pairs.now ≡ true }
        ensures { AnswersLiteral (λ d. thing.dict (dict_thing d)) (dictionary_made self.now key value (map value_pair pairs.now)) result }
    {
        let mut dict = OrderedDict::of(self.allocator(), false, key, value);
        for i in 0..pairs.len() {
            self.put(&mut dict, i, &pairs[i])?;
        }
        dict.fix();
        Ok(dict)
    }

    /// Puts the pair at the place `i` of a literal into its dictionary.
    fn put(
        &self,
        dict: &mut OrderedDict,
        i: usize,
        pair: &(Value, Value),
    ) -> Result<(), LiteralFault>
        requires open { dict.old.fixed ≡ false }
        requires key { is_held self.now (datum pair.now.0) ≡ true }
        requires value { is_held self.now (datum pair.now.1) ≡ true }
        ensures types { dict.new ≡ record dict.old { pairs = dict.new.pairs } }
        ensures put { AnswersLiteral (λ _. map pair_datum dict.new.pairs) (with_more self.now dict.old.key_type dict.old.value_type i (map pair_datum dict.old.pairs) (value_pair pair.now)) result }
    {
        let key = self.tested(dict, i, pair)?;
        add(dict, key, pair.1.share()?)
    }

    /// The key of the pair, if the pair that stands at the place `i` of a literal has no fault.
    fn tested(
        &self,
        dict: &OrderedDict,
        i: usize,
        pair: &(Value, Value),
    ) -> Result<Key, LiteralFault>
        requires key { is_held self.now (datum pair.now.0) ≡ true }
        requires value { is_held self.now (datum pair.now.1) ≡ true }
        ensures { AnswersLiteral key_datum (tested self.now dict.now.key_type dict.now.value_type i (value_pair pair.now)) result }
    {
        let key = key_at(i, &pair.0)?;
        if !self.fits(dict.key_type(), &pair.0) {
            return Err(LiteralFault::Key(i));
        }
        if !self.fits(dict.value_type(), &pair.1) {
            return Err(LiteralFault::Value(i));
        }
        Ok(key)
    }
}

/// The key that the value at the place `i` is.
fn key_at(i: usize, v: &Value) -> Result<Key, LiteralFault>
    ensures { AnswersLiteral key_datum (unless ((not (is_key (datum v.now)), LiteralFault.BadKey i) ∷ []) (datum v.now)) result }
{
    match key_of(v) {
        Ok(key) => Ok(key),
        Err(fault) => Err(key_refusal(i, fault)),
    }
}

fn key_refusal(i: usize, fault: ThingFault) -> LiteralFault
    ensures { result ≡ spec.key_refusal i fault }
{
    match fault {
        ThingFault::Run(_) => LiteralFault::BadKey(i),
        ThingFault::NoMemory => LiteralFault::NoMemory,
    }
}

/// Puts the pair into a dictionary that is not read-only. `TooLong` where there is no room for it.
fn add(dict: &mut OrderedDict, key: Key, value: Value) -> Result<(), LiteralFault>
    requires { dict.old.fixed ≡ false }
    ensures types { dict.new ≡ record dict.old { pairs = dict.new.pairs } }
    ensures put { AnswersLiteral (λ _. map pair_datum dict.new.pairs) (placed (map pair_datum dict.old.pairs) (key_datum key) (datum value)) result }
{
    match dict.put(key, value, true) {
        Ok(_) => {}
        Err(fault) => return Err(put_refusal(fault)),
    }
    Ok(())
}

fn put_refusal(fault: ThingFault) -> LiteralFault
    ensures { result ≡ spec.put_refusal fault }
{
    match fault {
        ThingFault::Run(_) => LiteralFault::TooLong,
        ThingFault::NoMemory => LiteralFault::NoMemory,
    }
}

/// The read-only array of these elements.
fn filled(alloc: Global, element: Ty, items: Vec<Value>) -> Result<TypedArray, NoMemory>
    requires { length items.items ≤ MAX_ITEMS }
    ensures { IfOk result (λ a. a ≡ record { element = element; fixed = true; items = items.items }) }
{
    let mut array = TypedArray::new(alloc, element, false);
    match array.extend(items, true) {
        Ok(()) => {
            array.fix();
            Ok(array)
        }
        Err(_) => Err(NoMemory),
    }
}

/// The pairs of the names and the values of an enum.
fn named(alloc: Global, values: &[(Text, i64)]) -> Result<Vec<(Value, Value)>, NoMemory>
    ensures { IfOk result (λ pairs. map value_pair pairs.items ≡ map enum_pair values.now) }
{
    let mut pairs = Vec::with_capacity(alloc, values.len())?;
    for i in 0..values.len() {
        pairs.push((Value::Str(values[i].0.share()?), Value::Int(values[i].1)))?;
    }
    Ok(pairs)
}
