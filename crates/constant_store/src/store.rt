//! The things that constants made, and how handles lead to them.
ghost use Rattle.std.specs.Prelude.{◌≡◌, ◌&&◌, slice_get, ◌<◌, ◌≤◌, ◌++◌, [], ◌∷◌, length, true, suc, OnErr, IfOk};
ghost use Rattle.std.specs.Option.{option_copied};
ghost use Rattle.gd_model.specs.declared.value.Value.{Value as TheValue};
ghost use Rattle.gd_model.specs.Meant.{datum};
ghost use Rattle.gd_model.specs.Whole.{Whole};
ghost use Rattle.constant_store.specs.Things.{all_data_held, all_held, all_pairs_held, data_in, is_closed, is_held, meant, no_names, numbered, seen, thing_datum};

use crate::ConstantThing;
use gd_containers::{Look, OrderedDict, TypedArray};
use gd_model::Value;
use gd_syntax::Text;
use no_memory::NoMemory;
use slot_arena::Handle;
use std::alloc::Global;
use std::marker::Model;

/// The most things of a store: their numbers, from 0, fit a `u32`.
const MAX_THINGS: usize = 4_294_967_295;

/// The things that constants made, in the order in which they were made. The handle of a thing has its place in this order as
/// its index, and the place counted from 1 as its serial number. The store keeps its allocator.
///
/// Contracts see the list of the things. Each value that lies in one of them is a value of the store.
#[derive(Drop)]
pub struct ConstantStore {
    things: Vec<ConstantThing>,
    alloc: Global,
}

impl Model for ConstantStore {
    ghost use Rattle.std.specs.Prelude.{List, length, ◌≡◌, ◌≤◌, true};
    ghost use Rattle.constant_store.specs.declared.thing.ConstantThing.{ConstantThing};
    ghost use Rattle.constant_store.specs.Things.{is_closed};

    ghost Value = { List ConstantThing };

    ghost use Rattle.constant_store.specs.contracts.thing.ConstantThing as kept;
    ghost use Rattle.std.specs.Coded.{coded_list};

    ghost coded = { coded_list kept.the_row.coded };

    ghost view = { λ s. s.things.items };

    ghost invariant = { λ s. (is_closed s.things.items ≡ true) × (length s.things.items ≤ 4294967295) };
}

impl ConstantStore {
    /// A store without things.
    pub fn new(alloc: Global) -> ConstantStore
        ensures { result ≡ [] }
    {
        ConstantStore {
            things: Vec::new(alloc),
            alloc,
        }
    }

    /// Whether the value is one of this store: no object, no Callable and no Signal, and an array or a dictionary only where the
    /// store has one for it.
    pub fn holds(&self, v: &Value) -> bool
        ensures { result ≡ is_held self.now (datum v.now) }
    {
        match v {
            Value::Nil | Value::Bool(_) | Value::Int(_) | Value::Str(_) => true,
            Value::Array(h) => self.array(*h).is_some(),
            Value::Dict(h) => self.dict(*h).is_some(),
            Value::Object(_) | Value::Callable(_) | Value::Signal(_) => false,
        }
    }

    /// Whether the store holds each of the values.
    pub fn holds_all(&self, items: &[Value]) -> bool
        ensures { result ≡ all_held self.now items.now }
    {
        for i in 0..items.len() {
            if !self.holds(&items[i]) {
                return false;
            }
        }
        true
    }

    /// Whether the store holds each key and each value of the pairs.
    pub fn holds_pairs(&self, pairs: &[(Value, Value)]) -> bool
        ensures { result ≡ all_pairs_held self.now pairs.now }
    {
        for i in 0..pairs.len() {
            if !self.holds_pair(&pairs[i]) {
                return false;
            }
        }
        true
    }

    fn holds_pair(&self, pair: &(Value, Value)) -> bool
        ensures { result ≡ (is_held self.now (datum pair.now.0) && is_held self.now (datum pair.now.1)) }
    {
        self.holds(&pair.0) && self.holds(&pair.1)
    }

    /// Where the store allocates. With it comes a law: all things are there to which the values of the store lead.
    pub(crate) fn allocator(&self) -> Global
        ensures whole { (v : TheValue) → is_held self.now (datum v) ≡ true → Whole (seen self.now) no_names v }
        ensures closed { is_closed self.now ≡ true }
        ensures numbers { length self.now ≤ MAX_THINGS }
    {
        self.alloc
    }

    /// The things in the order in which they were made.
    pub(crate) fn list(&self) -> &[ConstantThing]
        ensures { result.now ≡ self.now }
    {
        self.things.as_slice()
    }

    /// The thing of a handle, where one is there.
    fn thing(&self, h: Handle) -> Option<&ConstantThing>
        ensures { option_copied result ≡ numbered self.now h.serial }
    {
        if h.serial == 0 {
            return None;
        }
        self.at((h.serial - 1) as usize)
    }

    /// The thing at a place, where there is one.
    pub(crate) fn at(&self, place: usize) -> Option<&ConstantThing>
        ensures { option_copied result ≡ slice_get self.now place }
    {
        self.things.get(place)
    }

    /// Puts a thing behind the others, and gives the value that names it.
    pub(crate) fn keep(&mut self, thing: ConstantThing) -> Result<Value, NoMemory>
        requires { all_data_held self.old (data_in (meant thing)) ≡ true }
        ensures kept { IfOk result (λ v. (self.new ≡ self.old ++ thing ∷ []) × (datum v ≡ thing_datum (meant thing) (suc (length self.old)))) }
        ensures held { IfOk result (λ v. is_held self.new (datum v) ≡ true) }
        ensures err { OnErr result (self.new ≡ self.old) }
    {
        let index = self.things.len();
        if index >= MAX_THINGS {
            return Err(NoMemory);
        }
        let value = value_naming(&thing, index);
        self.things.push(thing)?;
        Ok(value)
    }
}

/// The value that names a thing at this place.
pub(crate) fn value_naming(thing: &ConstantThing, index: usize) -> Value
    requires { index < MAX_THINGS }
    ensures { datum result ≡ thing_datum (meant thing.now) (suc index) }
{
    let handle = Handle {
        index,
        serial: index as u64 + 1,
    };
    match thing {
        ConstantThing::Array(_) => Value::Array(handle),
        ConstantThing::Dict(_) => Value::Dict(handle),
    }
}

impl Look for ConstantStore {
    ghost use Rattle.constant_store.specs.Things.{no_names, seen, seen_by_serial, store_of};

    ghost things = { λ s. seen s };

    ghost store = { λ s. store_of s };

    ghost names = { λ s. no_names };

    ghost by_serial = { λ s. seen_by_serial s };

    fn array(&self, h: Handle) -> Option<&TypedArray> {
        match self.thing(h) {
            Some(ConstantThing::Array(array)) => Some(array),
            _ => None,
        }
    }

    fn dict(&self, h: Handle) -> Option<&OrderedDict> {
        match self.thing(h) {
            Some(ConstantThing::Dict(dict)) => Some(dict),
            _ => None,
        }
    }

    fn class_of(&self, _h: Handle) -> Option<u32> {
        None
    }

    fn class_name(&self, _class: u32) -> Option<&Text> {
        None
    }
}
