//! Dictionaries, which keep their pairs in the order in which the keys came.
ghost use Rattle.std.specs.Prelude.{◌≡◌, ◌+◌, ◌≤◌, ◌++◌, [], ◌∷◌, Some, None, true, length, slice_get, option_map, reverse, vec_len, vec_capacity, IfOk, OnOk, OnErr};
ghost use Rattle.std.specs.Map.Iter.{ShowsInOrder, deref_pair};
ghost use Rattle.std.specs.Option.{option_copied};
ghost use Rattle.gd_model.specs.declared.ty.Ty.TheVariants.{Variant};
ghost use Rattle.gd_model.specs.View.{value_at, pair_at, with_pair, without_key};
ghost use Rattle.gd_model.specs.declared.key.Key.{Key as TheKey};
ghost use Rattle.gd_model.specs.declared.value.Value.{Value as TheValue};
ghost use Rattle.gd_containers.specs.Keys.{DistinctKeys};
ghost use Rattle.indexmap.specs.IndexMap.{index_map_len};

use crate::{MAX_ITEMS, ThingFault};
use gd_model::{Key, RunFault, Ty, Value};
use indexmap::IndexMap;
use indexmap::map::Iter;
use no_memory::NoMemory;
use std::alloc::Global;
use std::marker::Model;
use std::mem;

/// A dictionary: its pairs in the order in which their keys came, the types of its keys and of its values, and
/// whether it is read-only. It keeps its allocator.
#[derive(Drop)]
pub struct OrderedDict {
    map: IndexMap<Key, Value>,
    key: Ty,
    value: Ty,
    fixed: bool,
    alloc: Global,
}

impl Model for OrderedDict {
    ghost use Rattle.std.specs.Prelude.{◌≤◌, length};
    ghost use Rattle.gd_model.specs.View.{DictView};

    ghost Value = { DictView };

    ghost use Rattle.gd_model.specs.contracts.ty.Ty as ty;
    ghost use Rattle.std.specs.Coded.{codes};

    ghost coded = { Prim.hlevel (codes, ty.the_row.coded) };

    ghost view = { λ d. record { key_type = d.key; value_type = d.value; fixed = d.fixed; pairs = d.map.entries } };

    ghost invariant = { λ d. length d.map.entries ≤ 16777216 };
}

impl OrderedDict {
    ghost use Rattle.gd_containers.specs.Answers.{RefusedBy, put_fault, clear_fault};

    /// An empty dictionary of any keys and values.
    pub fn new(alloc: Global, fixed: bool) -> OrderedDict
        ensures { result ≡ record { key_type = Variant; value_type = Variant; fixed = fixed; pairs = [] } }
    {
        OrderedDict::of(alloc, fixed, Ty::Variant, Ty::Variant)
    }

    /// An empty dictionary whose keys and values are of these types.
    pub fn of(alloc: Global, fixed: bool, key: Ty, value: Ty) -> OrderedDict
        ensures { result ≡ record { key_type = key; value_type = value; fixed = fixed; pairs = [] } }
    {
        OrderedDict {
            map: IndexMap::new(alloc),
            key,
            value,
            fixed,
            alloc,
        }
    }

    /// Makes the dictionary read-only.
    pub fn fix(&mut self)
        ensures { self.new ≡ record self.old { fixed = true } }
    {
        self.fixed = true;
    }

    /// The number of pairs.
    pub fn size(&self) -> u32
        ensures value { result ≡ length self.now.pairs }
        ensures limit { result ≤ MAX_ITEMS }
    {
        self.map.len() as u32
    }

    /// Whether the dictionary is read-only.
    pub fn fixed(&self) -> bool
        ensures { result ≡ self.now.fixed }
    {
        self.fixed
    }

    /// The type of the keys.
    pub fn key_type(&self) -> &Ty
        ensures { result.now ≡ self.now.key_type }
    {
        &self.key
    }

    /// The type of the values.
    pub fn value_type(&self) -> &Ty
        ensures { result.now ≡ self.now.value_type }
    {
        &self.value
    }

    /// The value at the key `k`.
    pub fn get(&self, k: &Key) -> Option<&Value>
        ensures { option_copied result ≡ value_at self.now.pairs k.now }
    {
        self.map.get(k)
    }

    /// The pair at place `i` in the order of the keys, counted from 0.
    pub fn at(&self, i: u32) -> Option<(&Key, &Value)>
        ensures { option_map deref_pair result ≡ slice_get self.now.pairs i }
    {
        self.map.get_index(i as usize)
    }

    /// The pairs in the order of their keys.
    pub fn iter(&self) -> Iter<'_, Key, Value>
        ensures rest { result ≡ self.now.pairs }
        ensures runs { ShowsInOrder (deref_pair {K = TheKey} {X = TheValue}) }
    {
        self.map.iter()
    }

    /// A law: no two pairs have one key. It does nothing when it runs.
    pub fn keys_differ(&self)
        ensures { DistinctKeys self.now.pairs }
    {
        let _size = self.map.len();
    }

    /// Puts the value at the key in a dictionary of any keys and values, and gives the value that was there.
    /// `ReadOnly`, then `TooLong`.
    pub fn set(&mut self, k: Key, v: Value) -> Result<Option<Value>, ThingFault>
        requires any_key { self.old.key_type ≡ Variant }
        requires any_value { self.old.value_type ≡ Variant }
        ensures old { IfOk result (λ old. old ≡ value_at self.old.pairs k) }
        ensures ok { OnOk result (self.new ≡ record self.old { pairs = with_pair self.old.pairs k v }) }
        ensures err { OnErr result (self.new ≡ self.old) }
        ensures faults { RefusedBy (put_fault self.old k true) result }
    {
        self.put(k, v, true)
    }

    /// Puts the value at the key, and gives the value that was there. `ReadOnly`, then `ValueOfAnotherType` where
    /// the key or the value does not fit, then `TooLong` for a new key.
    pub fn put(&mut self, k: Key, v: Value, fits: bool) -> Result<Option<Value>, ThingFault>
        ensures old { IfOk result (λ old. old ≡ value_at self.old.pairs k) }
        ensures ok { OnOk result (self.new ≡ record self.old { pairs = with_pair self.old.pairs k v }) }
        ensures err { OnErr result (self.new ≡ self.old) }
        ensures faults { RefusedBy (put_fault self.old k fits) result }
    {
        if self.fixed {
            return Err(ThingFault::Run(RunFault::ReadOnly));
        }
        if !fits {
            return Err(ThingFault::Run(RunFault::ValueOfAnotherType));
        }
        if self.map.len() >= MAX_ITEMS && !self.map.contains_key(&k) {
            return Err(ThingFault::Run(RunFault::TooLong));
        }
        match self.map.insert(k, v) {
            Ok(old) => Ok(old),
            Err(_) => Err(ThingFault::NoMemory),
        }
    }

    /// Takes the pair of the key out, the others keeping their order. `ReadOnly`.
    pub fn erase(&mut self, k: &Key) -> Result<Option<(Key, Value)>, ThingFault>
        ensures old { IfOk result (λ old. old ≡ pair_at self.old.pairs k.now) }
        ensures ok { OnOk result (self.new ≡ record self.old { pairs = without_key self.old.pairs k.now }) }
        ensures err { OnErr result (self.new ≡ self.old) }
        ensures faults { RefusedBy (clear_fault self.old.fixed) result }
    {
        if self.fixed {
            return Err(ThingFault::Run(RunFault::ReadOnly));
        }
        Ok(self.map.shift_remove_entry(k))
    }

    /// Takes all pairs out. `ReadOnly`.
    pub fn clear(&mut self) -> Result<Vec<(Key, Value)>, ThingFault>
        ensures old { IfOk result (λ old. old.items ≡ self.old.pairs) }
        ensures ok { OnOk result (self.new ≡ record self.old { pairs = [] }) }
        ensures err { OnErr result (self.new ≡ self.old) }
        ensures faults { RefusedBy (clear_fault self.old.fixed) result }
    {
        if self.fixed {
            return Err(ThingFault::Run(RunFault::ReadOnly));
        }
        match Vec::with_capacity(self.alloc, self.map.len()) {
            Ok(room) => {
                let map = mem::replace(&mut self.map, IndexMap::new(self.alloc));
                Ok(moved(map, room))
            }
            Err(_) => Err(ThingFault::NoMemory),
        }
    }
}

/// The pairs of the map in order, moved into an empty `room` that has a place for each.
fn moved(mut map: IndexMap<Key, Value>, mut room: Vec<(Key, Value)>) -> Vec<(Key, Value)>
    requires empty { room.items ≡ [] }
    requires places { length map.entries ≤ vec_capacity room }
    ensures { result.items ≡ map.entries }
{
    while let Some(pair) = map.pop() {
        match room.push(pair) {
            Ok(()) => {}
            Err(_) => unreachable!(),
        }
    }
    room.reverse();
    room
}
