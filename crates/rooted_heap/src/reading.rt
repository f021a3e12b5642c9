//! Copies of values that things hold come to the top. Each call needs room for what it pushes.
ghost use Rattle.std.specs.Prelude.{◌≡◌, ◌+◌, ◌<◌, ◌≤◌, ◌++◌, ℕ, Some, None, length, take, is_some, slice_get, slice_index_or, option_map, option_and_then, IfOk, OnErr, IfErr, MatchResult};
ghost use Rattle.std.specs.Option.{option_copied, ForSome};
ghost use Rattle.gd_model.specs.declared.value.Value.TheVariants as v;
ghost use Rattle.gd_model.specs.View.{array_in, dict_in, class_in};
ghost use Rattle.gd_model.specs.Whole.{key_value, pair_values, AllWhole};
ghost use Rattle.rooted_heap.specs.Rooted.{CanHold, seen, names_of};
ghost use Rattle.rooted_heap.specs.Reading.{object_handle, array_handle, dict_handle, variable_in, element_in, entry_in, key_in, keys_at, read_at, with_found};

use crate::RootedHeap;
use crate::look::{array_of, class_of, dict_of};
use crate::named::{named_array, named_dict, named_object};
use counted_heap::Thing;
use gd_containers::{OrderedDict, TypedArray};
use gd_model::{Key, Value};
use no_memory::NoMemory;

/// The value that a key is.
fn value_of(key: &Key) -> Result<Value, NoMemory>
    ensures { IfOk result (λ value. value ≡ key_value key.now) }
{
    Ok(match key {
        Key::Nil => Value::Nil,
        Key::Bool(b) => Value::Bool(*b),
        Key::Int(n) => Value::Int(*n),
        Key::Str(text) => Value::Str(text.share()?),
        Key::Object(h) => Value::Object(*h),
    })
}

/// Variable `k` of an object of this class, once more.
#[inline(always)]
fn variable_of(thing: &Thing, class: u32, k: usize) -> Result<Option<Value>, NoMemory>
    ensures { IfOk result (λ found. found ≡ variable_in class k thing.now) }
{
    match thing {
        Thing::Object(c, values) if *c == class => copy_at(values.items(), k),
        _ => Ok(None),
    }
}

/// Element `k` of an array, once more.
#[inline(always)]
fn element_of(thing: &Thing, k: usize) -> Result<Option<Value>, NoMemory>
    ensures { IfOk result (λ found. found ≡ element_in k thing.now) }
{
    match thing {
        Thing::Array(array) => copy_at(array.items(), k),
        _ => Ok(None),
    }
}

#[inline(always)]
fn copy_at(values: &[Value], k: usize) -> Result<Option<Value>, NoMemory>
    ensures { IfOk result (λ found. found ≡ slice_get values.now k) }
{
    match values.get(k) {
        Some(value) => Ok(Some(value.share()?)),
        None => Ok(None),
    }
}

/// The value at a key of a dictionary, once more.
fn entry_of(thing: &Thing, key: &Key) -> Result<Option<Value>, NoMemory>
    ensures { IfOk result (λ found. found ≡ entry_in key.now thing.now) }
{
    match thing {
        Thing::Dict(dict) => match dict.get().get(key) {
            Some(value) => Ok(Some(value.share()?)),
            None => Ok(None),
        },
        _ => Ok(None),
    }
}

/// Key number `j` of a dictionary, as a value.
fn key_at(thing: &Thing, j: u32) -> Result<Option<Value>, NoMemory>
    ensures { IfOk result (λ found. found ≡ key_in j thing.now) }
{
    match thing {
        Thing::Dict(dict) => match dict.get().at(j) {
            Some((key, _)) => Ok(Some(value_of(key)?)),
            None => Ok(None),
        },
        _ => Ok(None),
    }
}

impl RootedHeap {
    /// The class of the object at place `i`; `None` where no object stands there.
    #[inline(always)]
    pub fn class_at(&self, i: usize) -> Option<u32>
        requires { i < length self.now.values }
        ensures { result ≡ option_and_then (λ h. class_in (seen self.now.things h)) (object_handle (slice_index_or self.now.values i v.Nil)) }
    {
        let Some(h) = named_object(&self.slots[i]) else {
            return None;
        };
        self.heap.rising_law();
        class_of(self.heap.thing(h))
    }

    /// The array at place `i`; `None` where no array stands there.
    pub fn array_at(&self, i: usize) -> Option<&TypedArray>
        requires { i < length self.now.values }
        ensures value { option_copied result ≡ option_and_then (λ h. array_in (seen self.now.things h)) (array_handle (slice_index_or self.now.values i v.Nil)) }
        ensures whole { ForSome (option_copied result) (λ a. AllWhole (seen self.now.things) (names_of self.now.names) a.items) }
    {
        let Some(h) = named_array(&self.slots[i]) else {
            return None;
        };
        self.heap.rising_law();
        array_of(self.heap.thing(h))
    }

    /// The dictionary at place `i`; `None` where none stands there.
    pub fn dict_at(&self, i: usize) -> Option<&OrderedDict>
        requires { i < length self.now.values }
        ensures value { option_copied result ≡ option_and_then (λ h. dict_in (seen self.now.things h)) (dict_handle (slice_index_or self.now.values i v.Nil)) }
        ensures whole { ForSome (option_copied result) (λ d. AllWhole (seen self.now.things) (names_of self.now.names) (pair_values d.pairs)) }
    {
        let Some(h) = named_dict(&self.slots[i]) else {
            return None;
        };
        self.heap.rising_law();
        dict_of(self.heap.thing(h))
    }

    /// Pushes variable `k` of the object at place `i`. False, with nothing changed, where no object of this class with such
    /// a variable stands there.
    #[inline(always)]
    pub fn push_variable(&mut self, i: usize, class: u32, k: usize) -> Result<bool, NoMemory>
        requires there { i < length self.old.values }
        requires room { length self.old.values < self.old.slots }
        ensures ok { IfOk result (λ done. done ≡ is_some (read_at (variable_in class k) self.old.things (object_handle (slice_index_or self.old.values i v.Nil)))) }
        ensures pushed { IfOk result (λ done. self.new ≡ with_found self.old (read_at (variable_in class k) self.old.things (object_handle (slice_index_or self.old.values i v.Nil)))) }
        ensures err { OnErr result (self.new ≡ self.old) }
    {
        let Some(h) = named_object(&self.slots[i]) else {
            return Ok(false);
        };
        self.heap.rising_law();
        let copy = variable_of(self.heap.thing(h), class, k)?;
        Ok(self.push_found(copy))
    }

    /// Pushes element `k` of the array at place `i`. False, with nothing changed, where no array with such an element stands
    /// there.
    #[inline(always)]
    pub fn push_element(&mut self, i: usize, k: usize) -> Result<bool, NoMemory>
        requires there { i < length self.old.values }
        requires room { length self.old.values < self.old.slots }
        ensures ok { IfOk result (λ done. done ≡ is_some (read_at (element_in k) self.old.things (array_handle (slice_index_or self.old.values i v.Nil)))) }
        ensures pushed { IfOk result (λ done. self.new ≡ with_found self.old (read_at (element_in k) self.old.things (array_handle (slice_index_or self.old.values i v.Nil)))) }
        ensures err { OnErr result (self.new ≡ self.old) }
    {
        let Some(h) = named_array(&self.slots[i]) else {
            return Ok(false);
        };
        self.heap.rising_law();
        let copy = element_of(self.heap.thing(h), k)?;
        Ok(self.push_found(copy))
    }

    /// Pushes the value at a key of the dictionary at place `i`. False, with nothing changed, where no dictionary with such a
    /// key stands there.
    pub fn push_entry(&mut self, i: usize, key: &Key) -> Result<bool, NoMemory>
        requires there { i < length self.old.values }
        requires room { length self.old.values < self.old.slots }
        ensures ok { IfOk result (λ done. done ≡ is_some (read_at (entry_in key.now) self.old.things (dict_handle (slice_index_or self.old.values i v.Nil)))) }
        ensures pushed { IfOk result (λ done. self.new ≡ with_found self.old (read_at (entry_in key.now) self.old.things (dict_handle (slice_index_or self.old.values i v.Nil)))) }
        ensures err { OnErr result (self.new ≡ self.old) }
    {
        let Some(h) = named_dict(&self.slots[i]) else {
            return Ok(false);
        };
        self.heap.rising_law();
        let copy = entry_of(self.heap.thing(h), key)?;
        Ok(self.push_found(copy))
    }

    /// Pushes the keys of the dictionary at place `i` in order, and answers how many there are. After `NoMemory` the first
    /// ones of them stand on the top.
    pub fn push_keys(&mut self, i: usize) -> Result<usize, NoMemory>
        requires there { i < length self.old.values }
        requires room { length self.old.values + length (keys_at self.old.things (dict_handle (slice_index_or self.old.values i v.Nil))) ≤ self.old.slots }
        ensures count { IfOk result (λ count. count ≡ length (keys_at self.old.things (dict_handle (slice_index_or self.old.values i v.Nil)))) }
        ensures ok { IfOk result (λ count. self.new ≡ record self.old { values = self.old.values ++ keys_at self.old.things (dict_handle (slice_index_or self.old.values i v.Nil)) }) }
        ensures err { IfErr result (λ e. (n : ℕ) × (self.new ≡ record self.old { values = self.old.values ++ take n (keys_at self.old.things (dict_handle (slice_index_or self.old.values i v.Nil))) })) }
    {
        let Some(dict) = self.dict_at(i) else {
            return Ok(0);
        };
        let size = dict.size();
        for j in 0..size {
            self.push_key(i, j)?;
        }
        Ok(size as usize)
    }

    // Pushes key number `j` of the dictionary at place `i`, where there is one.
    fn push_key(&mut self, i: usize, j: u32) -> Result<(), NoMemory>
        requires there { i < length self.old.values }
        requires room { length self.old.values < self.old.slots }
        ensures ok { IfOk result (λ done. self.new ≡ with_found self.old (read_at (key_in j) self.old.things (dict_handle (slice_index_or self.old.values i v.Nil)))) }
        ensures err { OnErr result (self.new ≡ self.old) }
    {
        let Some(h) = named_dict(&self.slots[i]) else {
            return Ok(());
        };
        self.heap.rising_law();
        let copy = key_at(self.heap.thing(h), j)?;
        self.push_found(copy);
        Ok(())
    }

    // Pushes a copy of a value that a thing holds, where there is one.
    #[inline(always)]
    fn push_found(&mut self, found: Option<Value>) -> bool
        requires held { ForSome found (λ x. CanHold self.old x) }
        requires room { length self.old.values < self.old.slots }
        ensures done { result ≡ is_some found }
        ensures after { self.new ≡ with_found self.old found }
    {
        match found {
            Some(value) => {
                self.push_held(value);
                true
            }
            None => false,
        }
    }
}
