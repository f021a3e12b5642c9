//! The values as a stack: they are pushed, read, copied, and given up.
ghost use Rattle.std.specs.Prelude.{◌≡◌, ◌+◌, ◌-◌, ◌<◌, ◌≤◌, None, [], ◌∷◌, ◌++◌, length, take, drop, replicate, slice_set, slice_index_or, OnOk, OnErr};
ghost use Rattle.gd_model.specs.declared.value.Value.TheVariants as v;
ghost use Rattle.gd_holding.specs.Handles.{value_handle};
ghost use Rattle.rooted_heap.specs.Rooted.{RootedView, int_in};

use crate::RootedHeap;
use crate::uncounted::{give_up, keep};
use gd_model::Value;
use no_memory::NoMemory;
use std::mem;

impl RootedHeap {
    /// The value at place `i`, counted from 0.
    #[inline(always)]
    pub fn value(&self, i: usize) -> &Value
        requires { i < length self.now.values }
        ensures { result.now ≡ slice_index_or self.now.values i result.now }
    {
        &self.slots[i]
    }

    /// Pushes a value that names no thing.
    #[inline(always)]
    pub fn push_free(&mut self, value: Value)
        requires free { value_handle value ≡ None }
        requires room { length self.old.values < self.old.slots }
        ensures { self.new ≡ record self.old { values = self.old.values ++ value ∷ [] } }
    {
        self.slots[self.top] = value;
        self.top += 1;
    }

    /// Pushes a copy of the value at place `i`. It takes no memory; `NoMemory` comes where a text, a Callable or a
    /// Signal has as many owners as there can be, and then nothing has changed.
    #[inline(always)]
    pub fn push_copy(&mut self, i: usize) -> Result<(), NoMemory>
        requires there { i < length self.old.values }
        requires room { length self.old.values < self.old.slots }
        ensures ok { OnOk result (self.new ≡ record self.old { values = self.old.values ++ slice_index_or self.old.values i v.Nil ∷ [] }) }
        ensures err { OnErr result (self.new ≡ self.old) }
    {
        let copy = self.slots[i].share()?;
        keep(&mut self.heap, &copy);
        self.slots[self.top] = copy;
        self.top += 1;
        Ok(())
    }

    /// Gives up the last value.
    #[inline(always)]
    pub fn pop(&mut self)
        requires { 0 < length self.old.values }
        ensures { self.new ≡ record self.old { values = take (length self.old.values - 1) self.old.values } }
    {
        self.top -= 1;
        let last = mem::replace(&mut self.slots[self.top], Value::Nil);
        give_up(&mut self.heap, &last);
    }

    /// Moves the last value to place `i`, and gives up the one that was there.
    #[inline(always)]
    pub fn store(&mut self, i: usize)
        requires { i + 1 < length self.old.values }
        ensures { self.new ≡ record self.old { values = slice_set (take (length self.old.values - 1) self.old.values) i (slice_index_or self.old.values (length self.old.values - 1) v.Nil) } }
    {
        self.top -= 1;
        let last = mem::replace(&mut self.slots[self.top], Value::Nil);
        let old = mem::replace(&mut self.slots[i], last);
        give_up(&mut self.heap, &old);
    }

    /// Puts a value that names no thing at place `i`, and gives up the one that was there.
    #[inline(always)]
    pub fn set_free(&mut self, i: usize, value: Value)
        requires there { i < length self.old.values }
        requires free { value_handle value ≡ None }
        ensures { self.new ≡ record self.old { values = slice_set self.old.values i value } }
    {
        let old = mem::replace(&mut self.slots[i], value);
        give_up(&mut self.heap, &old);
    }

    /// The int at place `i`, where one is there.
    #[inline(always)]
    pub fn int_at(&self, i: usize) -> Option<i64>
        requires { i < length self.now.values }
        ensures { result ≡ int_in (slice_index_or self.now.values i v.Nil) }
    {
        match &self.slots[i] {
            Value::Int(n) => Some(*n),
            _ => None,
        }
    }

    /// Pushes so many nulls.
    pub fn push_nils(&mut self, count: usize)
        requires { length self.old.values + count ≤ self.old.slots }
        ensures { self.new ≡ record self.old { values = self.old.values ++ replicate count v.Nil } }
    {
        'pushes: for _ in 0..count {
            self.push_free(Value::Nil);
        }
    }

    /// Gives up the last `count` values.
    pub fn drop_last(&mut self, count: usize)
        requires { count ≤ length self.old.values }
        ensures { self.new ≡ record self.old { values = take (length self.old.values - count) self.old.values } }
    {
        'drops: for _ in 0..count {
            self.pop();
        }
    }

    /// Moves the last value to place `base`, and gives up all from there on but it.
    pub fn leave(&mut self, base: usize)
        requires { base < length self.old.values }
        ensures { self.new ≡ record self.old { values = take base self.old.values ++ slice_index_or self.old.values (length self.old.values - 1) v.Nil ∷ [] } }
    {
        let count = self.len() - base;
        if count > 1 {
            self.store(base);
            self.drop_last(count - 2);
        }
    }

    /// Puts null at the places from `from` to before `to`, and gives up what was there.
    pub fn clear(&mut self, from: usize, to: usize)
        requires first { from ≤ to }
        requires last { to ≤ length self.old.values }
        ensures { self.new ≡ record self.old { values = take from self.old.values ++ replicate (to - from) v.Nil ++ drop to self.old.values } }
    {
        for i in from..to {
            self.set_free(i, Value::Nil);
        }
    }
}
