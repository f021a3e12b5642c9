//! Arrays that know the type of their elements.
ghost use Rattle.std.specs.Prelude.{◌≡◌, ◌≤◌, ◌++◌, [], ◌∷◌, Some, None, true, false, length, take, drop, reverse, replicate, slice_range, remove, insert, slice_set, option_map, unwrap_or, IfOk, OnOk, OnErr, MatchResult, IsTrue, ◌↔◌};
ghost use Rattle.gd_model.specs.Place as spec;

use crate::{MAX_ITEMS, ThingFault, clamped_place, gap_place, item_place};
use gd_model::{RunFault, Ty, Value};
use no_memory::NoMemory;
use std::alloc::Global;
use std::marker::Model;
use std::mem;

/// An array: its elements, the type that each of them fits, and whether it is read-only.
#[derive(Drop)]
pub struct TypedArray {
    items: Vec<Value>,
    element: Ty,
    fixed: bool,
}

impl Model for TypedArray {
    ghost use Rattle.std.specs.Prelude.{◌≤◌, length};
    ghost use Rattle.gd_model.specs.View.{ArrayView};

    ghost Value = { ArrayView };

    ghost use Rattle.gd_model.specs.contracts.ty.Ty as ty;
    ghost use Rattle.std.specs.Coded.{codes};

    ghost coded = { Prim.hlevel (codes, ty.the_row.coded) };

    ghost view = { λ a. record { element = a.element; fixed = a.fixed; items = a.items.items } };

    ghost invariant = { λ a. length a.items.items ≤ 16777216 };
}

impl TypedArray {
    ghost use Rattle.gd_containers.specs.Answers.{RefusedBy, push_fault, insert_fault, set_fault, remove_fault, clear_fault, extend_fault, fill_fault, resize_fault, resized, cut_off, item_at};

    /// An empty array.
    pub fn new(alloc: Global, element: Ty, fixed: bool) -> TypedArray
        ensures { result ≡ record { element = element; fixed = fixed; items = [] } }
    {
        TypedArray {
            items: Vec::new(alloc),
            element,
            fixed,
        }
    }

    /// Makes the array read-only.
    pub fn fix(&mut self)
        ensures { self.new ≡ record self.old { fixed = true } }
    {
        self.fixed = true;
    }

    /// The number of elements.
    pub fn size(&self) -> u32
        ensures value { result ≡ length self.now.items }
        ensures limit { result ≤ MAX_ITEMS }
    {
        self.items.len() as u32
    }

    /// The type that each element fits.
    pub fn element(&self) -> &Ty
        ensures { result.now ≡ self.now.element }
    {
        &self.element
    }

    /// Whether the array is read-only.
    pub fn fixed(&self) -> bool
        ensures { result ≡ self.now.fixed }
    {
        self.fixed
    }

    /// The elements in order.
    pub fn items(&self) -> &[Value]
        ensures { result.now ≡ self.now.items }
    {
        self.items.as_slice()
    }

    /// The element at `at`, a negative number counting from the end; `OutOfRange` exactly where there is none.
    pub fn get(&self, at: i64) -> Result<&Value, RunFault>
        ensures { MatchResult result (λ v. item_at self.now.items at ≡ Some v.now) (λ f. (f ≡ RunFault.OutOfRange) × (item_at self.now.items at ≡ None)) }
    {
        match item_place(at, self.items.len()) {
            Some(i) => Ok(&self.items[i]),
            None => Err(RunFault::OutOfRange),
        }
    }

    /// Adds an element at the end. `ReadOnly`, then `ValueOfAnotherType` where it does not fit, then `TooLong`.
    pub fn push(&mut self, v: Value, fits: bool) -> Result<(), ThingFault>
        ensures ok { OnOk result (self.new ≡ record self.old { items = self.old.items ++ v ∷ [] }) }
        ensures err { OnErr result (self.new ≡ self.old) }
        ensures faults { RefusedBy (push_fault self.old fits) result }
    {
        if self.fixed {
            return Err(ThingFault::Run(RunFault::ReadOnly));
        }
        if !fits {
            return Err(ThingFault::Run(RunFault::ValueOfAnotherType));
        }
        if self.items.len() >= MAX_ITEMS {
            return Err(ThingFault::Run(RunFault::TooLong));
        }
        match self.items.push(v) {
            Ok(()) => Ok(()),
            Err(_) => Err(ThingFault::NoMemory),
        }
    }

    /// Puts an element before the place `at`, from 0 to the size or negative from the end. `ReadOnly`, then
    /// `OutOfRange`, then `ValueOfAnotherType`, then `TooLong`.
    pub fn insert(&mut self, at: i64, v: Value, fits: bool) -> Result<(), ThingFault>
        ensures ok { OnOk result (self.new ≡ record self.old { items = unwrap_or (option_map (λ i. insert self.old.items i v) (spec.gap at (length self.old.items))) [] }) }
        ensures err { OnErr result (self.new ≡ self.old) }
        ensures faults { RefusedBy (insert_fault self.old at fits) result }
    {
        if self.fixed {
            return Err(ThingFault::Run(RunFault::ReadOnly));
        }
        let Some(i) = gap_place(at, self.items.len()) else {
            return Err(ThingFault::Run(RunFault::OutOfRange));
        };
        if !fits {
            return Err(ThingFault::Run(RunFault::ValueOfAnotherType));
        }
        if self.items.len() >= MAX_ITEMS {
            return Err(ThingFault::Run(RunFault::TooLong));
        }
        match self.items.insert(i, v) {
            Ok(()) => Ok(()),
            Err(_) => Err(ThingFault::NoMemory),
        }
    }

    /// Writes the element at `at` and gives the old one. `ReadOnly`, then `OutOfRange`, then `ValueOfAnotherType`.
    pub fn set(&mut self, at: i64, v: Value, fits: bool) -> Result<Value, ThingFault>
        ensures old { IfOk result (λ old. item_at self.old.items at ≡ Some old) }
        ensures ok { OnOk result (self.new ≡ record self.old { items = unwrap_or (option_map (λ i. slice_set self.old.items i v) (spec.place at (length self.old.items))) [] }) }
        ensures err { OnErr result (self.new ≡ self.old) }
        ensures faults { RefusedBy (set_fault self.old at fits) result }
    {
        if self.fixed {
            return Err(ThingFault::Run(RunFault::ReadOnly));
        }
        let Some(i) = item_place(at, self.items.len()) else {
            return Err(ThingFault::Run(RunFault::OutOfRange));
        };
        if !fits {
            return Err(ThingFault::Run(RunFault::ValueOfAnotherType));
        }
        Ok(mem::replace(&mut self.items[i], v))
    }

    /// Takes the element at `at` out. `ReadOnly`, then `OutOfRange`.
    pub fn remove_at(&mut self, at: i64) -> Result<Value, ThingFault>
        ensures old { IfOk result (λ old. item_at self.old.items at ≡ Some old) }
        ensures ok { OnOk result (self.new ≡ record self.old { items = unwrap_or (option_map (λ i. remove self.old.items i) (spec.place at (length self.old.items))) [] }) }
        ensures err { OnErr result (self.new ≡ self.old) }
        ensures faults { RefusedBy (remove_fault self.old at) result }
    {
        if self.fixed {
            return Err(ThingFault::Run(RunFault::ReadOnly));
        }
        let Some(i) = item_place(at, self.items.len()) else {
            return Err(ThingFault::Run(RunFault::OutOfRange));
        };
        Ok(self.items.remove(i))
    }

    /// Takes all elements out. `ReadOnly`.
    pub fn clear(&mut self) -> Result<Vec<Value>, ThingFault>
        ensures old { IfOk result (λ old. old.items ≡ self.old.items) }
        ensures ok { OnOk result (self.new ≡ record self.old { items = [] }) }
        ensures err { OnErr result (self.new ≡ self.old) }
        ensures faults { RefusedBy (clear_fault self.old.fixed) result }
    {
        if self.fixed {
            return Err(ThingFault::Run(RunFault::ReadOnly));
        }
        let empty = Vec::new(*self.items.allocator());
        Ok(mem::replace(&mut self.items, empty))
    }

    /// Makes room for so many elements more.
    pub fn reserve(&mut self, more: u32) -> Result<(), NoMemory>
        ensures { self.new ≡ self.old }
    {
        self.items.reserve(more as usize)?;
        Ok(())
    }

    /// Adds these elements at the end. `ReadOnly`, then `ValueOfAnotherType` where one does not fit, then `TooLong`.
    pub fn extend(&mut self, mut more: Vec<Value>, fits: bool) -> Result<(), ThingFault>
        ensures ok { OnOk result (self.new ≡ record self.old { items = self.old.items ++ more.items }) }
        ensures err { OnErr result (self.new ≡ self.old) }
        ensures faults { RefusedBy (extend_fault self.old (length more.items) fits) result }
    {
        if self.fixed {
            return Err(ThingFault::Run(RunFault::ReadOnly));
        }
        if !fits {
            return Err(ThingFault::Run(RunFault::ValueOfAnotherType));
        }
        if more.len() > MAX_ITEMS - self.items.len() {
            return Err(ThingFault::Run(RunFault::TooLong));
        }
        match self.items.append(&mut more) {
            Ok(()) => Ok(()),
            Err(_) => Err(ThingFault::NoMemory),
        }
    }

    /// Turns the order of the elements. `ReadOnly`.
    pub fn reverse(&mut self) -> Result<(), ThingFault>
        ensures ok { OnOk result (self.new ≡ record self.old { items = reverse self.old.items }) }
        ensures err { OnErr result (self.new ≡ self.old) }
        ensures faults { RefusedBy (clear_fault self.old.fixed) result }
    {
        if self.fixed {
            return Err(ThingFault::Run(RunFault::ReadOnly));
        }
        self.items.reverse();
        Ok(())
    }

    /// Cuts off the elements from place `size` on, and gives them. `ReadOnly`.
    pub fn truncate(&mut self, size: u32) -> Result<Vec<Value>, ThingFault>
        ensures cut { IfOk result (λ cut. cut.items ≡ drop size self.old.items) }
        ensures ok { OnOk result (self.new ≡ record self.old { items = take size self.old.items }) }
        ensures err { OnErr result (self.new ≡ self.old) }
        ensures faults { RefusedBy (clear_fault self.old.fixed) result }
    {
        if self.fixed {
            return Err(ThingFault::Run(RunFault::ReadOnly));
        }
        let from = self.items.len().min(size as usize);
        match self.items.split_off(from) {
            Ok(cut) => Ok(cut),
            Err(_) => Err(ThingFault::NoMemory),
        }
    }

    /// Writes the value at each place, and gives the old elements. `ReadOnly`, then `ValueOfAnotherType`.
    pub fn fill(&mut self, v: &Value, fits: bool) -> Result<Vec<Value>, ThingFault>
        ensures old { IfOk result (λ old. old.items ≡ self.old.items) }
        ensures ok { OnOk result (self.new ≡ record self.old { items = replicate (length self.old.items) v.now }) }
        ensures err { OnErr result (self.new ≡ self.old) }
        ensures faults { RefusedBy (fill_fault self.old fits) result }
    {
        if self.fixed {
            return Err(ThingFault::Run(RunFault::ReadOnly));
        }
        if !fits {
            return Err(ThingFault::Run(RunFault::ValueOfAnotherType));
        }
        let all = copies(*self.items.allocator(), v, self.items.len())?;
        Ok(mem::replace(&mut self.items, all))
    }

    /// Makes the array as long as `size` says: new elements are `start`, and those that are cut off are given.
    /// `ReadOnly`, then `OutOfRange` for a size below 0, then `TooLong`.
    pub fn resize(&mut self, size: i64, start: &Value) -> Result<Vec<Value>, ThingFault>
        ensures cut { IfOk result (λ cut. cut.items ≡ cut_off self.old.items size) }
        ensures ok { OnOk result (self.new ≡ record self.old { items = resized self.old.items size start.now }) }
        ensures err { OnErr result (self.new ≡ self.old) }
        ensures faults { RefusedBy (resize_fault self.old size) result }
    {
        if self.fixed {
            return Err(ThingFault::Run(RunFault::ReadOnly));
        }
        if size < 0 {
            return Err(ThingFault::Run(RunFault::OutOfRange));
        }
        if size > MAX_ITEMS as i64 {
            return Err(ThingFault::Run(RunFault::TooLong));
        }
        let size = size as usize;
        if size <= self.items.len() {
            return self.truncate(size as u32);
        }
        let alloc = *self.items.allocator();
        let mut more = copies(alloc, start, size - self.items.len())?;
        match self.items.append(&mut more) {
            Ok(()) => Ok(more),
            Err(_) => Err(ThingFault::NoMemory),
        }
    }

    /// The elements once more, without their array.
    pub fn share_items(&self, alloc: Global) -> Result<Vec<Value>, NoMemory>
        ensures { IfOk result (λ all. all.items ≡ self.now.items) }
    {
        shared(alloc, self.items.as_slice())
    }

    /// A new array of the same type with the elements from place `from` on and before place `to`, both clamped.
    pub fn slice(&self, alloc: Global, from: i64, to: i64) -> Result<TypedArray, ThingFault>
        ensures made { IfOk result (λ a. a ≡ record { element = self.now.element; fixed = false; items = slice_range self.now.items (spec.clamped from (length self.now.items)) (spec.clamped to (length self.now.items)) }) }
        ensures faults { RefusedBy None result }
    {
        let first = clamped_place(from, self.items.len());
        let end = clamped_place(to, self.items.len());
        let items = shared(alloc, &self.items.as_slice()[first.min(end)..end])?;
        let element = self.element.copy(alloc)?;
        Ok(TypedArray {
            items,
            element,
            fixed: false,
        })
    }
}

/// The value so many times.
fn copies(alloc: Global, v: &Value, count: usize) -> Result<Vec<Value>, NoMemory>
    ensures { IfOk result (λ all. all.items ≡ replicate count v.now) }
{
    let mut all = Vec::with_capacity(alloc, count)?;
    for _ in 0..count {
        all.push(v.share()?)?;
    }
    Ok(all)
}

/// The same values once more.
fn shared(alloc: Global, items: &[Value]) -> Result<Vec<Value>, NoMemory>
    ensures { IfOk result (λ all. all.items ≡ items.now) }
{
    let mut all = Vec::with_capacity(alloc, items.len())?;
    for item in items {
        all.push(item.share()?)?;
    }
    Ok(all)
}
