//! What a method does to an array, decided and then done.
ghost use Rattle.std.specs.Prelude.{◌≡◌, ◌≤◌, false, length, OnOk, OnErr, IfOk, IfErr};
ghost use Rattle.gd_model.specs.declared.value.Value.TheVariants as v;
ghost use Rattle.container_methods.specs.declared.array_change.Gone.TheVariants.{Nothing, One, All};
ghost use Rattle.container_methods.specs.Arrays.{Makes, HasPlace, with_answer};

use gd_containers::{ThingFault, TypedArray};
use gd_model::Value;
use std::alloc::Global;
use std::mem;

/// A change of an array. Places count from 0.
#[derive(Drop)]
pub enum ArrayChange {
    /// The value comes last.
    Push(Value),
    /// The value goes before the place.
    Insert(u32, Value),
    /// The element at the place leaves.
    Remove(u32),
    /// The element at the place leaves and is the answer.
    Take(u32),
    /// Nothing changes.
    Keep,
    /// All elements leave.
    Clear,
    /// The elements turn their order.
    Reverse,
    /// These values come last.
    Extend(Vec<Value>),
    /// All elements leave, and these values come in their place.
    Replace(Vec<Value>),
    /// The elements from the place on leave.
    Cut(u32),
}

/// Values that left a container.
#[derive(Drop)]
pub enum Gone {
    Nothing,
    One(Value),
    All(Vec<Value>),
}

/// Makes the change. It gives the method's answer and what left the array; only memory may lack, and then nothing changes.
pub fn change_array(
    alloc: Global,
    a: &mut TypedArray,
    change: ArrayChange,
) -> Result<(Value, Gone), ThingFault>
    requires open { a.old.fixed ≡ false }
    requires place { HasPlace change (length a.old.items) }
    ensures { Makes change a.old a.new result }
{
    match change {
        ArrayChange::Push(v) => silent(a.push(v, true)),
        ArrayChange::Insert(i, v) => silent(a.insert(i64::from(i), v, true)),
        ArrayChange::Remove(i) => one_gone(a.remove_at(i64::from(i))),
        ArrayChange::Take(i) => taken(a.remove_at(i64::from(i))),
        ArrayChange::Keep => silent(Ok(())),
        ArrayChange::Clear => all_gone(a.clear()),
        ArrayChange::Reverse => silent(a.reverse()),
        ArrayChange::Extend(more) => silent(a.extend(more, true)),
        ArrayChange::Replace(items) => all_gone(replace(alloc, a, items)),
        ArrayChange::Cut(size) => all_gone(a.truncate(size)),
    }
}

/// The answer of a method that gives nothing and from which nothing leaves.
fn silent(done: Result<(), ThingFault>) -> Result<(Value, Gone), ThingFault>
    ensures { result ≡ with_answer (λ x. (v.Nil, Nothing)) done }
{
    match done {
        Ok(()) => Ok((Value::Nil, Gone::Nothing)),
        Err(fault) => Err(fault),
    }
}

/// The element is the answer.
fn taken(left: Result<Value, ThingFault>) -> Result<(Value, Gone), ThingFault>
    ensures { result ≡ with_answer (λ x. (x, Nothing)) left }
{
    match left {
        Ok(v) => Ok((v, Gone::Nothing)),
        Err(fault) => Err(fault),
    }
}

/// The element has left.
fn one_gone(left: Result<Value, ThingFault>) -> Result<(Value, Gone), ThingFault>
    ensures { result ≡ with_answer (λ x. (v.Nil, One x)) left }
{
    match left {
        Ok(v) => Ok((Value::Nil, Gone::One(v))),
        Err(fault) => Err(fault),
    }
}

/// These elements have left.
fn all_gone(left: Result<Vec<Value>, ThingFault>) -> Result<(Value, Gone), ThingFault>
    ensures { result ≡ with_answer (λ xs. (v.Nil, All xs)) left }
{
    match left {
        Ok(values) => Ok((Value::Nil, Gone::All(values))),
        Err(fault) => Err(fault),
    }
}

/// Puts these elements in the place of all, and gives the old ones. Only memory may lack, and then nothing changes.
fn replace(alloc: Global, a: &mut TypedArray, items: Vec<Value>) -> Result<Vec<Value>, ThingFault>
    requires open { a.old.fixed ≡ false }
    requires room { length items.items ≤ 16777216 }
    ensures old { IfOk result (λ old. old.items ≡ a.old.items) }
    ensures ok { OnOk result (a.new ≡ record a.old { items = items.items }) }
    ensures err { OnErr result (a.new ≡ a.old) }
    ensures fault { IfErr result (λ f. f ≡ ThingFault.NoMemory) }
{
    let mut all = TypedArray::new(alloc, a.element().copy(alloc)?, false);
    all.extend(items, true)?;
    let old = a.clear()?;
    mem::swap(a, &mut all);
    Ok(old)
}
