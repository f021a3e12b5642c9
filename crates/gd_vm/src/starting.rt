//! The values with which places of a type begin.
ghost use Rattle.std.specs.Prelude.{◌≡◌, [], None, IfOk};
ghost use Rattle.std.specs.Option.{ForSome};
ghost use Rattle.gd_holding.specs.Handles.{value_handle};
ghost use Rattle.rooted_heap.specs.Making.{IsContainer};
ghost use Rattle.rooted_heap.specs.Rooted.{contents};

use crate::machine::Machine;
use crate::stop::Done;
use counted_heap::Thing;
use gd_containers::{OnHeap, OrderedDict, TypedArray};
use gd_model::{Ty, Value};
use gd_syntax::Text;
use no_memory::NoMemory;
use std::alloc::Global;

/// The value with which a place of a type begins, where it is no new thing.
pub fn plain_start(ty: &Ty, empty: &Text) -> Result<Option<Value>, NoMemory>
    ensures { IfOk result (λ start. ForSome start (λ x. value_handle x ≡ None)) }
{
    Ok(match ty {
        Ty::Int => Some(Value::Int(0)),
        Ty::Bool => Some(Value::Bool(false)),
        Ty::Str => Some(Value::Str(empty.share()?)),
        Ty::Array | Ty::ArrayOf(_) | Ty::Dict | Ty::DictOf(_, _) => None,
        _ => Some(Value::Nil),
    })
}

/// Pushes the value with which a place of a type begins: an empty array or dictionary is a new thing.
pub fn push_start(alloc: Global, machine: &mut Machine, ty: &Ty, empty: &Text) -> Done {
    machine.make_room()?;
    match plain_start(ty, empty)? {
        Some(value) => machine.heap.push_free(value),
        None => {
            let thing = empty_thing(alloc, ty)?;
            machine.heap.push_thing(thing)?;
        }
    }
    Ok(())
}

// The empty container with which a place of a type begins.
fn empty_thing(alloc: Global, ty: &Ty) -> Result<Thing, NoMemory>
    ensures kind { IfOk result IsContainer }
    ensures empty { IfOk result (λ thing. contents thing ≡ []) }
{
    Ok(match ty {
        Ty::Array => Thing::Array(TypedArray::new(alloc, Ty::Variant, false)),
        Ty::ArrayOf(element) => {
            let element = element.get().copy(alloc)?;
            Thing::Array(TypedArray::new(alloc, element, false))
        }
        Ty::DictOf(key, value) => {
            let key = key.get().copy(alloc)?;
            let value = value.get().copy(alloc)?;
            Thing::Dict(OnHeap::new(alloc, OrderedDict::of(alloc, false, key, value))?)
        }
        _ => Thing::Dict(OnHeap::new(alloc, OrderedDict::new(alloc, false))?),
    })
}
