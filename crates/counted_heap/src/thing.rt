//! The things of a run, and what their places hold.
ghost use Rattle.std.specs.Prelude.{refl};
ghost use Rattle.counted_heap.specs.Thing.{thing_places, thing_values, thing_pairs, thing_class};

use gd_containers::{OnHeap, OrderedDict, TypedArray};
use gd_holding::Holds;
use gd_model::Value;
use gd_syntax::Seq;

/// An object with its class and the values of its variables, an array, or a dictionary. It takes at most 64 bytes: what
/// is larger stands behind a pointer.
#[derive(Drop)]
pub enum Thing {
    Object(u32, Seq<Value>),
    Array(TypedArray),
    Dict(OnHeap<OrderedDict>),
}

impl Holds for Thing {
    ghost places = { thing_places };

    ghost values = { thing_values };

    ghost pairs = { thing_pairs };

    ghost class = { thing_class };

    fn items(&self) -> &[Value] {
        match self {
            Thing::Object(_, values) => values.items(),
            Thing::Array(array) => array.items(),
            Thing::Dict(_) => &[],
        }
    }

    fn dict(&self) -> Option<&OrderedDict> {
        match self {
            Thing::Dict(dict) => Some(dict.get()),
            Thing::Object(_, _) | Thing::Array(_) => None,
        }
    }

    fn class_of(&self) -> Option<u32> {
        match self {
            Thing::Object(class, _) => Some(*class),
            Thing::Array(_) | Thing::Dict(_) => None,
        }
    }

    ghost placed = { λ t. refl };
}
