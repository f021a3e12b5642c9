use gd_containers::{OrderedDict, TypedArray};

/// A thing that a constant made.
#[derive(Drop)]
pub enum ConstantThing {
    Array(TypedArray),
    Dict(OrderedDict),
}
