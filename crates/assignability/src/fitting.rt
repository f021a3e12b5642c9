//! Which values fit a type.
ghost use Rattle.std.specs.Prelude.{◌≡◌};
ghost use Rattle.gd_model.specs.Meant.{datum, array_thing, dict_thing};
ghost use Rattle.gd_model.specs.Store.{class_behind};
ghost use Rattle.gd_model.specs.Whole.{Whole};
ghost use Rattle.assignability.specs.Fits as spec;
ghost use Rattle.std.specs.Prelude.{Some};

use crate::Bases;
use gd_containers::{Look, OrderedDict, TypedArray, array_of, class_of, dict_of};
use gd_model::{Ty, Value};

/// Whether the value fits the type.
pub fn fits<B: Bases, K: Look>(bases: &B, look: &K, t: &Ty, v: &Value) -> bool
    requires whole { Whole (K.things look.now) (K.names look.now) v.now }
    ensures { result ≡ spec.fits (B.bases bases.now) (K.store look.now) t.now (datum v.now) }
{
    match v {
        Value::Nil => null_fits(t),
        Value::Bool(_) => matches!(t, Ty::Variant | Ty::Bool),
        Value::Int(_) => matches!(t, Ty::Variant | Ty::Int),
        Value::Str(_) => matches!(t, Ty::Variant | Ty::Str),
        Value::Object(h) => class_fits(bases, t, class_of(look, *h)),
        Value::Array(h) => array_fits(t, array_of(look, *h)),
        Value::Dict(h) => dict_fits(t, dict_of(look, *h)),
        Value::Callable(_) => matches!(t, Ty::Variant | Ty::Callable),
        Value::Signal(_) => matches!(t, Ty::Variant | Ty::Signal),
    }
}

fn null_fits(t: &Ty) -> bool
    ensures { result ≡ spec.null_fits t.now }
{
    match t {
        Ty::Variant | Ty::Nil | Ty::Void | Ty::Class(_) | Ty::Callable | Ty::Signal => true,
        _ => false,
    }
}

fn class_fits<B: Bases>(bases: &B, t: &Ty, class: u32) -> bool
    ensures { result ≡ spec.class_fits (B.bases bases.now) t.now (Some class) }
{
    match t {
        Ty::Variant => true,
        Ty::Class(c) => bases.is_base(class, *c),
        _ => false,
    }
}

fn array_fits(t: &Ty, array: &TypedArray) -> bool
    ensures { result ≡ spec.array_fits t.now (Some (array_thing array.now)) }
{
    match t {
        Ty::Variant | Ty::Array => true,
        Ty::ArrayOf(element) => array.element().same(element.get()),
        _ => false,
    }
}

fn dict_fits(t: &Ty, dict: &OrderedDict) -> bool
    ensures { result ≡ spec.dict_fits t.now (Some (dict_thing dict.now)) }
{
    match t {
        Ty::Variant | Ty::Dict => true,
        Ty::DictOf(key, value) => dict.key_type().same(key.get())
            && dict.value_type().same(value.get()),
        _ => false,
    }
}
