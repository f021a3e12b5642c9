ghost use Rattle.std.specs.Prelude.{◌≡◌};
ghost use Rattle.gd_model.specs.Meant.{datum};
ghost use Rattle.value_semantics.specs.Kinds as spec;

use gd_model::{Ty, Value};

/// The kind of an operand.
#[derive(Clone, Copy, Debug, PartialEq, Eq)]
pub enum Kind {
    Nil,
    Bool,
    Int,
    Str,
    Object,
    Array,
    Dict,
    Callable,
    Signal,
}

/// The kind of a value.
pub fn kind_of(v: &Value) -> Kind
    ensures { result ≡ spec.kind_of (datum v.now) }
{
    match v {
        Value::Nil => Kind::Nil,
        Value::Bool(_) => Kind::Bool,
        Value::Int(_) => Kind::Int,
        Value::Str(_) => Kind::Str,
        Value::Object(_) => Kind::Object,
        Value::Array(_) => Kind::Array,
        Value::Dict(_) => Kind::Dict,
        Value::Callable(_) => Kind::Callable,
        Value::Signal(_) => Kind::Signal,
    }
}

/// The kind of the values of a type, other than null; `None` for Variant and for what is no type of values.
pub fn kind_of_type(t: &Ty) -> Option<Kind>
    ensures { result ≡ spec.kind_of_type t.now }
{
    match t {
        Ty::Nil => Some(Kind::Nil),
        Ty::Bool => Some(Kind::Bool),
        Ty::Int => Some(Kind::Int),
        Ty::Str => Some(Kind::Str),
        Ty::Class(_) => Some(Kind::Object),
        Ty::Array | Ty::ArrayOf(_) => Some(Kind::Array),
        Ty::Dict | Ty::DictOf(_, _) => Some(Kind::Dict),
        Ty::Callable => Some(Kind::Callable),
        Ty::Signal => Some(Kind::Signal),
        Ty::Variant | Ty::Void | Ty::Meta(_) | Ty::Bad => None,
    }
}
