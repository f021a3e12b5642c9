//! Which values count as true.
ghost use Rattle.std.specs.Prelude.{◌≡◌};
ghost use Rattle.gd_model.specs.Meant.{datum};
ghost use Rattle.gd_model.specs.Whole.{Whole};
ghost use Rattle.value_semantics.specs.Operators as spec;

use gd_containers::{Look, array_of, dict_of};
use gd_model::Value;

/// Whether the value counts as true: all do but null, `false`, 0, `""` and what has no elements.
pub fn truth<K: Look>(v: &Value, look: &K) -> bool
    requires whole { Whole (K.things look.now) (K.names look.now) v.now }
    ensures { result ≡ spec.truth (K.store look.now) (datum v.now) }
{
    match v {
        Value::Nil => false,
        Value::Bool(b) => *b,
        Value::Int(n) => *n != 0,
        Value::Str(text) => text.length() != 0,
        Value::Array(h) => array_of(look, *h).size() != 0,
        Value::Dict(h) => dict_of(look, *h).size() != 0,
        Value::Object(_) | Value::Callable(_) | Value::Signal(_) => true,
    }
}
