//! The handle that a value or a key holds.
ghost use Rattle.std.specs.Prelude.{◌≡◌};
ghost use Rattle.gd_holding.specs.Handles.{value_handle, key_handle};

use gd_model::{Key, Value};
use slot_arena::Handle;

/// The handle of the thing that a value holds: of an object, an array or a dictionary. Callables and signals hold nothing.
pub fn handle_in(value: &Value) -> Option<Handle>
    ensures { result ≡ value_handle value.now }
{
    match value {
        Value::Object(h) | Value::Array(h) | Value::Dict(h) => Some(*h),
        Value::Nil
        | Value::Bool(_)
        | Value::Int(_)
        | Value::Str(_)
        | Value::Callable(_)
        | Value::Signal(_) => None,
    }
}

/// The handle of the object that a key holds.
pub fn handle_in_key(key: &Key) -> Option<Handle>
    ensures { result ≡ key_handle key.now }
{
    match key {
        Key::Object(h) => Some(*h),
        Key::Nil | Key::Bool(_) | Key::Int(_) | Key::Str(_) => None,
    }
}
