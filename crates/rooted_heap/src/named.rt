//! The handle in a value, by the kind of the thing.
ghost use Rattle.std.specs.Prelude.{◌≡◌};
ghost use Rattle.rooted_heap.specs.Reading.{object_handle, array_handle, dict_handle};

use gd_model::Value;
use slot_arena::Handle;

/// The handle of an object.
#[inline(always)]
pub(crate) fn named_object(value: &Value) -> Option<Handle>
    ensures { result ≡ object_handle value.now }
{
    match value {
        Value::Object(h) => Some(*h),
        _ => None,
    }
}

/// The handle of an array.
#[inline(always)]
pub(crate) fn named_array(value: &Value) -> Option<Handle>
    ensures { result ≡ array_handle value.now }
{
    match value {
        Value::Array(h) => Some(*h),
        _ => None,
    }
}

/// The handle of a dictionary.
#[inline(always)]
pub(crate) fn named_dict(value: &Value) -> Option<Handle>
    ensures { result ≡ dict_handle value.now }
{
    match value {
        Value::Dict(h) => Some(*h),
        _ => None,
    }
}
