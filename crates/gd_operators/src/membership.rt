//! Whether a value is in a container.
ghost use Rattle.std.specs.Prelude.{◌≡◌, map, drop};
ghost use Rattle.gd_model.specs.declared.value.Value.TheVariants as kind;
ghost use Rattle.gd_model.specs.Meant.{datum};
ghost use Rattle.gd_model.specs.Store.{array_at, dict_at};
ghost use Rattle.gd_model.specs.Whole.{AllWhole, Whole};
ghost use Rattle.gd_answers.specs.Answers.{Answers, exact};
ghost use Rattle.value_semantics.specs.Equality.{same};
ghost use Rattle.value_semantics.specs.Operators as spec;

use crate::equality::same;
use gd_answers::refused;
use gd_containers::{Look, ThingFault, TypedArray, array_of, dict_of, key_of};
use gd_model::{RunFault, Value};
use slot_arena::Handle;

/// Whether the value is an element of an array, or a key of a dictionary. `BadKey` where it is no key, `BadOperands`
/// where the other is no container.
pub fn is_inside<K: Look>(v: &Value, container: &Value, look: &K) -> Result<bool, ThingFault>
    requires left { Whole (K.things look.now) (K.names look.now) v.now }
    requires right { Whole (K.things look.now) (K.names look.now) container.now }
    ensures { Answers (spec.is_inside (K.store look.now) (datum v.now) (datum container.now)) result }
{
    match container {
        Value::Array(h) => is_element(v, *h, look),
        Value::Dict(h) => has_key(v, *h, look),
        _ => refused(RunFault::BadOperands),
    }
}

fn is_element<K: Look>(v: &Value, h: Handle, look: &K) -> Result<bool, ThingFault>
    requires left { Whole (K.things look.now) (K.names look.now) v.now }
    requires right { Whole (K.things look.now) (K.names look.now) (kind.Array h) }
    ensures { Answers (spec.is_element (K.store look.now) (datum v.now) (array_at (K.store look.now) h.serial)) result }
{
    Ok(first_place(array_of(look, h), v, 0, look)?.is_some())
}

fn has_key<K: Look>(v: &Value, h: Handle, look: &K) -> Result<bool, ThingFault>
    requires right { Whole (K.things look.now) (K.names look.now) (kind.Dict h) }
    ensures { Answers (spec.has_key (datum v.now) (dict_at (K.store look.now) h.serial)) result }
{
    let key = key_of(v)?;
    Ok(dict_of(look, h).get(&key).is_some())
}

/// The first place from `from` on at which the array has an element that equals the value, the element being the left
/// one of the two. `TooDeepToCompare` where the comparison of an element on the way is.
pub fn first_place<K: Look>(
    array: &TypedArray,
    v: &Value,
    from: u32,
    look: &K,
) -> Result<Option<u32>, ThingFault>
    requires items { AllWhole (K.things look.now) (K.names look.now) array.now.items }
    requires whole { Whole (K.things look.now) (K.names look.now) v.now }
    ensures { result ≡ exact (spec.first_place (λ x. same (K.store look.now) x (datum v.now)) from (drop from (map datum array.now.items))) }
{
    let items = array.items();
    for i in from..array.size() {
        if same(&items[i as usize], v, look)? {
            return Ok(Some(i));
        }
    }
    Ok(None)
}
