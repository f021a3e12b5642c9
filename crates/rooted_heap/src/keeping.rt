//! Values that a thing is to hold are counted one after another, and those that left it are given up.
ghost use Rattle.std.specs.Prelude.{◌≡◌};
ghost use Rattle.gd_model.specs.Whole.{key_value, pair_values};
ghost use Rattle.gd_holding.specs.Handles.{value_handle};
ghost use Rattle.rooted_heap.specs.Rooted.{contents};
ghost use Rattle.rooted_heap.specs.Keeping.{named_key, kept_all, CanKeep, given_all, CanGive};

use crate::uncounted::{Heaped, give_up, keep};
use counted_heap::Thing;
use gd_containers::OrderedDict;
use gd_model::{Key, Value};

/// The value that names the thing which a key names; null for a key that names none.
pub(crate) fn named_by(key: &Key) -> Value
    ensures named { result ≡ named_key key.now }
    ensures handle { value_handle result ≡ value_handle (key_value key.now) }
{
    match key {
        Key::Object(h) => Value::Object(*h),
        Key::Nil | Key::Bool(_) | Key::Int(_) | Key::Str(_) => Value::Nil,
    }
}

/// Counts each of these values once more.
pub(crate) fn keep_values(heap: &mut Heaped, values: &[Value])
    requires { CanKeep heap.old.things values.now }
    ensures { heap.new ≡ record heap.old { things = kept_all heap.old.things values.now } }
{
    for value in values {
        keep(heap, value);
    }
}

/// Gives up each of these values.
pub(crate) fn give_up_values(heap: &mut Heaped, values: &[Value])
    requires { CanGive heap.old.things values.now }
    ensures { heap.new ≡ record heap.old { things = given_all heap.old.things values.now } }
{
    for value in values {
        give_up(heap, value);
    }
}

/// Counts each key and value of a dictionary once more.
pub(crate) fn keep_pairs(heap: &mut Heaped, dict: &OrderedDict)
    requires { CanKeep heap.old.things (pair_values dict.now.pairs) }
    ensures { heap.new ≡ record heap.old { things = kept_all heap.old.things (pair_values dict.now.pairs) } }
{
    for (key, value) in dict.iter() {
        let named = named_by(key);
        keep(heap, &named);
        keep(heap, value);
    }
}

/// Counts once more what a thing holds.
pub(crate) fn keep_contents(heap: &mut Heaped, thing: &Thing)
    requires { CanKeep heap.old.things (contents thing.now) }
    ensures { heap.new ≡ record heap.old { things = kept_all heap.old.things (contents thing.now) } }
{
    match thing {
        Thing::Object(_, values) => keep_values(heap, values.items()),
        Thing::Array(array) => keep_values(heap, array.items()),
        Thing::Dict(dict) => keep_pairs(heap, dict.get()),
    }
}

/// Gives up each key and value of these pairs.
pub(crate) fn give_up_pairs(heap: &mut Heaped, pairs: &[(Key, Value)])
    requires { CanGive heap.old.things (pair_values pairs.now) }
    ensures { heap.new ≡ record heap.old { things = given_all heap.old.things (pair_values pairs.now) } }
{
    for (key, value) in pairs {
        let named = named_by(key);
        give_up(heap, &named);
        give_up(heap, value);
    }
}
