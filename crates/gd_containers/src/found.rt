//! The things that are known to be there, since a value that is whole leads to them.
ghost use Rattle.std.specs.Prelude.{◌≡◌, Some};
ghost use Rattle.gd_model.specs.declared.value.Value.TheVariants as v;
ghost use Rattle.gd_model.specs.Meant.{array_thing, dict_thing};
ghost use Rattle.gd_model.specs.Store.{array_behind, dict_behind, class_behind, array_at, dict_at, class_name_at};
ghost use Rattle.gd_model.specs.Whole.{Whole, AllWhole, pair_values};

use crate::{Look, OrderedDict, TypedArray};
use gd_syntax::Text;
use slot_arena::Handle;

/// The array that a whole value names. Its elements are whole.
pub fn array_of<K: Look>(look: &K, h: Handle) -> &TypedArray
    requires whole { Whole (K.things look.now) (K.names look.now) (v.Array h) }
    ensures there { array_behind (K.store look.now h.serial) ≡ Some (array_thing result.now) }
    ensures value { array_at (K.store look.now) h.serial ≡ array_thing result.now }
    ensures inside { AllWhole (K.things look.now) (K.names look.now) result.now.items }
{
    match look.array(h) {
        Some(array) => array,
        None => unreachable!(),
    }
}

/// The dictionary that a whole value names. Its keys and values are whole.
pub fn dict_of<K: Look>(look: &K, h: Handle) -> &OrderedDict
    requires whole { Whole (K.things look.now) (K.names look.now) (v.Dict h) }
    ensures there { dict_behind (K.store look.now h.serial) ≡ Some (dict_thing result.now) }
    ensures value { dict_at (K.store look.now) h.serial ≡ dict_thing result.now }
    ensures inside { AllWhole (K.things look.now) (K.names look.now) (pair_values result.now.pairs) }
{
    match look.dict(h) {
        Some(dict) => dict,
        None => unreachable!(),
    }
}

/// The name of the class of the object that a whole value names.
pub fn class_name_of<K: Look>(look: &K, h: Handle) -> &Text
    requires whole { Whole (K.things look.now) (K.names look.now) (v.Object h) }
    ensures { class_name_at (K.store look.now) (K.names look.now) h.serial ≡ result.now }
{
    let Some(class) = look.class_of(h) else {
        unreachable!();
    };
    match look.class_name(class) {
        Some(name) => name,
        None => unreachable!(),
    }
}

/// The class of the object that a whole value names.
pub fn class_of<K: Look>(look: &K, h: Handle) -> u32
    requires whole { Whole (K.things look.now) (K.names look.now) (v.Object h) }
    ensures { class_behind (K.store look.now h.serial) ≡ Some result }
{
    match look.class_of(h) {
        Some(class) => class,
        None => unreachable!(),
    }
}
