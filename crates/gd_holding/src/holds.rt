//! What holds things by handles.
ghost use Rattle.std.specs.Prelude.{◌≡◌, ◌++◌, [], ℕ, List, Option, map};
ghost use Rattle.std.specs.Option.{option_copied, option_map_or};
ghost use Rattle.slot_arena.specs.declared.handle.Handle.{Handle as TheHandle};
ghost use Rattle.gd_model.specs.declared.key.Key.{Key as TheKey};
ghost use Rattle.gd_model.specs.declared.value.Value.{Value as TheValue};
ghost use Rattle.gd_holding.specs.Handles.{value_handle, pair_places};

use gd_containers::OrderedDict;
use gd_model::Value;

/// A thing with places, each of which may hold one thing by its handle: a place for each of its values, and for each of
/// its pairs one for the key and one for the value.
pub trait Holds: Drop {
    /// What each place holds, in order.
    ghost places: { Self → List (Option TheHandle) };

    /// The variables of an object, or the elements of an array.
    ghost values: { Self → List TheValue };

    /// The pairs of a dictionary.
    ghost pairs: { Self → List (TheKey × TheValue) };

    /// The class, of an object.
    ghost class: { Self → Option ℕ };

    /// The variables of an object, or the elements of an array; none of a dictionary.
    fn items(&self) -> &[Value]
        ensures { result.now ≡ values self.now };

    /// The dictionary, where it is one.
    fn dict(&self) -> Option<&OrderedDict>
        ensures { option_map_or (λ d. d.pairs) (option_copied result) [] ≡ pairs self.now };

    /// The class, of an object.
    fn class_of(&self) -> Option<u32>
        ensures { result ≡ class self.now };

    /// The places are those of the values and of the pairs.
    ghost placed: { (t : Self) → places t ≡ map value_handle (values t) ++ pair_places (pairs t) };
}
