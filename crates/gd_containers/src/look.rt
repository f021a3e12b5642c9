//! Where values that are handles lead.
ghost use Rattle.std.specs.Prelude.{◌≡◌, List, ℕ, Option, Some};
ghost use Rattle.std.specs.Option.{option_copied};
ghost use Rattle.slot_arena.specs.declared.handle.Handle.{Handle as TheHandle};
ghost use Rattle.gd_model.specs.Meant.{thing_of};
ghost use Rattle.gd_model.specs.Store.{Names, Store};
ghost use Rattle.gd_model.specs.View.{ThingView, array_in, dict_in, class_in};

use crate::{OrderedDict, TypedArray};
use gd_syntax::Text;
use slot_arena::Handle;

/// The things that handles name, and the names of classes.
///
/// `things` is the thing behind a handle that is alive, `store` the things by their serial numbers as the language means
/// them, and `names` the name of a class by its number. What is behind a handle is the thing with its serial number.
pub trait Look {
    ghost things: { Self → TheHandle → Option ThingView };

    ghost store: { Self → Store };

    ghost names: { Self → Names };

    ghost by_serial: { (s : Self) (h : TheHandle) (thing : ThingView) → things s h ≡ Some thing → store s h.serial ≡ Some (thing_of thing) };

    /// The array behind the handle, where one is alive there.
    fn array(&self, h: Handle) -> Option<&TypedArray>
        ensures { option_copied result ≡ array_in (things self.now h) };

    /// The dictionary behind the handle, where one is alive there.
    fn dict(&self, h: Handle) -> Option<&OrderedDict>
        ensures { option_copied result ≡ dict_in (things self.now h) };

    /// The class of the object behind the handle, where one is alive there.
    fn class_of(&self, h: Handle) -> Option<u32>
        ensures { result ≡ class_in (things self.now h) };

    /// The name of the class with this number.
    fn class_name(&self, class: u32) -> Option<&Text>
        ensures { option_copied result ≡ names self.now class };
}
