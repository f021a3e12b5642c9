//! What the analysis of an accepted project has.
ghost use Rattle.std.specs.Prelude.{◌≡◌, IfOk, Some};

use gd_model::impossible;
use no_memory::NoMemory;

/// What is known to be there: a type of a place, a declaration of a member, the number of a function or a slot.
pub fn known<T: Drop>(found: Option<T>) -> Result<T, NoMemory>
    ensures { IfOk result (λ x. found ≡ Some x) }
{
    match found {
        Some(found) => Ok(found),
        None => Err(impossible().into()),
    }
}
