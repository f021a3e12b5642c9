//! Handles in falling order, so that the least is last.
ghost use Rattle.std.specs.Prelude.{◌≡◌, reverse, vec_capacity};
ghost use Rattle.std.specs.List.Sorted.{IsPermutation, IsNonDecreasingBy};

use slot_arena::Handle;

/// Sorts handles by falling serial number.
pub fn sort_falling(handles: &mut Vec<Handle>)
    ensures all { IsPermutation handles.old.items handles.new.items }
    ensures falling { IsNonDecreasingBy (λ h. h.serial) (reverse handles.new.items) }
    ensures capacity { vec_capacity handles.new ≡ vec_capacity handles.old }
{
    if handles.len() > 1 {
        handles.sort_unstable_by_key(|h| h.serial);
        handles.reverse();
    }
}
