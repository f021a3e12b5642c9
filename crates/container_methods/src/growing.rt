ghost use Rattle.std.specs.Prelude.{◌≡◌, ◌++◌, ◌∷◌, [], OnOk};

use no_memory::NoMemory;

/// Puts the item at the end of the list.
pub fn push<T: Drop>(all: &mut Vec<T>, item: T) -> Result<(), NoMemory>
    ensures { OnOk result (all.new.items ≡ all.old.items ++ item ∷ []) }
{
    all.push(item)?;
    Ok(())
}
