//! Arrays that are put together.
ghost use Rattle.std.specs.Prelude.{◌≡◌, ◌≤◌, ◌<◌, ◌+◌, ◌++◌, ◌∷◌, [], length, false, IfOk, OnOk, IfErr};
ghost use Rattle.gd_model.specs.declared.value.Value.TheVariants as v;
ghost use Rattle.gd_model.specs.Store.{array_at};
ghost use Rattle.gd_model.specs.Whole.{Whole};
ghost use Rattle.gd_answers.specs.Answers.{Gives};
ghost use Rattle.value_semantics.specs.Made.{array_made};
ghost use Rattle.value_semantics.specs.Operators as spec;

use gd_answers::{Fresh, refused};
use gd_containers::{Look, MAX_ITEMS, ThingFault, TypedArray, array_of};
use gd_model::{RunFault, Ty, Value};
use no_memory::NoMemory;
use slot_arena::Handle;
use std::alloc::Global;

/// A new array of the elements of the one and then of the other, with their element type where they have one.
/// `TooLong` exactly where they are too many.
pub fn joined<K: Look>(alloc: Global, h: Handle, i: Handle, look: &K) -> Result<Fresh, ThingFault>
    requires left { Whole (K.things look.now) (K.names look.now) (v.Array h) }
    requires right { Whole (K.things look.now) (K.names look.now) (v.Array i) }
    ensures { Gives (array_made (spec.joined (array_at (K.store look.now) h.serial) (array_at (K.store look.now) i.serial))) result }
{
    let x = array_of(look, h);
    let y = array_of(look, i);
    if x.items().len() + y.items().len() > MAX_ITEMS {
        return refused(RunFault::TooLong);
    }
    let element = joined_type(alloc, x.element(), y.element())?;
    let mut all = TypedArray::new(alloc, element, false);
    push_all(&mut all, x.items())?;
    push_all(&mut all, y.items())?;
    Ok(Fresh::Array(all))
}

/// The type of both where it is one, else Variant.
fn joined_type(alloc: Global, t: &Ty, u: &Ty) -> Result<Ty, NoMemory>
    ensures { IfOk result (λ element. element ≡ spec.joined_type t.now u.now) }
{
    if t.same(u) {
        t.copy(alloc)
    } else {
        Ok(Ty::Variant)
    }
}

/// Puts the values at the end of an array that has room for them and is not read-only; only memory may lack.
fn push_all(array: &mut TypedArray, items: &[Value]) -> Result<(), ThingFault>
    requires open { array.old.fixed ≡ false }
    requires room { length array.old.items + length items.now ≤ MAX_ITEMS }
    ensures ok { OnOk result (array.new ≡ record array.old { items = array.old.items ++ items.now }) }
    ensures err { IfErr result (λ fault. fault ≡ ThingFault.NoMemory) }
{
    for item in items {
        push(array, item.share()?)?;
    }
    Ok(())
}

/// Puts a value at the end of an array that has room for it and is not read-only; only memory may lack.
pub fn push(array: &mut TypedArray, v: Value) -> Result<(), ThingFault>
    requires open { array.old.fixed ≡ false }
    requires room { length array.old.items < MAX_ITEMS }
    ensures ok { OnOk result (array.new ≡ record array.old { items = array.old.items ++ v ∷ [] }) }
    ensures err { IfErr result (λ fault. fault ≡ ThingFault.NoMemory) }
{
    array.push(v, true)
}
