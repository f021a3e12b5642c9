//! New things.
ghost use Rattle.std.specs.Prelude.{◌≡◌, ◌<◌, length, None, OnOk, OnErr};
ghost use Rattle.std.specs.List.{All};
ghost use Rattle.gd_holding.specs.Handles.{value_handle};
ghost use Rattle.gd_containers.specs.Answers.{RefusedBy};
ghost use Rattle.rooted_heap.specs.Rooted.{contents};
ghost use Rattle.rooted_heap.specs.Making.{kind_in, value_named, IsNamed, limit_fault, PushesThing};

use crate::RootedHeap;
use crate::uncounted::make;
use counted_heap::Thing;
use gd_containers::ThingFault;
use gd_model::Value;
use slot_arena::Handle;

/// What a thing is.
#[derive(Clone, Copy)]
pub(crate) enum ThingKind {
    Object,
    Array,
    Dict,
}

pub(crate) fn kind_of(thing: &Thing) -> ThingKind
    ensures { result ≡ kind_in thing.now }
{
    match thing {
        Thing::Object(_, _) => ThingKind::Object,
        Thing::Array(_) => ThingKind::Array,
        Thing::Dict(_) => ThingKind::Dict,
    }
}

/// The value that names a thing of this kind.
pub(crate) fn value_of(kind: ThingKind, h: Handle) -> Value
    ensures { result ≡ value_named kind h }
{
    match kind {
        ThingKind::Object => Value::Object(h),
        ThingKind::Array => Value::Array(h),
        ThingKind::Dict => Value::Dict(h),
    }
}

impl RootedHeap {
    /// Makes a thing whose values name no things, and pushes its value. `TooManyThings` exactly where there are, or were
    /// made, as many as there may be; there is no other run fault. After a refusal nothing has changed.
    pub fn push_thing(&mut self, thing: Thing) -> Result<(), ThingFault>
        requires free { All (λ x. value_handle x ≡ None) (contents thing) }
        requires named { IsNamed self.old.names thing }
        requires room { length self.old.values < self.old.slots }
        ensures faults { RefusedBy (limit_fault self.old) result }
        ensures ok { OnOk result (PushesThing self.old thing self.new) }
        ensures err { OnErr result (self.new ≡ self.old) }
    {
        let kind = kind_of(&thing);
        self.heap.rising_law();
        let h = make(&mut self.heap, thing)?;
        self.heap.rising_law();
        self.slots[self.top] = value_of(kind, h);
        self.top += 1;
        Ok(())
    }
}
