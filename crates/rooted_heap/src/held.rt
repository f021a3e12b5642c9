//! Values from elsewhere come to be held: what operators and builtins gave, and what was read from things.
ghost use Rattle.std.specs.Prelude.{◌≡◌, ◌<◌, [], ◌∷◌, ◌++◌, length, IsTrue};
ghost use Rattle.gd_model.specs.Whole.{answered};
ghost use Rattle.rooted_heap.specs.Rooted.{CanHold, seen, names_of};

use crate::RootedHeap;
use crate::uncounted::keep;
use gd_containers::Look;
use gd_model::Value;

impl RootedHeap {
    /// Whether a value names no thing, or one that is there and of its kind.
    pub fn is_there(&self, value: &Value) -> bool
        ensures { result ≡ answered (seen self.now.things) (names_of self.now.names) value.now }
    {
        let things = self.things();
        match value {
            Value::Array(h) => things.array(*h).is_some(),
            Value::Dict(h) => things.dict(*h).is_some(),
            Value::Object(h) => match things.class_of(*h) {
                Some(class) => things.class_name(class).is_some(),
                None => false,
            },
            Value::Nil
            | Value::Bool(_)
            | Value::Int(_)
            | Value::Str(_)
            | Value::Callable(_)
            | Value::Signal(_) => true,
        }
    }

    /// Whether a value may be held once more. While the heap is settled that is so exactly where it is there.
    pub fn can_hold(&self, value: &Value) -> bool
        ensures { IsTrue result → CanHold self.now value.now }
    {
        self.heap.is_settled() && self.is_there(value)
    }

    /// Pushes a value from elsewhere, which may be held once more.
    #[inline(always)]
    pub fn push_held(&mut self, value: Value)
        requires held { CanHold self.old value }
        requires room { length self.old.values < self.old.slots }
        ensures { self.new ≡ record self.old { values = self.old.values ++ value ∷ [] } }
    {
        keep(&mut self.heap, &value);
        self.slots[self.top] = value;
        self.top += 1;
    }
}
