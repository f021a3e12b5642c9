//! The heap and the stack of values that hold its things.
ghost use Rattle.std.specs.Prelude.{◌≡◌, ◌+◌, ◌≤◌, [], length, take, vec_len, OnOk};
ghost use Rattle.rooted_heap.specs.Rooted.{RootedView};

use crate::uncounted::Heaped;
use counted_heap::Heap;
use gd_model::Value;
use gd_syntax::{Seq, Text};
use no_memory::NoMemory;
use slot_arena::{SlabSlots, Slots};
use std::alloc::Global;
use std::marker::Model;

/// Things that count their holders, and the values that hold them from outside.
#[derive(Drop)]
pub struct RootedHeap {
    pub(crate) heap: Heaped,
    /// The name of each class by its number.
    pub(crate) names: Seq<Text>,
    /// The values, and behind them slots whose values hold nothing any more.
    pub(crate) slots: Vec<Value>,
    /// How many of the slots are values.
    pub(crate) top: usize,
}

impl Model for RootedHeap {
    ghost use Rattle.std.specs.Prelude.{length, map, take};
    ghost use Rattle.rooted_heap.specs.Rooted.{RootedView, bare, IsSound};

    ghost Value = { RootedView };

    ghost use Rattle.gd_model.specs.contracts.value.Value as value;
    ghost use Rattle.counted_heap.specs.contracts.thing.Thing as thing;
    ghost use Rattle.std.specs.Coded.{codes};

    ghost coded = { Prim.hlevel (codes, value.the_row.coded, thing.the_row.coded) };

    ghost view = { λ s. record {
      things = map bare s.heap.things;
      round = s.heap.round;
      made = s.heap.made;
      names = s.names;
      slots = length s.slots.items;
      values = take s.top s.slots.items;
    } };

    ghost invariant = { λ s. IsSound s.heap.things s.names s.slots.items s.top };
}

impl RootedHeap {
    /// An empty heap without values, over the names of the classes by number. It takes no memory.
    pub fn new(alloc: Global, names: Seq<Text>) -> RootedHeap
        ensures { result ≡ record { things = []; round = []; made = 0; names = names; slots = 0; values = [] } }
    {
        RootedHeap {
            heap: Heap::new(alloc, SlabSlots::new(alloc)),
            names,
            slots: Vec::new(alloc),
            top: 0,
        }
    }

    /// How many values there are.
    pub fn len(&self) -> usize
        ensures { result ≡ length self.now.values }
    {
        self.top
    }

    /// How many values there is room for.
    pub fn capacity(&self) -> usize
        ensures { result ≡ self.now.slots }
    {
        self.slots.len()
    }

    /// Makes room for so many values more. After `NoMemory` nothing has changed.
    pub fn reserve(&mut self, more: usize) -> Result<(), NoMemory>
        ensures room { OnOk result (length self.old.values + more ≤ self.new.slots) }
        ensures more { self.old.slots ≤ self.new.slots }
        ensures same { self.new ≡ record self.old { slots = self.new.slots } }
    {
        grow(&mut self.slots, self.top, more)
    }
}

/// Makes room for so many values behind the first `top`.
fn grow(slots: &mut Vec<Value>, top: usize, more: usize) -> Result<(), NoMemory>
    requires { top ≤ vec_len slots.old }
    ensures room { OnOk result (top + more ≤ vec_len slots.new) }
    ensures longer { vec_len slots.old ≤ vec_len slots.new }
    ensures same { take top slots.new.items ≡ take top slots.old.items }
{
    'room: while slots.len() - top < more {
        slots.push(Value::Nil)?;
    }
    Ok(())
}
