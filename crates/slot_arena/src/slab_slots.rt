//! Counted slots over a slab.
ghost use Rattle.std.specs.Prelude.{◌≡◌, ◌↔◌, IsTrue, ◌+◌, ◌<◌, ◌≤◌, List, [], Some, IsSome, IfOk, map, option_copied, refl};
ghost use Rattle.std.specs.Option.{ForSome};
ghost use Rattle.std.specs.Borrow.{Lends, sem};
ghost use Rattle.std.specs.List.Sorted.{IsPermutation, IsNonDecreasingBy};
ghost use Rattle.slot_arena.specs.Slots.{Entry, handle_of, find_at};
ghost use Rattle.slot_arena.specs.SlabSlots.{things_from};

use crate::handle::Handle;
use crate::slots::Slots;
use crate::steps::Steps;
use no_memory::NoMemory;
use slab::Slab;
use std::alloc::Global;
use std::marker::Model;
use std::sync::ledger::Ledger;

/// A thing in its slot.
#[derive(Drop)]
struct Slot<T> {
    serial: u64,
    count: u128,
    value: T,
}

/// Counted slots over a slab, which gives each thing its index.
#[derive(Drop)]
pub struct SlabSlots<T> {
    slots: Slab<Slot<T>>,
    /// The greatest serial number so far.
    last: u64,
    /// How many more things go in without memory.
    spare: u64,
}

impl<T> Model for SlabSlots<T> {
    ghost use Rattle.slot_arena.specs.Slots.{Arena, arena_code};

    ghost Value = { Arena T };

    ghost coded = { arena_code T.code };

    ghost use Rattle.slot_arena.specs.SlabSlots.{by_serial, things_from, IsSound};

    ghost view = { λ s. record {
      things = by_serial (things_from 0 s.slots.slots);
      spare = s.spare;
      last = s.last;
    } };

    ghost invariant = { λ s. IsSound s.slots s.last s.spare };
}

impl<T> SlabSlots<T> {
    ghost use Rattle.slot_arena.specs.Slots.{value_at};
    ghost use Rattle.slot_arena.specs.SlabLends.{lends_value};

    // Whether the handle names a thing that is alive.
    fn is_alive(&self, h: Handle) -> bool
        ensures { IsTrue result ↔ IsSome (find_at self.now.things h) }
    {
        match self.slots.get(h.index) {
            Some(slot) => slot.serial == h.serial,
            None => false,
        }
    }

    // The value of a thing that is alive, to write it.
    fn lent(&mut self, h: Handle) -> &mut T
        requires { IsSome (find_at self.old.things h) }
        ensures* writes_back { sem 𝓛 (lends_value T.row self.entry h result) }
        ensures value { value_at self.old.things h ≡ Some result.now }
    {
        let slot = &mut self.slots[h.index];
        &mut slot.value
    }
}

impl<T> Slots<T> for SlabSlots<T> {
    ghost use Rattle.slot_arena.specs.Slots.{written_at};

    ghost things = { λ a. a.things };

    ghost spare = { λ a. a.spare };

    ghost last = { λ a. a.last };

    ghost with_value = { λ a h value. record a { things = written_at a.things h value } };

    fn new(alloc: Global) -> SlabSlots<T> {
        SlabSlots {
            slots: Slab::new(alloc),
            last: 0,
            spare: 0,
        }
    }

    fn reserve(&mut self, n: u32) -> Result<(), NoMemory> {
        self.slots.reserve(n as usize)?;
        self.spare = self.spare.max(n as u64);
        Ok(())
    }

    fn insert<L: Ledger>(&mut self, serial: u64, value: T, steps: &mut Steps<L>) -> Handle {
        steps.tick();
        self.spare -= 1;
        self.last = serial;
        let index = self.slots.insert_reserved(Slot {
            serial,
            count: 1,
            value,
        });
        Handle { index, serial }
    }

    fn get(&self, h: Handle) -> Option<&T> {
        match self.slots.get(h.index) {
            Some(slot) if slot.serial == h.serial => Some(&slot.value),
            _ => None,
        }
    }

    fn get_mut(&mut self, h: Handle) -> Option<&mut T> {
        if self.is_alive(h) {
            Some(self.lent(h))
        } else {
            None
        }
    }

    fn value(&self, h: Handle) -> &T {
        &self.slots[h.index].value
    }

    fn value_mut(&mut self, h: Handle) -> &mut T {
        self.lent(h)
    }

    fn count(&self, h: Handle) -> Option<u128> {
        match self.slots.get(h.index) {
            Some(slot) if slot.serial == h.serial => Some(slot.count),
            _ => None,
        }
    }

    fn keep<L: Ledger>(&mut self, h: Handle, steps: &mut Steps<L>) {
        steps.tick();
        let slot = &mut self.slots[h.index];
        slot.count += 1;
    }

    fn drop_one<L: Ledger>(&mut self, h: Handle, steps: &mut Steps<L>) -> u128 {
        steps.tick();
        let slot = &mut self.slots[h.index];
        slot.count -= 1;
        slot.count
    }

    fn take<L: Ledger>(&mut self, h: Handle, steps: &mut Steps<L>) -> Option<T> {
        steps.tick();
        match self.slots.get(h.index) {
            Some(slot) if slot.serial == h.serial && slot.count == 0 => {
                let Slot {
                    serial: _,
                    count: _,
                    value,
                } = self.slots.remove(h.index);
                Some(value)
            }
            _ => None,
        }
    }

    fn len(&self) -> usize {
        self.slots.len()
    }

    fn entries(&self, alloc: Global) -> Result<Vec<Handle>, NoMemory> {
        let mut handles = handles_of(alloc, &self.slots)?;
        sort_by_serial(&mut handles);
        Ok(handles)
    }

    ghost written = { λ s h value. refl };

    ghost spare_stays = { λ s h value. refl };

    ghost last_stays = { λ s h value. refl };
}

// The handles of the things in these slots, by rising index.
fn handles_of<T>(alloc: Global, slots: &Slab<Slot<T>>) -> Result<Vec<Handle>, NoMemory>
    ensures { IfOk result (λ v. v.items ≡ map handle_of (things_from 0 slots.now.slots)) }
{
    let mut handles = Vec::new(alloc);
    for (index, slot) in slots.iter() {
        handles.push(Handle {
            index,
            serial: slot.serial,
        })?;
    }
    Ok(handles)
}

// Sorts handles by rising serial number.
fn sort_by_serial(handles: &mut Vec<Handle>)
    ensures all { IsPermutation handles.old.items handles.new.items }
    ensures rising { IsNonDecreasingBy (λ h. h.serial) handles.new.items }
{
    handles.sort_unstable_by_key(|h| h.serial);
}
