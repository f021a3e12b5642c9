//! What an arena of counted things does, however it keeps them.
ghost use Rattle.std.specs.Prelude.{◌≡◌, ℕ, ◌+◌, ◌-◌, ◌^◌, ◌<◌, ◌≤◌, List, [], ◌∷◌, ◌++◌, length, map, OnOk, OnErr, IfOk, Some, IsSome, option_copied};
ghost use Rattle.std.specs.List.Sorted.{IsPermutation, IsNonDecreasingBy};
ghost use Rattle.std.specs.Option.{ForSome, option_copied_mut};
ghost use Rattle.std.specs.Borrow.{Lends, LendsIf, sem};
ghost use Rattle.slot_arena.specs.declared.handle.Handle.{Handle as TheHandle};
ghost use Rattle.slot_arena.specs.Slots.{Entry, handle_of, find_at, value_at, count_at, unheld_at, with_count, written_at, without};

use crate::handle::Handle;
use crate::steps::Steps;
use no_memory::NoMemory;
use std::alloc::Global;
use std::sync::ledger::Ledger;

/// Things with serial numbers, each in a slot beside the number of its holders.
pub trait Slots<T> {
    /// The things that are alive, by rising serial number.
    ghost things: { Self → List (Entry T) };

    /// How many more things go in without memory.
    ghost spare: { Self → ℕ };

    /// The greatest serial number so far, 0 at first.
    ghost last: { Self → ℕ };

    /// The slots once the value that a handle names is another.
    ghost with_value: { Self → TheHandle → T → Self };

    /// No things. It takes no memory.
    fn new(alloc: Global) -> Self
        ensures things { things result ≡ [] }
        ensures last { last result ≡ 0 };

    /// Makes room for `n` more things. After `NoMemory` nothing has changed.
    fn reserve(&mut self, n: u32) -> Result<(), NoMemory>
        ensures room { OnOk result (n ≤ spare self.new) }
        ensures spare { spare self.old ≤ spare self.new }
        ensures refused { OnErr result (spare self.new ≡ spare self.old) }
        ensures things { things self.new ≡ things self.old }
        ensures last { last self.new ≡ last self.old };

    /// Puts a thing in, held once, under a serial number greater than all before. It takes no memory.
    fn insert<L: Ledger>(&mut self, serial: u64, value: T, steps: &mut Steps<L>) -> Handle
        requires spare { 0 < spare self.old }
        requires later { last self.old < serial }
        ensures serial { result.serial ≡ serial }
        ensures things { things self.new ≡ things self.old ++ record { index = result.index; serial = serial; count = 1; value = value } ∷ [] }
        ensures last { last self.new ≡ serial }
        ensures spare { spare self.new + 1 ≡ spare self.old }
        ensures steps { steps.new ≡ steps.old + 1 };

    /// The value that a handle names, if its thing is alive.
    fn get(&self, h: Handle) -> Option<&T>
        ensures { option_copied result ≡ value_at (things self.now) h };

    /// The same value, to write it.
    fn get_mut(&mut self, h: Handle) -> Option<&mut T>
        ensures* writes_back { sem 𝓛 (LendsIf Self.row T.row self.entry result (with_value self.old h) self.old) }
        ensures value { option_copied_mut result ≡ value_at (things self.old) h };

    /// The value of a thing that is alive.
    fn value(&self, h: Handle) -> &T
        requires { IsSome (find_at (things self.now) h) }
        ensures { value_at (things self.now) h ≡ Some result.now };

    /// The same value, to write it.
    fn value_mut(&mut self, h: Handle) -> &mut T
        requires { IsSome (find_at (things self.old) h) }
        ensures* writes_back { sem 𝓛 (Lends Self.row T.row self.entry result (with_value self.old h)) }
        ensures value { value_at (things self.old) h ≡ Some result.now };

    /// How many hold the thing that a handle names, if it is alive.
    fn count(&self, h: Handle) -> Option<u128>
        ensures { result ≡ count_at (things self.now) h };

    /// One more holds a thing that is alive.
    fn keep<L: Ledger>(&mut self, h: Handle, steps: &mut Steps<L>)
        requires below { ForSome (count_at (things self.old) h) (λ n. n < 2 ^ 127) }
        requires alive { IsSome (find_at (things self.old) h) }
        ensures things { things self.new ≡ with_count (λ n. n + 1) (things self.old) h }
        ensures spare { spare self.new ≡ spare self.old }
        ensures last { last self.new ≡ last self.old }
        ensures steps { steps.new ≡ steps.old + 1 };

    /// One less holds a thing that is alive. Answers how many are left; the thing stays, also with none.
    fn drop_one<L: Ledger>(&mut self, h: Handle, steps: &mut Steps<L>) -> u128
        requires held { ForSome (count_at (things self.old) h) (λ n. 0 < n) }
        requires alive { IsSome (find_at (things self.old) h) }
        ensures left { count_at (things self.old) h ≡ Some (result + 1) }
        ensures things { things self.new ≡ with_count (λ n. n - 1) (things self.old) h }
        ensures spare { spare self.new ≡ spare self.old }
        ensures last { last self.new ≡ last self.old }
        ensures steps { steps.new ≡ steps.old + 1 };

    /// Takes a thing out that nothing holds. `None` where the handle names none that is alive, or where it is held.
    fn take<L: Ledger>(&mut self, h: Handle, steps: &mut Steps<L>) -> Option<T>
        ensures taken { result ≡ unheld_at (things self.old) h }
        ensures things { things self.new ≡ without (things self.old) h }
        ensures spare { spare self.old ≤ spare self.new }
        ensures last { last self.new ≡ last self.old }
        ensures steps { steps.new ≡ steps.old + 1 };

    /// How many things are alive.
    fn len(&self) -> usize
        ensures { result ≡ length (things self.now) };

    /// The handles of the things that are alive, by rising serial number.
    fn entries(&self, alloc: Global) -> Result<Vec<Handle>, NoMemory>
        ensures all { IfOk result (λ v. IsPermutation (map handle_of (things self.now)) v.items) }
        ensures rising { IfOk result (λ v. IsNonDecreasingBy (λ h. h.serial) v.items) };

    /// A write changes that value alone.
    ghost written: { (s : Self) (h : TheHandle) (value : T) → things (with_value s h value) ≡ written_at (things s) h value };

    ghost spare_stays: { (s : Self) (h : TheHandle) (value : T) → spare (with_value s h value) ≡ spare s };

    ghost last_stays: { (s : Self) (h : TheHandle) (value : T) → last (with_value s h value) ≡ last s };
}
