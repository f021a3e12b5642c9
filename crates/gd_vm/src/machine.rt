//! The state of a run that changes with each instruction.
ghost use Rattle.std.specs.Prelude.{◌≡◌, ◌+◌, ◌<◌, None, length, IfOk, OnOk};
ghost use Rattle.gd_holding.specs.Handles.{value_handle};

use crate::iteration::Iteration;
use crate::stop::{Done, Stop, broken};
use gd_model::Value;
use gd_syntax::Pos;
use rooted_heap::RootedHeap;

/// The things of a run, and all values that the machine holds: constants, static variables, the main instance, and then
/// of each activity its values.
pub type Held = RootedHeap;

/// The place of no value.
pub const NOWHERE: usize = 18_446_744_073_709_551_615;

/// A function that runs. Its values go from `floor`: perhaps what it was called through, then from `base` on its locals
/// and their marks, and then its stack.
#[derive(Clone, Copy, Debug, PartialEq, Eq)]
pub struct Frame {
    pub function: usize,
    /// The next instruction, among those of all functions.
    pub pc: usize,
    pub floor: usize,
    pub base: usize,
    /// The place of the receiver, which may be that of the caller; `NOWHERE` without one.
    pub me: usize,
    /// How many iterations stand below its own.
    pub iterations: usize,
    /// Whether whoever called it takes its result.
    pub is_taken: bool,
    /// Whether it counts as a call.
    pub is_call: bool,
}

/// The rest of a `new`: the object stands below the arguments.
#[derive(Clone, Copy, Debug, PartialEq, Eq)]
pub struct Making {
    pub object: usize,
    pub class: u32,
    /// How many functions for initial values were called.
    pub called: usize,
    /// The `_init` that is still to be called, if there is one.
    pub init: Option<usize>,
    /// How many arguments it gets.
    pub given: usize,
    pub pos: Pos,
}

/// The rest of an emission: the signal stands below the arguments. Its targets are the last of all emissions.
#[derive(Clone, Copy, Debug, PartialEq, Eq)]
pub struct Emitting {
    pub signal: usize,
    pub given: usize,
    pub pos: Pos,
}

/// What goes on around what runs.
#[derive(Clone, Copy, Debug, PartialEq, Eq)]
pub enum Activity {
    Running(Frame),
    Making(Making),
    Emitting(Emitting),
}

/// The state of a run that changes with each instruction.
#[derive(Drop)]
pub struct Machine {
    pub heap: Held,
    /// The function that runs, where one does.
    pub frame: Frame,
    pub is_running: bool,
    /// What goes on around it, the innermost last.
    pub around: Vec<Activity>,
    pub iterations: Vec<Iteration>,
    pub turns: u32,
    /// How many calls stand.
    pub calls: u32,
    /// Whether the last value is a result that nobody takes.
    pub is_owed: bool,
}

/// The most calls that stand.
pub const MAX_CALLS: u32 = 1024;

impl Machine {
    /// Whether the next step is an instruction.
    #[inline(always)]
    pub fn is_calm(&self) -> bool {
        self.is_running && !self.is_owed && self.heap.is_settled()
    }

    /// Makes room for one value more.
    #[inline(always)]
    pub fn make_room(&mut self) -> Done
        ensures room { OnOk result (length self.new.heap.values < self.new.heap.slots) }
        ensures same { self.new.heap ≡ record self.old.heap { slots = self.new.heap.slots } }
    {
        if self.heap.len() < self.heap.capacity() {
            return Ok(());
        }
        self.grow()
    }

    // Makes room for as many values as there are.
    #[cold]
    #[inline(never)]
    fn grow(&mut self) -> Done
        ensures room { OnOk result (length self.new.heap.values < self.new.heap.slots) }
        ensures same { self.new.heap ≡ record self.old.heap { slots = self.new.heap.slots } }
    {
        let more = self.heap.len().max(256);
        self.heap.reserve(more)?;
        Ok(())
    }

    /// Pushes a value that names no thing.
    #[inline(always)]
    pub fn push_free(&mut self, value: Value) -> Done
        requires { value_handle value ≡ None }
    {
        self.make_room()?;
        self.heap.push_free(value);
        Ok(())
    }

    /// Pushes a copy of the value at a place.
    #[inline(always)]
    pub fn push_copy(&mut self, i: usize) -> Done {
        self.make_room()?;
        if i >= self.heap.len() {
            return Err(broken());
        }
        self.heap.push_copy(i)?;
        Ok(())
    }

    /// The place of the value that stands so many places below the top, 0 being the top.
    #[inline(always)]
    pub fn below(&self, count: usize) -> Result<usize, Stop>
        ensures { IfOk result (λ i. i + count + 1 ≡ length self.now.heap.values) }
    {
        if count < self.heap.len() {
            Ok(self.heap.len() - 1 - count)
        } else {
            Err(broken())
        }
    }

    /// Gives up so many values on the top.
    #[inline(always)]
    pub fn drop_values(&mut self, count: usize) -> Done {
        if count > self.heap.len() {
            return Err(broken());
        }
        self.heap.drop_last(count);
        Ok(())
    }

    /// Takes the last value to a place, whose value is given up.
    #[inline(always)]
    pub fn store(&mut self, i: usize) -> Done {
        if i.saturating_add(1) >= self.heap.len() {
            return Err(broken());
        }
        self.heap.store(i);
        Ok(())
    }

    /// Puts a value that names no thing in a place, whose value is given up.
    #[inline(always)]
    pub fn set_free(&mut self, i: usize, value: Value) -> Done
        requires { value_handle value ≡ None }
    {
        if i >= self.heap.len() {
            return Err(broken());
        }
        self.heap.set_free(i, value);
        Ok(())
    }

    /// The last value stays, at the place of the first of so many before it, and these are given up.
    #[inline(always)]
    pub fn keep_last(&mut self, over: usize) -> Done {
        let at = self.below(over)?;
        self.heap.leave(at);
        Ok(())
    }

    /// A value that names no thing comes in the place of so many on the top.
    #[inline(always)]
    pub fn give_free(&mut self, taken: usize, value: Value) -> Done
        requires { value_handle value ≡ None }
    {
        self.push_free(value)?;
        self.keep_last(taken)
    }

    /// A value at a place, if there is one.
    #[inline(always)]
    pub fn value(&self, i: usize) -> Option<&Value> {
        if i < self.heap.len() {
            Some(self.heap.value(i))
        } else {
            None
        }
    }
}
