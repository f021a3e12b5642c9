//! What is known at places.

use gd_syntax::Pos;
use no_memory::NoMemory;
use std::alloc::Global;
use std::collections::HashMap;

/// A place as a key.
#[derive(Clone, Copy, PartialEq, Eq, Hash)]
struct Spot {
    file: u32,
    line: u32,
    column: u32,
}

fn spot_at(pos: Pos) -> Spot {
    Spot {
        file: pos.file,
        line: pos.line,
        column: pos.column,
    }
}

/// At most one value for each place.
#[derive(Drop)]
pub struct Places<T> {
    entries: HashMap<Spot, T>,
}

impl<T: Drop> Places<T> {
    /// No place has a value.
    pub fn new(alloc: Global) -> Places<T> {
        Places {
            entries: HashMap::new(alloc),
        }
    }

    /// From now on the place has this value.
    pub fn put(&mut self, pos: Pos, value: T) -> Result<(), NoMemory> {
        self.entries.insert(spot_at(pos), value)?;
        Ok(())
    }

    /// The value of the place.
    pub fn get(&self, pos: Pos) -> Option<&T> {
        self.entries.get(&spot_at(pos))
    }
}
