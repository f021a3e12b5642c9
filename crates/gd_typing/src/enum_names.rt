//! The names of an enum's values.

use gd_syntax::Text;
use indexmap::IndexMap;
use no_memory::NoMemory;
use std::alloc::Global;

/// The values of an enum by their names.
#[derive(Drop)]
pub struct EnumNames {
    places: IndexMap<Text, u32>,
    count: u32,
}

impl EnumNames {
    /// No values.
    pub(crate) fn new(alloc: Global) -> EnumNames {
        EnumNames {
            places: IndexMap::new(alloc),
            count: 0,
        }
    }

    /// Adds the next value. A name that is there already keeps standing for its first declaration.
    pub(crate) fn add(&mut self, name: &Text) -> Result<(), NoMemory> {
        if self.place_of(name).is_none() {
            self.places.insert(name.share()?, self.count)?;
        }
        self.count = self.count.saturating_add(1);
        Ok(())
    }

    /// The place of the value with this name among those of the enum, from 0.
    pub fn place_of(&self, name: &Text) -> Option<u32> {
        self.places.get(name).copied()
    }

    /// How many values the enum has.
    pub fn count(&self) -> u32 {
        self.count
    }
}
