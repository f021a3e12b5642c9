//! Which objects there are.
ghost use Rattle.std.specs.Prelude.{◌≡◌, ◌++◌, is_some, option_map, IfOk, OnOk};
ghost use Rattle.std.specs.Option.{option_to_list};
ghost use Rattle.gd_model.specs.View.{class_in};
ghost use Rattle.rooted_heap.specs.Rooted.{seen, thing_at};
ghost use Rattle.rooted_heap.specs.Reading.{objects_in};

use crate::RootedHeap;
use gd_containers::Look;
use no_memory::NoMemory;
use slot_arena::Handle;
use std::alloc::Global;

/// Notes the serial number and the class of a thing, where it has a class.
fn note(all: &mut Vec<(u64, u32)>, serial: u64, class: Option<u32>) -> Result<(), NoMemory>
    ensures { OnOk result (all.new.items ≡ all.old.items ++ option_to_list (option_map (λ c. (serial, c)) class)) }
{
    if let Some(class) = class {
        all.push((serial, class))?;
    }
    Ok(())
}

impl RootedHeap {
    /// Whether the thing that a handle names is there.
    pub fn is_alive(&self, h: Handle) -> bool
        ensures { result ≡ is_some (thing_at self.now.things h) }
    {
        self.heap.rising_law();
        self.heap.read(h).is_some()
    }

    /// The class of the object that a handle names, where it is there.
    pub fn class_of(&self, h: Handle) -> Option<u32>
        ensures { result ≡ class_in (seen self.now.things h) }
    {
        self.things().class_of(h)
    }

    /// The serial number and the class of each object, by rising serial number.
    pub fn objects(&self, alloc: Global) -> Result<Vec<(u64, u32)>, NoMemory>
        ensures { IfOk result (λ all. all.items ≡ objects_in self.now.things) }
    {
        self.heap.rising_law();
        let handles = self.heap.entries(alloc)?;
        let mut all = Vec::new(alloc);
        for h in &handles {
            note(&mut all, h.serial, self.class_of(*h))?;
        }
        Ok(all)
    }
}
