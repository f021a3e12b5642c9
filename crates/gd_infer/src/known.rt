//! The types that are known so far.

use cycle_resolver::{Item, MemberId};
use gd_model::Ty;
use gd_typing::Known;
use no_memory::NoMemory;
use std::alloc::Global;
use std::collections::HashMap;

/// A parameter that is declared by `:=`: its function, and its place among the parameters.
#[derive(Clone, Copy, PartialEq, Eq, Hash)]
struct ParameterId {
    function: MemberId,
    index: usize,
}

/// The types of items and of parameters that are declared by `:=`, as far as they are known.
#[derive(Drop)]
pub struct KnownTypes {
    items: HashMap<Item, Ty>,
    parameters: HashMap<ParameterId, Ty>,
}

impl KnownTypes {
    /// None is known.
    pub fn new(alloc: Global) -> KnownTypes {
        KnownTypes {
            items: HashMap::new(alloc),
            parameters: HashMap::new(alloc),
        }
    }

    /// From now on the item has this type.
    pub fn set_item(&mut self, item: Item, ty: Ty) -> Result<(), NoMemory> {
        self.items.insert(item, ty)?;
        Ok(())
    }

    /// From now on the parameter has this type.
    pub fn set_parameter(
        &mut self,
        function: MemberId,
        index: usize,
        ty: Ty,
    ) -> Result<(), NoMemory> {
        self.parameters.insert(ParameterId { function, index }, ty)?;
        Ok(())
    }
}

/// An enum as a whole is an item too, beside its values.
impl Known for KnownTypes {
    fn item(&self, item: Item) -> Option<&Ty> {
        self.items.get(&item)
    }

    fn unknown_value(&self, enumeration: MemberId) -> Option<Item> {
        let whole = Item {
            member: enumeration,
            value: 0,
        };
        if self.items.contains_key(&whole) {
            None
        } else {
            Some(whole)
        }
    }

    fn parameter(&self, function: MemberId, index: usize) -> Option<&Ty> {
        self.parameters.get(&ParameterId { function, index })
    }
}
