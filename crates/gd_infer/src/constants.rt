//! The values of constants, and what operations on them give or where they fault.
ghost use Rattle.std.specs.Prelude.{◌≡◌, true, OnOk};

use crate::evaluation::Evaluated;
use constant_store::{ConstantStore, LiteralFault};
use cycle_resolver::Item;
use gd_containers::ThingFault;
use gd_members::Found;
use gd_model::{Fixed, FixedThing, Ty, Value, impossible};
use gd_syntax::{Operator, Pos, Text};
use no_memory::NoMemory;
use std::alloc::Global;
use std::collections::HashMap;

/// The values of member constants, of enums and their values, over the things that they made.
#[derive(Drop)]
pub struct Constants {
    store: ConstantStore,
    values: HashMap<Item, Value>,
    // how many things were made: the serial number of the last
    count: u32,
}

impl Constants {
    /// No constant has a value.
    pub fn new(alloc: Global) -> Constants {
        Constants {
            store: ConstantStore::new(alloc),
            values: HashMap::new(alloc),
            count: 0,
        }
    }

    /// How many things were made.
    pub fn count(&self) -> u32 {
        self.count
    }

    // Notes the thing that was made last where this value is a thing. Each is the value of the operation that makes it.
    fn note(&mut self, value: &Value) {
        if let Value::Array(thing) | Value::Dict(thing) = value {
            if let Ok(serial) = u32::try_from(thing.serial) {
                self.count = self.count.max(serial);
            }
        }
    }

    /// From now on the item has this value.
    pub fn set(&mut self, item: Item, value: Value) -> Result<(), NoMemory> {
        self.values.insert(item, value)?;
        Ok(())
    }

    /// The item has no value any more.
    pub fn forget(&mut self, item: Item) {
        let _ = self.values.remove(&item);
    }

    /// The value of an item.
    pub fn get(&self, item: Item) -> Option<&Value> {
        self.values.get(&item)
    }

    /// The value of what was found: of a constant, of an enum or of one of its values.
    pub fn found(&self, found: Found) -> Option<&Value> {
        match found {
            Found::Member(member) => self.get(Item { member, value: 0 }),
            Found::EnumValue(member, place) => self.get(Item {
                member,
                value: place.saturating_add(1),
            }),
            _ => None,
        }
    }

    /// Whether the value counts as true.
    pub fn truth(&self, value: &Value) -> Result<bool, NoMemory> {
        promised(self.store.holds(value))?;
        Ok(self.store.truth(value))
    }

    /// Whether the value fits the type; all fit where there is none.
    pub fn fits(&self, ty: Option<&Ty>, value: &Value) -> Result<bool, NoMemory> {
        promised(self.store.holds(value))?;
        Ok(match ty {
            Some(ty) => self.store.fits(ty, value),
            None => true,
        })
    }

    /// Whether the value is of the type, as `is` says.
    pub fn is_of(&self, ty: &Ty, value: &Value) -> Result<bool, NoMemory> {
        promised(self.store.holds(value))?;
        Ok(self.store.is_of(ty, value))
    }

    /// What an operator at this place gives.
    pub fn operator(
        &mut self,
        pos: Pos,
        op: Operator,
        a: &Value,
        b: &Value,
    ) -> Result<Evaluated, NoMemory> {
        promised(self.store.holds(a))?;
        promised(self.store.holds(b))?;
        let made = self.store.operator(op, a, b);
        if let Ok(value) = &made {
            self.note(value);
        }
        answered(pos, made)
    }

    /// What a subscript at this place gives.
    pub fn subscript(&self, pos: Pos, base: &Value, index: &Value) -> Result<Evaluated, NoMemory> {
        promised(self.store.holds(base))?;
        answered(pos, self.store.subscript(base, index))
    }

    /// What an attribute of a dictionary at this place gives.
    pub fn attribute(&self, pos: Pos, base: &Value, name: &Text) -> Result<Evaluated, NoMemory> {
        promised(self.store.holds(base))?;
        answered(pos, self.store.attribute(base, name))
    }

    /// What a cast at this place gives.
    pub fn cast(&self, pos: Pos, to: &Ty, value: Value) -> Result<Evaluated, NoMemory> {
        promised(self.store.holds(&value))?;
        Ok(match self.store.cast(to, value) {
            Ok(value) => Evaluated::Value(value),
            Err(_) => Evaluated::Fault(pos),
        })
    }

    /// The array that a literal at this place makes.
    pub fn array(
        &mut self,
        pos: Pos,
        element: Ty,
        items: Vec<Value>,
    ) -> Result<Evaluated, NoMemory> {
        promised(self.store.holds_all(&items))?;
        let made = self.store.array(element, items);
        self.made(pos, made)
    }

    /// The dictionary that a literal at this place makes.
    pub fn dictionary(
        &mut self,
        pos: Pos,
        key: Ty,
        value: Ty,
        pairs: Vec<(Value, Value)>,
    ) -> Result<Evaluated, NoMemory> {
        promised(self.store.holds_pairs(&pairs))?;
        let made = self.store.dictionary(key, value, pairs.as_slice());
        self.made(pos, made)
    }

    /// The dictionary of an enum at this place.
    pub fn enumeration(&mut self, pos: Pos, values: &[(Text, i64)]) -> Result<Evaluated, NoMemory> {
        let made = self.store.enumeration(values);
        self.made(pos, made)
    }

    // What a literal at this place comes to.
    fn made(&mut self, pos: Pos, made: Result<Value, LiteralFault>) -> Result<Evaluated, NoMemory> {
        match made {
            Ok(value) => {
                self.note(&value);
                Ok(Evaluated::Value(value))
            }
            Err(LiteralFault::NoMemory) => Err(NoMemory),
            Err(_) => Ok(Evaluated::Fault(pos)),
        }
    }

    /// A value as it is kept when all is done.
    pub fn fixed(&self, value: &Value) -> Result<Fixed, NoMemory> {
        promised(self.store.holds(value))?;
        self.store.fixed(value)
    }

    /// The things that were made, in order.
    pub fn things(&self, alloc: Global) -> Result<Vec<FixedThing>, NoMemory> {
        self.store.things(alloc)
    }
}

// That the store has what values lead to: values come from it alone.
fn promised(holds: bool) -> Result<(), NoMemory>
    ensures { OnOk result (holds ≡ true) }
{
    if holds {
        Ok(())
    } else {
        Err(impossible().into())
    }
}

fn answered(pos: Pos, answer: Result<Value, ThingFault>) -> Result<Evaluated, NoMemory> {
    match answer {
        Ok(value) => Ok(Evaluated::Value(value)),
        Err(ThingFault::Run(_)) => Ok(Evaluated::Fault(pos)),
        Err(ThingFault::NoMemory) => Err(NoMemory),
    }
}
