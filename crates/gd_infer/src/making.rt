//! The order in which a run makes the things of constants.
//!
//! Inference makes a thing as soon as its value is needed, and those of local constants behind all others. A run makes
//! constants in class order and then by place, the local ones too, and before each those that it names and that are not
//! made yet, in the order in which it names them.

use crate::needs::ItemNeeds;
use crate::thing_order::{Span, ThingOrder};
use cycle_resolver::Item;
use indexmap::IndexSet;
use no_memory::NoMemory;
use std::alloc::Global;
use std::collections::HashMap;

// What a run comes to.
#[derive(Clone, Copy)]
enum Step {
    // A constant, a value of an enum or an enum as a whole, which is made here unless it was made before.
    Item(Item),
    // A local constant, which makes these things.
    Local(Span),
}

/// Which constants make which things, and the order in which a run comes to the constants.
#[derive(Drop)]
pub struct Making {
    spans: HashMap<Item, Span>,
    steps: Vec<Step>,
}

impl Making {
    /// No constant makes a thing.
    pub fn new(alloc: Global) -> Making {
        Making {
            spans: HashMap::new(alloc),
            steps: Vec::new(alloc),
        }
    }

    /// The value of the item makes these things.
    pub fn set(&mut self, item: Item, span: Span) -> Result<(), NoMemory> {
        if span.first < span.end {
            self.spans.insert(item, span)?;
        }
        Ok(())
    }

    /// A run comes to this item.
    pub fn come_to(&mut self, item: Item) -> Result<(), NoMemory> {
        self.steps.push(Step::Item(item))?;
        Ok(())
    }

    /// A run comes to a local constant that names these items and makes these things.
    pub fn come_to_local(&mut self, named: &[Item], span: Span) -> Result<(), NoMemory> {
        for item in named {
            self.come_to(*item)?;
        }
        self.steps.push(Step::Local(span))?;
        Ok(())
    }

    /// The order in which a run makes so many things. Those that no constant with a value makes come last.
    pub fn order(
        &self,
        alloc: Global,
        needs: &ItemNeeds,
        count: u32,
    ) -> Result<ThingOrder, NoMemory> {
        let mut order = ThingOrder::new(alloc, count)?;
        self.add_steps(alloc, needs, &mut order)?;
        order.add(Span {
            first: 0,
            end: count,
        })?;
        Ok(order)
    }

    fn add_steps(
        &self,
        alloc: Global,
        needs: &ItemNeeds,
        order: &mut ThingOrder,
    ) -> Result<(), NoMemory> {
        let mut begun = IndexSet::new(alloc);
        for step in &self.steps {
            match step {
                Step::Item(item) => self.add_item(alloc, needs, &mut begun, order, *item)?,
                Step::Local(span) => order.add(*span)?,
            }
        }
        Ok(())
    }

    // The things of an item behind those of all that it needs, but for what was begun before. An item on the path stands with
    // the number of its needs that were looked at.
    fn add_item(
        &self,
        alloc: Global,
        needs: &ItemNeeds,
        begun: &mut IndexSet<Item>,
        order: &mut ThingOrder,
        first: Item,
    ) -> Result<(), NoMemory> {
        let mut path: Vec<(Item, usize)> = Vec::new(alloc);
        begin(begun, &mut path, first)?;
        // Each turn looks at a need or ends an item; 2^64 of them are never reached.
        for _ in 0..u64::MAX {
            let Some((item, looked_at)) = path.pop() else {
                return Ok(());
            };
            match needs.row(item).get(looked_at) {
                Some(next) => {
                    path.push((item, looked_at.saturating_add(1)))?;
                    begin(begun, &mut path, *next)?;
                }
                None => self.end(order, item)?,
            }
        }
        Ok(())
    }

    fn end(&self, order: &mut ThingOrder, item: Item) -> Result<(), NoMemory> {
        match self.spans.get(&item) {
            Some(span) => order.add(*span),
            None => Ok(()),
        }
    }
}

// Puts an item on the path that was not begun before.
fn begin(
    begun: &mut IndexSet<Item>,
    path: &mut Vec<(Item, usize)>,
    item: Item,
) -> Result<(), NoMemory> {
    if begun.insert(item)? {
        path.push((item, 0))?;
    }
    Ok(())
}
