//! The values of constants as they are kept when all is known.

use crate::inference::Inference;
use crate::inferring::Inferring;
use crate::items::name_of;
use crate::places::Places;
use crate::thing_order::ThingOrder;
use cycle_resolver::Item;
use gd_model::{Fixed, FixedThing, Value};
use gd_syntax::{Pos, Seq};
use no_memory::NoMemory;
use script_table::Table;
use std::alloc::Global;

/// The values of all constants, and the things that they make in the order in which a run makes them.
#[derive(Drop)]
pub struct FixedConstants {
    /// By the places of the names that declare them.
    pub values: Places<Fixed>,
    pub things: Seq<FixedThing>,
}

/// What the constants are once all is typed.
pub fn fix(alloc: Global, inferring: &Inferring) -> Result<FixedConstants, NoMemory> {
    let inference = &inferring.inference;
    let count = inference.constants.count();
    let order = inference.making.order(alloc, &inferring.needs, count)?;
    let values = fix_values(alloc, inferring, &order)?;
    let things = fix_things(alloc, inference, &order)?;
    Ok(FixedConstants { values, things })
}

fn fix_values(
    alloc: Global,
    inferring: &Inferring,
    order: &ThingOrder,
) -> Result<Places<Fixed>, NoMemory> {
    let inference = &inferring.inference;
    let items = inferring.needs.all();
    let mut values = Places::new(alloc);
    fix_items(&inferring.table, inference, order, items, &mut values)?;
    fix_locals(inference, order, &mut values)?;
    Ok(values)
}

fn fix_things(
    alloc: Global,
    inference: &Inference,
    order: &ThingOrder,
) -> Result<Seq<FixedThing>, NoMemory> {
    let things = inference.constants.things(alloc)?;
    order.things(alloc, &things)
}

fn fix_items(
    table: &Table,
    inference: &Inference,
    order: &ThingOrder,
    items: &[Item],
    values: &mut Places<Fixed>,
) -> Result<(), NoMemory> {
    for &item in items {
        if let Some(pos) = name_of(table, item)
            && let Some(value) = inference.constants.get(item)
        {
            fix_value(inference, order, values, pos, value)?;
        }
    }
    Ok(())
}

fn fix_locals(
    inference: &Inference,
    order: &ThingOrder,
    values: &mut Places<Fixed>,
) -> Result<(), NoMemory> {
    for local in &inference.locals {
        if let Some(value) = &local.value {
            fix_value(inference, order, values, local.pos, value)?;
        }
    }
    Ok(())
}

// The constant whose name stands there has this value.
fn fix_value(
    inference: &Inference,
    order: &ThingOrder,
    values: &mut Places<Fixed>,
    pos: Pos,
    value: &Value,
) -> Result<(), NoMemory> {
    let value = inference.constants.fixed(value)?;
    values.put(pos, order.fixed(value))
}
