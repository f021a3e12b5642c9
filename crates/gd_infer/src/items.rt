//! The items of a project.

use crate::needs::ItemNeeds;
use cycle_resolver::{Item, MemberId};
use gd_syntax::{ClassDecl, DeclKind, Pos};
use no_memory::NoMemory;
use script_table::Table;
use sqlite_items::Items;
use std::alloc::Global;

/// All items of the project, by their classes and places. A named enum as a whole stands behind its values.
pub fn items_of(alloc: Global, table: &Table) -> Result<ItemNeeds, NoMemory> {
    let mut items = ItemNeeds::new(alloc);
    for place in 0..table.class_count() {
        let class = place.saturating_add(1);
        if let Some(declared) = table.class(class) {
            add_class(&mut items, class, declared)?;
        }
    }
    Ok(items)
}

fn add_class(items: &mut ItemNeeds, class: u32, declared: &ClassDecl) -> Result<(), NoMemory> {
    let mut index = 0u32;
    for member in declared.members.as_slice() {
        let id = MemberId { class, index };
        match &member.kind {
            DeclKind::Var(variable) if variable.inferred => add(items, id, 0)?,
            DeclKind::Const(_) => add(items, id, 0)?,
            DeclKind::Enum(name, values) => add_enum(
                items,
                id,
                name.is_some(),
                values.items().len(),
            )?,
            _ => {}
        }
        index = index.saturating_add(1);
    }
    Ok(())
}

fn add_enum(
    items: &mut ItemNeeds,
    member: MemberId,
    is_named: bool,
    count: usize,
) -> Result<(), NoMemory> {
    let mut value = 0u32;
    for _ in 0..count {
        value = value.saturating_add(1);
        add(items, member, value)?;
    }
    if is_named {
        add(items, member, 0)?;
    }
    Ok(())
}

fn add(items: &mut ItemNeeds, member: MemberId, value: u32) -> Result<(), NoMemory> {
    items.add(Item { member, value })
}

/// The place of the name that declares an item; of an enum as a whole its own name.
pub fn name_of(table: &Table, item: Item) -> Option<Pos> {
    match &table.declaration(item.member)?.kind {
        DeclKind::Var(variable) | DeclKind::Const(variable) => Some(variable.pos),
        DeclKind::Enum(Some((_, pos)), _) if item.value == 0 => Some(*pos),
        DeclKind::Enum(_, values) => {
            let value = values.items().get(item.value.saturating_sub(1) as usize)?;
            Some(value.1)
        }
        _ => None,
    }
}

/// Whether the item is an enum as a whole.
pub fn is_whole_enum(table: &Table, item: Item) -> bool {
    match table.declaration(item.member) {
        Some(declared) => matches!(declared.kind, DeclKind::Enum(_, _)) && item.value == 0,
        None => false,
    }
}
