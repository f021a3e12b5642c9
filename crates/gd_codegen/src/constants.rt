//! The things that constants hold.

use crate::tables::Tables;
use crate::type_code::{TypeCode, VARIANT};
use gd_bytecode::{ConstKind, ConstThing, Operand};
use gd_model::{Fixed, FixedThing};
use gd_syntax::Seq;
use no_memory::NoMemory;
use std::alloc::Global;

/// The things of all constants, in the order in which they are made.
pub fn constant_things(
    alloc: Global,
    tables: &mut Tables,
    things: &[FixedThing],
) -> Result<Seq<ConstThing>, NoMemory> {
    let mut made = Vec::new(alloc);
    for thing in things {
        made.push(constant_thing(alloc, tables, thing)?)?;
    }
    Ok(Seq::of(made))
}

fn constant_thing(
    alloc: Global,
    tables: &mut Tables,
    thing: &FixedThing,
) -> Result<ConstThing, NoMemory> {
    match thing {
        FixedThing::Items(element, items) => Ok(ConstThing {
            kind: ConstKind::Array,
            typed: tables.ty(TypeCode::of(element)?)?,
            operands: elements(alloc, tables, items.items())?,
        }),
        FixedThing::Pairs(ty, pairs) => {
            let ty = TypeCode::of(ty)?;
            Ok(ConstThing {
                kind: dictionary_kind(ty),
                typed: tables.ty(dictionary_type(ty))?,
                operands: keys_and_values(alloc, tables, pairs.items())?,
            })
        }
    }
}

fn dictionary_kind(ty: TypeCode) -> ConstKind {
    match ty {
        TypeCode::DictOf(_, _) => ConstKind::DictOf,
        _ => ConstKind::Dict,
    }
}

fn dictionary_type(ty: TypeCode) -> TypeCode {
    match ty {
        TypeCode::DictOf(_, _) => ty,
        _ => VARIANT,
    }
}

fn elements(alloc: Global, tables: &mut Tables, items: &[Fixed]) -> Result<Seq<Operand>, NoMemory> {
    let mut operands = Vec::new(alloc);
    for item in items {
        operands.push(tables.fixed(item)?)?;
    }
    Ok(Seq::of(operands))
}

fn keys_and_values(
    alloc: Global,
    tables: &mut Tables,
    pairs: &[(Fixed, Fixed)],
) -> Result<Seq<Operand>, NoMemory> {
    let mut operands = Vec::new(alloc);
    for (key, value) in pairs {
        operands.push(tables.fixed(key)?)?;
        operands.push(tables.fixed(value)?)?;
    }
    Ok(Seq::of(operands))
}
