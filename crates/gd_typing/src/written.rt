//! Written types.

use gd_members::Found;
use gd_model::Ty;
use gd_rules::{Diag, Rule};
use gd_syntax::{DeclKind, Pos, Text, TypeName};
use no_memory::NoMemory;
use script_table::Table;
use sqlite_items::Boxed;
use std::alloc::Global;

/// The type that is written in this class, and Bad where it is none. What is wrong is added to the faults: A07 where the names
/// lead to no type, or brackets stand behind another type than theirs; A08 at an element, key or value type that is itself
/// typed; A45 at a type of keys that has no keys. After `NoMemory` some may have been added.
#[cycle(types)]
pub fn written_type(
    alloc: Global,
    table: &Table,
    class: u32,
    written: &TypeName,
    faults: &mut Vec<Diag>,
) -> Result<Ty, NoMemory> {
    if written.is_void {
        return Ok(Ty::Void);
    }
    let head = named_type(table, class, written.names.items());
    match written.elements.as_slice() {
        [] => plain(written.pos, head, faults),
        [element] => {
            let part = part_of(alloc, table, class, element, faults)?;
            typed_array(alloc, written.pos, head, part, faults)
        }
        [key, value] => {
            let key = part_of(alloc, table, class, key, faults)?;
            let value = part_of(alloc, table, class, value, faults)?;
            typed_dictionary(alloc, written.pos, head, key, value, faults)
        }
        _ => plain(written.pos, None, faults),
    }
}

/// The type that the names stand for, brackets aside.
fn named_type(table: &Table, class: u32, names: &[Text]) -> Option<Ty> {
    match found_by(table, class, names) {
        Found::Class(class) => Some(Ty::Class(class)),
        Found::Member(member) => match table.constant_class(member) {
            Some(class) => Some(Ty::Class(class)),
            None if is_enum(table.declaration(member).map(|d| &d.kind)) => Some(Ty::Int),
            None => None,
        },
        Found::Builtin(number) => builtin_type(number),
        Found::EnumValue(_, _) | Found::Missing => None,
    }
}

fn is_enum(kind: Option<&DeclKind>) -> bool {
    matches!(kind, Some(DeclKind::Enum(_, _)))
}

/// The first name is looked up as a bare name, each further one among the members of the class before the dot.
fn found_by(table: &Table, class: u32, names: &[Text]) -> Found {
    let Some((first, further)) = names.split_first() else {
        return Found::Missing;
    };
    let mut found = table.find(class, first);
    for name in further {
        let Some(class) = class_of(table, found) else {
            return Found::Missing;
        };
        found = table.member(class, name).unwrap_or(Found::Missing);
    }
    found
}

/// The class that a found name stands for.
fn class_of(table: &Table, found: Found) -> Option<u32> {
    match found {
        Found::Class(class) => Some(class),
        Found::Member(member) => table.constant_class(member),
        _ => None,
    }
}

/// The type that a builtin's name is.
fn builtin_type(number: u16) -> Option<Ty> {
    Some(match number {
        20 => Ty::Int,
        21 => Ty::Bool,
        1100 => Ty::Variant,
        1101 => Ty::Str,
        1102 => Ty::Callable,
        1103 => Ty::Signal,
        1104 => Ty::Dict,
        1105 => Ty::Array,
        _ => return None,
    })
}

fn plain(pos: Pos, head: Option<Ty>, faults: &mut Vec<Diag>) -> Result<Ty, NoMemory> {
    match head {
        Some(ty) => Ok(ty),
        None => bad(pos, Rule::UnknownType, faults),
    }
}

fn bad(pos: Pos, rule: Rule, faults: &mut Vec<Diag>) -> Result<Ty, NoMemory> {
    faults.push(Diag { pos, rule })?;
    Ok(Ty::Bad)
}

/// A type in brackets, and its place.
#[derive(Drop)]
struct Part {
    pos: Pos,
    ty: Ty,
}

#[cycle(types)]
fn part_of(
    alloc: Global,
    table: &Table,
    class: u32,
    written: &TypeName,
    faults: &mut Vec<Diag>,
) -> Result<Part, NoMemory> {
    Ok(Part {
        pos: written.pos,
        ty: written_type(alloc, table, class, written, faults)?,
    })
}

fn typed_array(
    alloc: Global,
    pos: Pos,
    head: Option<Ty>,
    element: Part,
    faults: &mut Vec<Diag>,
) -> Result<Ty, NoMemory> {
    if !matches!(head, Some(Ty::Array)) {
        return bad(pos, Rule::UnknownType, faults);
    }
    if !is_untyped(&element, faults)? {
        return Ok(Ty::Bad);
    }
    Ok(Ty::ArrayOf(Boxed::new(alloc, element.ty)?))
}

fn typed_dictionary(
    alloc: Global,
    pos: Pos,
    head: Option<Ty>,
    key: Part,
    value: Part,
    faults: &mut Vec<Diag>,
) -> Result<Ty, NoMemory> {
    if !matches!(head, Some(Ty::Dict)) {
        return bad(pos, Rule::UnknownType, faults);
    }
    let key_goes = is_untyped(&key, faults)?;
    let key_is_key = is_key(&key, faults)?;
    let value_goes = is_untyped(&value, faults)?;
    if !key_goes || !key_is_key || !value_goes {
        return Ok(Ty::Bad);
    }
    let key = Boxed::new(alloc, key.ty)?;
    let value = Boxed::new(alloc, value.ty)?;
    Ok(Ty::DictOf(key, value))
}

/// Whether the type may stand in brackets. One that is itself typed is A08, and a Bad one is said already.
fn is_untyped(part: &Part, faults: &mut Vec<Diag>) -> Result<bool, NoMemory> {
    if is_typed(&part.ty) {
        faults.push(Diag {
            pos: part.pos,
            rule: Rule::NestedTypedArray,
        })?;
        return Ok(false);
    }
    Ok(!matches!(part.ty, Ty::Bad))
}

/// Whether a dictionary may have keys of the type. Of another one that is A45, also of one that is itself typed.
fn is_key(part: &Part, faults: &mut Vec<Diag>) -> Result<bool, NoMemory> {
    if has_keys(&part.ty) {
        return Ok(true);
    }
    faults.push(Diag {
        pos: part.pos,
        rule: Rule::BadKeyType,
    })?;
    Ok(false)
}

fn is_typed(ty: &Ty) -> bool {
    matches!(ty, Ty::ArrayOf(_) | Ty::DictOf(_, _))
}

/// Whether a dictionary may have keys of this type. Of a Bad type nothing is said.
fn has_keys(ty: &Ty) -> bool {
    matches!(
        ty,
        Ty::Variant | Ty::Bool | Ty::Int | Ty::Str | Ty::Class(_) | Ty::Bad
    )
}
