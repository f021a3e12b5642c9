//! The code that reads names.
//!
//! | Name | Code |
//! |---|---|
//! | a local | Get |
//! | a local constant, a constant, an enum or a value of one | Push |
//! | a static variable | Static |
//! | a variable of the instance, in its own accessors or without a getter | Own |
//! | a variable of the instance with a getter | Me, Attr |
//! | a static function | Func |
//! | another function, a signal | Me, Attr |

use crate::action::{Action, Literal};
use crate::draft::Draft;
use crate::function_key::FunctionKey;
use crate::scene::Scene;
use gd_bytecode::Opcode;
use gd_members::{Found, MemberId};
use gd_syntax::{DeclKind, Pos, Text, VarDecl};
use no_memory::NoMemory;
use value_semantics::constant_value;

/// Reads a bare name.
pub fn read_name<'a>(
    scene: &Scene<'a>,
    draft: &mut Draft<'a>,
    pos: Pos,
    name: &'a Text,
) -> Result<(), NoMemory> {
    match scene.typed.local_at(pos) {
        Some(declares) => read_local(scene, draft, declares, pos),
        None => read_found(scene, draft, scene.found(pos), pos, name),
    }
}

/// Reads a local, by the place of the name that declares it.
pub fn read_local<'a>(
    scene: &Scene<'a>,
    draft: &mut Draft<'a>,
    declares: Pos,
    pos: Pos,
) -> Result<(), NoMemory> {
    if scene.typed.is_local_constant(declares) {
        draft.value(Literal::Constant(declares), pos)
    } else {
        draft.add(Action::Local(Opcode::Get, declares), pos)
    }
}

/// Reads what a bare name that is no local, or a name behind a class, was found to be. A class is no value: null stands
/// for it.
pub fn read_found<'a>(
    scene: &Scene<'a>,
    draft: &mut Draft<'a>,
    found: Option<Found>,
    pos: Pos,
    name: &'a Text,
) -> Result<(), NoMemory> {
    match found {
        Some(Found::Member(member)) => read_member(scene, draft, member, pos, name),
        Some(found) => {
            let literal = constant_found(scene, found).unwrap_or(Literal::Null);
            draft.value(literal, pos)
        }
        None => draft.value(Literal::Null, pos),
    }
}

fn read_member<'a>(
    scene: &Scene<'a>,
    draft: &mut Draft<'a>,
    member: MemberId,
    pos: Pos,
    name: &'a Text,
) -> Result<(), NoMemory> {
    match scene.kind(member) {
        Some(DeclKind::Var(variable)) => read_variable(scene, draft, member, variable, pos, name),
        Some(DeclKind::Func(function)) if function.is_static => {
            draft.add(Action::Func(FunctionKey::Declared(member)), pos)
        }
        Some(DeclKind::Func(_) | DeclKind::Signal(_, _, _)) => read_own(draft, pos, name),
        _ => {
            let literal = constant_found(scene, Found::Member(member)).unwrap_or(Literal::Null);
            draft.value(literal, pos)
        }
    }
}

fn read_variable<'a>(
    scene: &Scene<'a>,
    draft: &mut Draft<'a>,
    member: MemberId,
    variable: &VarDecl,
    pos: Pos,
    name: &'a Text,
) -> Result<(), NoMemory> {
    if variable.is_static {
        draft.add(Action::Static(Opcode::Static, name, member.class), pos)
    } else if variable.getter.is_none() || scene.is_direct(member) {
        draft.named(Opcode::Own, name, pos)
    } else {
        read_own(draft, pos, name)
    }
}

// An attribute of the receiver.
fn read_own<'a>(draft: &mut Draft<'a>, pos: Pos, name: &'a Text) -> Result<(), NoMemory> {
    draft.plain(Opcode::Me, 0, 0, pos)?;
    draft.named(Opcode::Attr, name, pos)
}

/// The value of what was found, where that is constant: a constant with a value, an enum, a value of one, or a builtin
/// constant.
pub fn constant_found<'a>(scene: &Scene<'a>, found: Found) -> Option<Literal<'a>> {
    match found {
        Found::Member(member) => match scene.kind(member)? {
            DeclKind::Const(constant) => valued(scene, constant.pos),
            DeclKind::Enum(Some((_, pos)), _) => valued(scene, *pos),
            _ => None,
        },
        Found::EnumValue(member, place) => match scene.kind(member)? {
            DeclKind::Enum(_, values) => {
                let (_, pos, _) = values.items().get(place as usize)?;
                valued(scene, *pos)
            }
            _ => None,
        },
        Found::Builtin(number) => Some(Literal::Int(constant_value(number)?)),
        Found::Class(_) | Found::Missing => None,
    }
}

// A constant that holds a class has no value.
fn valued<'a>(scene: &Scene<'a>, declares: Pos) -> Option<Literal<'a>> {
    let _value = scene.typed.value(declares)?;
    Some(Literal::Constant(declares))
}
