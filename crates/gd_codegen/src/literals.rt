//! The ends of array and dictionary literals, and the values with which places begin.
//!
//! | Literal | Code |
//! |---|---|
//! | an array | the elements, Array |
//! | one for a typed place | each element with a Test at its first token; Array |
//! | a dictionary | keys and values in turn, Dict |
//! | one for a typed place | each key and each value with a Test at its first token; DictOf |

use crate::action::{Action, Literal};
use crate::draft::Draft;
use crate::number::number;
use crate::scene::Scene;
use crate::type_code::{PlainType, TypeCode, VARIANT};
use gd_bytecode::Opcode;
use gd_syntax::Pos;
use no_memory::NoMemory;

/// The type that a literal has.
pub fn literal_type(scene: &Scene<'_>, pos: Pos) -> Result<TypeCode, NoMemory> {
    match scene.typed.inner_type(pos) {
        Some(ty) => TypeCode::of(ty),
        None => Ok(VARIANT),
    }
}

/// The type against which the elements of an array literal of this type are tested.
pub fn element_type(ty: TypeCode) -> TypeCode {
    match ty {
        TypeCode::ArrayOf(element) => TypeCode::Plain(element),
        _ => VARIANT,
    }
}

/// The same of the keys of a dictionary literal.
pub fn key_type(ty: TypeCode) -> TypeCode {
    match ty {
        TypeCode::DictOf(key, _) => TypeCode::Plain(key),
        _ => VARIANT,
    }
}

/// The same of its values.
pub fn value_type(ty: TypeCode) -> TypeCode {
    match ty {
        TypeCode::DictOf(_, value) => TypeCode::Plain(value),
        _ => VARIANT,
    }
}

/// Makes an array of so many values on the top.
pub fn make_array(
    draft: &mut Draft<'_>,
    items: usize,
    ty: TypeCode,
    pos: Pos,
) -> Result<(), NoMemory> {
    let made = Action::Made(Opcode::Array, number(items)?, element_type(ty));
    draft.add(made, pos)
}

/// Makes a dictionary of so many pairs on the top.
pub fn make_dictionary(
    draft: &mut Draft<'_>,
    pairs: usize,
    ty: TypeCode,
    pos: Pos,
) -> Result<(), NoMemory> {
    let pairs = number(pairs)?;
    match ty {
        TypeCode::DictOf(_, _) => draft.add(Action::Made(Opcode::DictOf, pairs, ty), pos),
        _ => draft.plain(Opcode::Dict, pairs, 0, pos),
    }
}

/// The value with which a place of a type begins: 0, `false`, `""`, an empty array or dictionary of the type, else
/// null.
pub fn start_value(draft: &mut Draft<'_>, ty: TypeCode, pos: Pos) -> Result<(), NoMemory> {
    match ty {
        TypeCode::Plain(PlainType::Int) => draft.value(Literal::Int(0), pos),
        TypeCode::Plain(PlainType::Bool) => draft.value(Literal::Bool(false), pos),
        TypeCode::Plain(PlainType::Str) => draft.value(Literal::EmptyText, pos),
        TypeCode::Plain(PlainType::Array) | TypeCode::ArrayOf(_) => make_array(draft, 0, ty, pos),
        TypeCode::Plain(PlainType::Dict) | TypeCode::DictOf(_, _) => {
            make_dictionary(draft, 0, ty, pos)
        }
        _ => draft.value(Literal::Null, pos),
    }
}
