//! Values and the places to which they go.
use crate::expressions::{Role, first_token, flatten};
use crate::findings::Findings;
use crate::judged::examine_part;
use crate::scene::Scene;
use gd_model::Ty;
use gd_syntax::{Expr, ExprKind, Pos};
use gd_typing::{assigned, element_place, key_place, value_place};
use no_memory::NoMemory;

/// Looks at an expression that stands for this, and at the expressions inside it.
pub fn examine(
    scene: &Scene<'_>,
    expr: &Expr,
    role: Role,
    found: &mut Findings,
) -> Result<(), NoMemory> {
    let mut parts = Vec::new(scene.alloc);
    flatten(expr, role, &mut parts)?;
    for part in &parts {
        examine_part(scene, part, found)?;
    }
    Ok(())
}

/// Looks at an expression, if there is one, where a value is needed.
pub fn examine_optional(
    scene: &Scene<'_>,
    expr: Option<&Expr>,
    found: &mut Findings,
) -> Result<(), NoMemory> {
    match expr {
        Some(expr) => examine(scene, expr, Role::Value, found),
        None => Ok(()),
    }
}

/// A13: whether a value may go to a place of this type; told at `pos`.
pub fn examine_assigned(
    scene: &Scene<'_>,
    value: &Expr,
    place: &Ty,
    pos: Pos,
    found: &mut Findings,
) -> Result<(), NoMemory> {
    let table = scene.facts.table();
    found.add(assigned(table, scene.facts.ty(value), place), pos)?;
    examine_literal(scene, value, place, found)
}

/// A13 of the elements, keys and values of a literal that stands as the value of a place of this type.
pub fn examine_literal(
    scene: &Scene<'_>,
    value: &Expr,
    place: &Ty,
    found: &mut Findings,
) -> Result<(), NoMemory> {
    match &value.kind {
        ExprKind::ArrayLit(items) => {
            for item in items.as_slice() {
                examine_element(scene, item, element_place(Some(place)), found)?;
            }
        }
        ExprKind::DictLit(pairs) => {
            for (key, item) in pairs.as_slice() {
                examine_element(scene, key, key_place(Some(place)), found)?;
                examine_element(scene, item, value_place(Some(place)), found)?;
            }
        }
        _ => {}
    }
    Ok(())
}

/// A13 of a part of a literal that goes to a place of this type, if to a typed one.
fn examine_element(
    scene: &Scene<'_>,
    element: &Expr,
    place: Option<&Ty>,
    found: &mut Findings,
) -> Result<(), NoMemory> {
    if let Some(place) = place {
        let finding = assigned(scene.facts.table(), scene.facts.ty(element), place);
        found.add(finding, first_token(element))?;
    }
    Ok(())
}
