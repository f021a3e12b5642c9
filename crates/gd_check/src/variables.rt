//! The rules of variables, parameters and constants.
use crate::constants::first_not_constant;
use crate::expressions::Role;
use crate::findings::Findings;
use crate::scene::Scene;
use crate::values::{examine, examine_assigned, examine_literal};
use gd_rules::Rule;
use gd_syntax::{Expr, VarDecl};
use gd_typing::{assigned, inferred};
use no_memory::NoMemory;

/// Looks at the initial value of a variable, or the default value of a parameter.
pub fn examine_variable(
    scene: &Scene<'_>,
    variable: &VarDecl,
    found: &mut Findings,
) -> Result<(), NoMemory> {
    match &variable.value {
        Some(value) => {
            examine(scene, value, Role::Value, found)?;
            examine_initial(scene, variable, value, found)
        }
        None => Ok(()),
    }
}

/// Looks at a constant. Without a written type it may hold a class.
pub fn examine_constant(
    scene: &Scene<'_>,
    constant: &VarDecl,
    found: &mut Findings,
) -> Result<(), NoMemory> {
    let scene = &scene.at(scene.setting.constant());
    let Some(value) = &constant.value else {
        return Ok(());
    };
    let role = match constant.typed {
        Some(_) => Role::Value,
        None => Role::Constant,
    };
    examine(scene, value, role, found)?;
    match first_not_constant(scene, value)? {
        Some(pos) => {
            found.error(Rule::NotConstant, pos)?;
            examine_parts(scene, constant, value, found)
        }
        None if has_fault(scene, constant, value)? => examine_parts(scene, constant, value, found),
        None => examine_initial(scene, constant, value, found),
    }
}

/// Whether the evaluation of a constant that holds a value of its type faults, which is told where that was evaluated.
fn has_fault(scene: &Scene<'_>, constant: &VarDecl, value: &Expr) -> Result<bool, NoMemory> {
    let facts = &scene.facts;
    let fits = match &constant.typed {
        Some(written) => {
            let place = scene.written(written)?;
            assigned(facts.table(), facts.ty(value), &place)
                .rule
                .is_none()
        }
        None => true,
    };
    Ok(fits && facts.typed.value(constant.pos).is_none())
}

/// A13 of the elements of a constant's literal for a typed place, whose value is Bad: they are assignments of their own.
fn examine_parts(
    scene: &Scene<'_>,
    constant: &VarDecl,
    value: &Expr,
    found: &mut Findings,
) -> Result<(), NoMemory> {
    match &constant.typed {
        Some(written) => examine_literal(scene, value, &scene.written(written)?, found),
        None => Ok(()),
    }
}

/// A12 of `:=`, at the name; A13 of a written type, at the `=`.
fn examine_initial(
    scene: &Scene<'_>,
    variable: &VarDecl,
    value: &Expr,
    found: &mut Findings,
) -> Result<(), NoMemory> {
    if variable.inferred {
        return found.add(inferred(scene.facts.ty(value)), variable.pos);
    }
    match (&variable.typed, variable.equals) {
        (Some(written), Some(equals)) => {
            let place = scene.written(written)?;
            examine_assigned(scene, value, &place, equals, found)
        }
        _ => Ok(()),
    }
}
