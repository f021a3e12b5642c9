//! What is constant: the values of constants and enums, and the keys of patterns.
use crate::expressions::{Role, flatten};
use crate::facts::Facts;
use crate::scene::Scene;
use gd_members::Found;
use gd_model::{Fixed, Ty};
use gd_syntax::{Expr, ExprKind, Pos};
use gd_typing::{Declared, Member};
use no_memory::NoMemory;

/// A23: the least place of a part of a value that is not constant; none where the value is Bad already.
pub fn first_not_constant(scene: &Scene<'_>, value: &Expr) -> Result<Option<Pos>, NoMemory> {
    if matches!(scene.facts.ty(value), Ty::Bad) {
        return Ok(None);
    }
    let mut parts = Vec::new(scene.alloc);
    flatten(value, Role::Constant, &mut parts)?;
    let mut first = None;
    for part in &parts {
        if !is_constant_part(&scene.facts, part.expr) {
            first = Some(match first {
                Some(pos) if pos < part.expr.pos => pos,
                _ => part.expr.pos,
            });
        }
    }
    Ok(first)
}

/// Whether an expression is constant where the expressions inside it are: a literal, a constant, an operator, a subscript or
/// an attribute, or a `preload`.
fn is_constant_part(facts: &Facts<'_>, expr: &Expr) -> bool {
    match &expr.kind {
        ExprKind::Name(_) => match facts.local(expr.pos) {
            Some(local) => local.is_constant,
            None => is_constant(facts.declared(), facts.found(expr.pos)),
        },
        ExprKind::Attr(_, _) => is_constant(facts.declared(), facts.found(expr.pos)),
        ExprKind::Me | ExprKind::Call(_, _) | ExprKind::Super(_, _, _) => false,
        _ => true,
    }
}

/// Whether what a name or attribute was found to be is constant. One of which that is not known is an attribute of a value.
fn is_constant(declared: &Declared, found: Option<Found>) -> bool {
    match found {
        Some(Found::Member(member)) => matches!(
            declared.member(member),
            Some(Member::Constant(_) | Member::Enum(_) | Member::Class)
        ),
        Some(Found::Missing) => false,
        Some(Found::Class(_) | Found::EnumValue(_, _) | Found::Builtin(_)) | None => true,
    }
}

/// A33: whether the key of a pattern is no constant.
pub fn is_no_constant_key(scene: &Scene<'_>, key: &Expr) -> Result<bool, NoMemory> {
    Ok(first_not_constant(scene, key)?.is_some())
}

/// A36: whether the value of an enum that is named at `name` is no constant int. A fault of its evaluation is told where it
/// stands, and nothing more.
pub fn is_no_enum_value(scene: &Scene<'_>, name: Pos, value: &Expr) -> Result<bool, NoMemory> {
    if first_not_constant(scene, value)?.is_some() {
        return Ok(true);
    }
    let facts = &scene.facts;
    if matches!(facts.ty(value), Ty::Bad)
        || matches!(facts.typed.value(name), Some(Fixed::Int(_)))
    {
        return Ok(false);
    }
    Ok(!faults_within(scene, value)?)
}

/// Whether the evaluation of an operation in a value faults.
fn faults_within(scene: &Scene<'_>, value: &Expr) -> Result<bool, NoMemory> {
    let mut parts = Vec::new(scene.alloc);
    flatten(value, Role::Value, &mut parts)?;
    for part in &parts {
        if scene.facts.faults_at(part.expr.pos) {
            return Ok(true);
        }
    }
    Ok(false)
}
