//! The code that reads attributes.
//!
//! | Attribute | Code |
//! |---|---|
//! | of a class | the way to the class, and then as a bare name |
//! | a known constant, of a value | the value; Dup 0, JumpIf over an Attr that faults for null; Drop 1, Push |
//! | another one of a value | the value, Attr |

use crate::action::Literal;
use crate::draft::Draft;
use crate::expression::expression;
use crate::names::{constant_found, read_found};
use crate::scene::Scene;
use gd_bytecode::Opcode;
use gd_members::Found;
use gd_syntax::{Expr, ExprKind, Pos, Text};
use no_memory::NoMemory;

/// Reads an attribute.
#[cycle(expression)]
pub fn attribute<'a>(
    scene: &Scene<'a>,
    draft: &mut Draft<'a>,
    pos: Pos,
    base: &'a Expr,
    name: &'a Text,
) -> Result<(), NoMemory> {
    let found = scene.found(pos);
    if scene.is_class(base) {
        reach_class(scene, draft, base)?;
        return read_found(scene, draft, found, pos, name);
    }
    match known_constant(scene, found) {
        Some(literal) => {
            pass_value(scene, draft, pos, base, name)?;
            draft.value(literal, pos)
        }
        None => {
            expression(scene, draft, base)?;
            draft.named(Opcode::Attr, name, pos)
        }
    }
}

fn known_constant<'a>(scene: &Scene<'a>, found: Option<Found>) -> Option<Literal<'a>> {
    constant_found(scene, found?)
}

/// Evaluates what an expression that stands for a class goes through: it leaves nothing on the stack.
#[cycle(expression)]
pub fn reach_class<'a>(
    scene: &Scene<'a>,
    draft: &mut Draft<'a>,
    expr: &'a Expr,
) -> Result<(), NoMemory> {
    match &expr.kind {
        ExprKind::Attr(base, _) if scene.is_class(base.get()) => {
            reach_class(scene, draft, base.get())
        }
        ExprKind::Attr(base, name) => pass_value(scene, draft, expr.pos, base.get(), name),
        _ => Ok(()),
    }
}

// Evaluates a value through which a constant or a class is named: null is a fault. It leaves nothing on the stack.
#[cycle(expression)]
fn pass_value<'a>(
    scene: &Scene<'a>,
    draft: &mut Draft<'a>,
    pos: Pos,
    base: &'a Expr,
    name: &'a Text,
) -> Result<(), NoMemory> {
    if is_idle(scene, base) {
        return Ok(());
    }
    expression(scene, draft, base)?;
    draft.plain(Opcode::Dup, 0, 0, pos)?;
    let there = draft.leap(Opcode::JumpIf, 0, pos)?;
    draft.named(Opcode::Attr, name, pos)?;
    draft.land(there)?;
    draft.give_up(1, pos)
}

// Whether evaluating an expression does nothing and never gives null: `self`, a class, or an enum, each reached so.
fn is_idle(scene: &Scene<'_>, expr: &Expr) -> bool {
    match &expr.kind {
        ExprKind::Me | ExprKind::Preload(_) => true,
        ExprKind::Name(_) => is_fixed(scene, expr),
        ExprKind::Attr(base, _) => is_fixed(scene, expr) && is_idle(scene, base.get()),
        _ => false,
    }
}

// Whether a name or an attribute stands for a class or an enum.
fn is_fixed(scene: &Scene<'_>, expr: &Expr) -> bool {
    if scene.is_class(expr) {
        return true;
    }
    match scene.found(expr.pos) {
        Some(Found::Member(member)) => scene.declared().enumeration(member).is_some(),
        _ => false,
    }
}
