//! The code of assignments.
//!
//! The parts of the target come first, from left to right, then in a compound assignment the old value, then the right
//! side and in a compound one Op. A value for a place whose type the analysis knows is tested at the assignment's
//! operator.
//!
//! | Target | Old value | Write |
//! |---|---|---|
//! | a local | Get | Set |
//! | a static variable, by its bare name or through a class | Static | SetStatic |
//! | a variable of the instance, in its own accessors or without a setter | as the name is read | SetOwn |
//! | a variable of the instance with a setter: Me first | as the name is read | SetAttr |
//! | an attribute of a value: the value first | Dup 0, Attr | Test, SetAttr |
//! | a subscript: base and index first | Dup 1, Dup 1, Index | Test, SetIndex |
//!
//! What writes a bare name tests the value by itself.

use crate::action::Action;
use crate::attributes::reach_class;
use crate::draft::Draft;
use crate::expression::{expression, operator};
use crate::names::{read_found, read_local};
use crate::scene::Scene;
use gd_bytecode::Opcode;
use gd_members::{Found, MemberId};
use gd_syntax::{DeclKind, Expr, ExprKind, Operator, Pos, Text, VarDecl};
use no_memory::NoMemory;

/// The right side of an assignment: the place of the assignment's operator, the operator of a compound one, and the
/// value.
#[derive(Clone, Copy)]
pub struct Right<'a> {
    pub at: Pos,
    pub op: Option<Operator>,
    pub value: &'a Expr,
}

/// An assignment.
pub fn assign<'a>(
    scene: &Scene<'a>,
    draft: &mut Draft<'a>,
    target: &'a Expr,
    right: Right<'a>,
) -> Result<(), NoMemory> {
    match &target.kind {
        ExprKind::Name(name) => assign_name(scene, draft, target.pos, name, right),
        ExprKind::Attr(base, name) if scene.is_class(base.get()) => {
            reach_class(scene, draft, base.get())?;
            assign_found(scene, draft, target.pos, name, right)
        }
        ExprKind::Attr(base, name) => {
            assign_attribute(scene, draft, target, base.get(), name, right)
        }
        ExprKind::Index(base, index) => {
            assign_subscript(scene, draft, target, (base.get(), index.get()), right)
        }
        _ => Ok(()),
    }
}

fn assign_name<'a>(
    scene: &Scene<'a>,
    draft: &mut Draft<'a>,
    pos: Pos,
    name: &'a Text,
    right: Right<'a>,
) -> Result<(), NoMemory> {
    let Some(declares) = scene.typed.local_at(pos) else {
        return assign_found(scene, draft, pos, name, right);
    };
    if right.op.is_some() {
        read_local(scene, draft, declares, pos)?;
    }
    new_value(scene, draft, right)?;
    draft.add(Action::Local(Opcode::Set, declares), right.at)
}

// A variable that a bare name, or a name behind a class, was found to be.
fn assign_found<'a>(
    scene: &Scene<'a>,
    draft: &mut Draft<'a>,
    pos: Pos,
    name: &'a Text,
    right: Right<'a>,
) -> Result<(), NoMemory> {
    let found = scene.found(pos);
    let Some((member, variable)) = variable_found(scene, found) else {
        return Ok(());
    };
    let by_setter = !variable.is_static && variable.setter.is_some() && !scene.is_direct(member);
    if by_setter {
        draft.plain(Opcode::Me, 0, 0, right.at)?;
    }
    if right.op.is_some() {
        read_found(scene, draft, found, pos, name)?;
    }
    new_value(scene, draft, right)?;
    if variable.is_static {
        draft.add(
            Action::Static(Opcode::SetStatic, name, member.class),
            right.at,
        )
    } else if by_setter {
        draft.named(Opcode::SetAttr, name, right.at)
    } else {
        draft.named(Opcode::SetOwn, name, right.at)
    }
}

fn variable_found<'a>(scene: &Scene<'a>, found: Option<Found>) -> Option<(MemberId, &'a VarDecl)> {
    let Some(Found::Member(member)) = found else {
        return None;
    };
    match scene.kind(member)? {
        DeclKind::Var(variable) => Some((member, variable)),
        _ => None,
    }
}

fn assign_attribute<'a>(
    scene: &Scene<'a>,
    draft: &mut Draft<'a>,
    target: &'a Expr,
    base: &'a Expr,
    name: &'a Text,
    right: Right<'a>,
) -> Result<(), NoMemory> {
    expression(scene, draft, base)?;
    if right.op.is_some() {
        draft.plain(Opcode::Dup, 0, 0, target.pos)?;
        draft.named(Opcode::Attr, name, target.pos)?;
    }
    new_value(scene, draft, right)?;
    draft.test(scene.place_type(target)?, right.at)?;
    draft.named(Opcode::SetAttr, name, target.pos)
}

fn assign_subscript<'a>(
    scene: &Scene<'a>,
    draft: &mut Draft<'a>,
    target: &'a Expr,
    parts: (&'a Expr, &'a Expr),
    right: Right<'a>,
) -> Result<(), NoMemory> {
    expression(scene, draft, parts.0)?;
    expression(scene, draft, parts.1)?;
    if right.op.is_some() {
        draft.plain(Opcode::Dup, 1, 0, target.pos)?;
        draft.plain(Opcode::Dup, 1, 0, target.pos)?;
        draft.plain(Opcode::Index, 0, 0, target.pos)?;
    }
    new_value(scene, draft, right)?;
    draft.test(scene.place_type(target)?, right.at)?;
    draft.plain(Opcode::SetIndex, 0, 0, target.pos)
}

// The value that is written, in a compound assignment above the old one.
fn new_value<'a>(
    scene: &Scene<'a>,
    draft: &mut Draft<'a>,
    right: Right<'a>,
) -> Result<(), NoMemory> {
    expression(scene, draft, right.value)?;
    match right.op {
        Some(op) => operator(draft, op, right.at),
        None => Ok(()),
    }
}
