//! The rules of assignments.
use crate::expressions::Role;
use crate::findings::Findings;
use crate::scene::Scene;
use crate::values::{examine, examine_literal};
use gd_model::Ty;
use gd_syntax::{Expr, ExprKind, Operator, Pos};
use gd_typing::{Target, assignment, write_is_marked};
use no_memory::NoMemory;

/// Looks at an assignment whose mark stands at `pos`, with the operator of a compound one.
pub fn examine_assignment(
    scene: &Scene<'_>,
    operator: Option<Operator>,
    pos: Pos,
    target: &Expr,
    value: &Expr,
    found: &mut Findings,
) -> Result<(), NoMemory> {
    examine(scene, target, Role::Target, found)?;
    examine(scene, value, Role::Value, found)?;
    let facts = &scene.facts;
    let place = facts.ty(target);
    let finding = assignment(
        scene.alloc,
        facts.table(),
        facts.declared(),
        target_of(scene, target),
        place,
        operator,
        facts.ty(value),
    )?;
    found.add(finding, pos)?;
    if operator.is_none() {
        examine_literal(scene, value, place, found)?;
    }
    if writes_marked(scene, target) {
        found.mark(target.pos)?;
    }
    Ok(())
}

/// What stands left of the mark.
fn target_of<'a>(scene: &Scene<'a>, target: &Expr) -> Target<'a> {
    let facts = &scene.facts;
    match &target.kind {
        ExprKind::Name(_) => match facts.local(target.pos) {
            Some(local) if local.is_constant => Target::LocalConstant,
            Some(_) => Target::Local,
            None => Target::Found(facts.found(target.pos)),
        },
        ExprKind::Attr(_, _) => Target::Found(facts.found(target.pos)),
        ExprKind::Index(base, _) => Target::Subscript(facts.ty(base.get())),
        _ => Target::Other,
    }
}

/// Whether a mark stands at the write to an element of a container.
fn writes_marked(scene: &Scene<'_>, target: &Expr) -> bool {
    let facts = &scene.facts;
    let table = facts.table();
    match &target.kind {
        ExprKind::Index(base, index) => {
            write_is_marked(table, facts.ty(base.get()), facts.ty(index.get()))
        }
        ExprKind::Attr(base, _) => {
            let base = facts.ty(base.get());
            matches!(base, Ty::Dict | Ty::DictOf(_, _)) && write_is_marked(table, base, &Ty::Str)
        }
        _ => false,
    }
}
