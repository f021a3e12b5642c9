//! What holds at one expression, of the types of its parts.
use crate::calls::{call_of, examine_call};
use crate::expressions::{Part, Role};
use crate::findings::Findings;
use crate::scene::Scene;
use gd_model::Ty;
use gd_rules::Rule;
use gd_syntax::{Expr, ExprKind, Text};
use gd_typing::{
    Finding, Name, Receiver, Verdict, attribute, bare_name, binary, cast, choose, logic, me,
    receiver_of, subscript, test, unary,
};
use no_memory::NoMemory;

/// Looks at one expression, those inside it aside.
pub fn examine_part(
    scene: &Scene<'_>,
    part: &Part<'_>,
    found: &mut Findings,
) -> Result<(), NoMemory> {
    let pos = part.expr.pos;
    let ty = match call_of(scene, part.expr)? {
        Some(call) => examine_call(scene, part.expr, call, found)?,
        None => {
            let verdict = judge(scene, part.expr, found)?;
            found.add(as_target(verdict.finding, part.role), pos)?;
            verdict.ty
        }
    };
    found.error_if(is_no_value(&ty, part.role), Rule::NotAValue, pos)
}

/// A29: whether an expression of this type may not stand for this.
fn is_no_value(ty: &Ty, role: Role) -> bool {
    match role {
        Role::Value => matches!(ty, Ty::Void | Ty::Meta(_)),
        Role::Receiver | Role::Constant => matches!(ty, Ty::Void),
        Role::Statement | Role::Target => false,
    }
}

/// A builtin's name as a target is no target, and nothing else.
fn as_target(finding: Finding, role: Role) -> Finding {
    match (role, finding.rule) {
        (Role::Target, Some(Rule::NotAValue | Rule::TypeIsNoValue)) => Finding::none(),
        _ => finding,
    }
}

/// The type of an expression that is no call, and what holds there. Of a literal the type is that of a value, since no rule
/// holds there. What is wrong with a type in it is told where that stands.
fn judge(scene: &Scene<'_>, expr: &Expr, found: &mut Findings) -> Result<Verdict, NoMemory> {
    let facts = &scene.facts;
    let alloc = scene.alloc;
    match &expr.kind {
        ExprKind::Name(name) => judge_name(scene, expr, name),
        ExprKind::Me => Ok(me(scene.setting.class, scene.setting.is_static)),
        ExprKind::Unary(op, a) => unary(alloc, *op, facts.ty(a.get())),
        ExprKind::Binary(op, a, b) => binary(alloc, *op, facts.ty(a.get()), facts.ty(b.get())),
        ExprKind::And(a, b) | ExprKind::Or(a, b) => Ok(logic(facts.ty(a.get()), facts.ty(b.get()))),
        ExprKind::Choose(x, c, y) => {
            let (x, c, y) = (facts.ty(x.get()), facts.ty(c.get()), facts.ty(y.get()));
            choose(alloc, facts.table(), x, c, y)
        }
        ExprKind::Cast(of, written) => {
            let ty = scene.examined_type(written.get(), found)?;
            cast(alloc, facts.table(), facts.ty(of.get()), &ty)
        }
        ExprKind::Test(of, written, _) => {
            let ty = scene.examined_type(written.get(), found)?;
            Ok(test(facts.table(), facts.ty(of.get()), &ty))
        }
        ExprKind::Attr(base, name) => judge_attribute(scene, base.get(), name),
        ExprKind::Index(base, index) => {
            let (base, index) = (facts.ty(base.get()), facts.ty(index.get()));
            subscript(alloc, facts.table(), base, index)
        }
        ExprKind::Preload(path) => Ok(judge_preload(scene, path)),
        _ => Ok(Verdict::fine(Ty::Variant)),
    }
}

fn judge_name(scene: &Scene<'_>, expr: &Expr, name: &Text) -> Result<Verdict, NoMemory> {
    let facts = &scene.facts;
    if let Some(local) = facts.local(expr.pos) {
        return Ok(Verdict::fine(local.ty.copy(scene.alloc)?));
    }
    let name = bare_name(
        scene.alloc,
        facts.table(),
        facts.declared(),
        facts.typed,
        scene.setting.class,
        scene.setting.is_static,
        name,
    )?;
    Ok(known(name))
}

fn judge_attribute(scene: &Scene<'_>, base: &Expr, name: &Text) -> Result<Verdict, NoMemory> {
    let facts = &scene.facts;
    let name = attribute(
        scene.alloc,
        facts.table(),
        facts.declared(),
        facts.typed,
        before_dot(scene, base),
        name,
    )?;
    Ok(known(name))
}

/// What a name is. One that waits for an item which inference gave up is Bad.
fn known(name: Name) -> Verdict {
    match name {
        Name::Known(found) => found.verdict,
        Name::Unknown(_) => Verdict::bad(),
    }
}

/// The class that a path names. The place of a path that names none is told where the table was built.
fn judge_preload(scene: &Scene<'_>, path: &Text) -> Verdict {
    match scene.facts.table().preload_class(scene.setting.class, path) {
        Some(class) => Verdict::fine(Ty::Meta(class)),
        None => Verdict::bad(),
    }
}

/// What stands before a dot.
pub fn before_dot<'a>(scene: &Scene<'a>, base: &Expr) -> Receiver<'a> {
    let facts = &scene.facts;
    match &base.kind {
        ExprKind::Me if !scene.setting.is_static => Receiver::Me(scene.setting.class),
        _ => receiver_of(facts.declared(), facts.found(base.pos), facts.ty(base)),
    }
}
