//! The rules of calls.
use crate::expressions::first_token;
use crate::findings::Findings;
use crate::judged::before_dot;
use crate::scene::Scene;
use crate::setting::Code;
use crate::values::examine_literal;
use gd_model::Ty;
use gd_syntax::{Expr, ExprKind, Text};
use gd_typing::{
    Call, Callee, argument, bare_callee, called_value, finished, method_callee, parameter_at,
    super_callee,
};
use no_memory::NoMemory;
use value_semantics::Builtin;

/// What a call calls; none where the expression is no call.
pub fn call_of(scene: &Scene<'_>, expr: &Expr) -> Result<Option<Call>, NoMemory> {
    match &expr.kind {
        ExprKind::Call(callee, _) => Ok(Some(call_of_callee(scene, callee.get())?)),
        ExprKind::Super(_, Some(name), _) => Ok(Some(call_of_super(scene, Some(name.get()))?)),
        ExprKind::Super(_, None, _) => Ok(Some(call_of_super(scene, own_name(scene))?)),
        _ => Ok(None),
    }
}

fn call_of_callee(scene: &Scene<'_>, callee: &Expr) -> Result<Call, NoMemory> {
    let facts = &scene.facts;
    match &callee.kind {
        ExprKind::Name(name) => call_of_name(scene, callee, name),
        ExprKind::Attr(base, name) => {
            let receiver = before_dot(scene, base.get());
            method_callee(scene.alloc, facts.table(), facts.declared(), receiver, name)
        }
        _ => Ok(called_value(facts.ty(callee))),
    }
}

fn call_of_name(scene: &Scene<'_>, callee: &Expr, name: &Text) -> Result<Call, NoMemory> {
    let facts = &scene.facts;
    if let Some(local) = facts.local(callee.pos) {
        return Ok(called_value(&local.ty));
    }
    bare_callee(
        scene.alloc,
        facts.table(),
        facts.declared(),
        scene.setting.class,
        scene.setting.is_static,
        name,
    )
}

fn call_of_super(scene: &Scene<'_>, name: Option<&Text>) -> Result<Call, NoMemory> {
    super_callee(
        scene.alloc,
        scene.facts.table(),
        scene.facts.declared(),
        scene.setting.class,
        scene.setting.is_static,
        name,
    )
}

/// The name of the function in which code stands, which `super(..)` calls of the base.
fn own_name<'a>(scene: &Scene<'a>) -> Option<&'a Text> {
    match scene.setting.code {
        Code::Function(function) => Some(&function.name),
        _ => None,
    }
}

/// The arguments of a call.
fn arguments_of(expr: &Expr) -> &[Expr] {
    match &expr.kind {
        ExprKind::Call(_, arguments) | ExprKind::Super(_, _, arguments) => arguments.as_slice(),
        _ => &[],
    }
}

/// Looks at a call and its arguments, and answers its type.
pub fn examine_call(
    scene: &Scene<'_>,
    expr: &Expr,
    call: Call,
    found: &mut Findings,
) -> Result<Ty, NoMemory> {
    let arguments = arguments_of(expr);
    let has_bad = scene.facts.has_bad(arguments);
    let callee = call.callee;
    let verdict = finished(scene.facts.declared(), call, arguments.len(), has_bad);
    found.add(verdict.finding, expr.pos)?;
    let receiver = receiver_type(scene, expr);
    for (index, one) in arguments.iter().enumerate() {
        let parameter = parameter_at(
            scene.facts.declared(),
            scene.facts.typed,
            callee,
            receiver,
            index,
        );
        if !has_bad {
            let finding = argument(scene.facts.table(), parameter, scene.facts.ty(one));
            found.add(finding, first_token(one))?;
        }
        if let Some(place) = parameter.place() {
            examine_literal(scene, one, place, found)?;
        }
    }
    Ok(verdict.ty)
}

/// The type of what stands before the dot of a method call.
fn receiver_type<'a>(scene: &Scene<'a>, expr: &Expr) -> Option<&'a Ty> {
    match &expr.kind {
        ExprKind::Call(callee, _) => match &callee.get().kind {
            ExprKind::Attr(base, _) => Some(scene.facts.ty(base.get())),
            _ => None,
        },
        _ => None,
    }
}

/// Whether an expression is a call of `range`, over which a `for` goes without an array.
pub fn is_range(scene: &Scene<'_>, expr: &Expr) -> Result<bool, NoMemory> {
    Ok(match call_of(scene, expr)? {
        Some(call) => matches!(call.callee, Callee::Builtin(Builtin::Range)),
        None => false,
    })
}
