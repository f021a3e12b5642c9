//! The code of expressions: it leaves the value of the expression on the stack.

use crate::action::{Action, Literal};
use crate::attributes::{attribute, reach_class};
use crate::calls::{end_call, own_receiver, plan_of, super_plan};
use crate::draft::{Draft, Leap};
use crate::literals::{
    element_type, key_type, literal_type, make_array, make_dictionary, value_type,
};
use crate::names::read_name;
use crate::scene::Scene;
use crate::type_code::{TypeCode, VARIANT};
use gd_bytecode::Opcode;
use gd_syntax::{Expr, ExprKind, Operator, Pos, TypeName};
use no_memory::NoMemory;

/// The code of an expression. A class, which is no value, is null.
///
/// | Expression | Code |
/// |---|---|
/// | a literal, `preload` | Push |
/// | `self` | Me |
/// | others | as their functions say |
#[cycle(expression)]
pub fn expression<'a>(
    scene: &Scene<'a>,
    draft: &mut Draft<'a>,
    e: &'a Expr,
) -> Result<(), NoMemory> {
    let pos = e.pos;
    match &e.kind {
        ExprKind::Null | ExprKind::Preload(_) => draft.value(Literal::Null, pos),
        ExprKind::Bool(b) => draft.value(Literal::Bool(*b), pos),
        ExprKind::Int(n) => draft.value(Literal::Int(*n), pos),
        ExprKind::Str(text) => draft.value(Literal::Text(text), pos),
        ExprKind::Name(name) => read_name(scene, draft, pos, name),
        ExprKind::Me => draft.plain(Opcode::Me, 0, 0, pos),
        ExprKind::Attr(base, name) => attribute(scene, draft, pos, base.get(), name),
        ExprKind::ArrayLit(_)
        | ExprKind::DictLit(_)
        | ExprKind::Call(_, _)
        | ExprKind::Super(_, _, _) => listed(scene, draft, e),
        _ => operation(scene, draft, e),
    }
}

// An expression with a list of parts: a literal (`literals`) or a call (`calls`).
#[cycle(expression)]
fn listed<'a>(scene: &Scene<'a>, draft: &mut Draft<'a>, e: &'a Expr) -> Result<(), NoMemory> {
    let pos = e.pos;
    match &e.kind {
        ExprKind::ArrayLit(items) => {
            let ty = literal_type(scene, pos)?;
            all(scene, draft, items.as_slice(), element_type(ty))?;
            make_array(draft, items.len(), ty, pos)
        }
        ExprKind::DictLit(pairs) => {
            let ty = literal_type(scene, pos)?;
            keys_and_values(scene, draft, pairs.as_slice(), ty)?;
            make_dictionary(draft, pairs.len(), ty, pos)
        }
        ExprKind::Call(callee, arguments) => {
            let plan = plan_of(scene, pos, callee.get(), arguments.as_slice());
            own_receiver(draft, &plan, pos)?;
            before_dot(scene, draft, callee.get())?;
            if plan.takes_arguments() {
                all(scene, draft, arguments.as_slice(), VARIANT)?;
            }
            end_call(scene, draft, &plan, pos)
        }
        ExprKind::Super(_, _, arguments) => {
            let plan = super_plan(scene, pos, arguments.as_slice());
            if plan.takes_arguments() {
                all(scene, draft, arguments.as_slice(), VARIANT)?;
            }
            end_call(scene, draft, &plan, pos)
        }
        _ => draft.value(Literal::Null, pos),
    }
}

/// The values of expressions, each tested against a type at its first token.
#[cycle(expression)]
pub fn all<'a>(
    scene: &Scene<'a>,
    draft: &mut Draft<'a>,
    items: &'a [Expr],
    ty: TypeCode,
) -> Result<(), NoMemory> {
    for item in items {
        expression(scene, draft, item)?;
        draft.test(ty, first_token(item))?;
    }
    Ok(())
}

// Keys and values in turn, each tested against its type in a dictionary of this one.
#[cycle(expression)]
fn keys_and_values<'a>(
    scene: &Scene<'a>,
    draft: &mut Draft<'a>,
    pairs: &'a [(Expr, Expr)],
    ty: TypeCode,
) -> Result<(), NoMemory> {
    for (key, value) in pairs {
        expression(scene, draft, key)?;
        draft.test(key_type(ty), first_token(key))?;
        expression(scene, draft, value)?;
        draft.test(value_type(ty), first_token(value))?;
    }
    Ok(())
}

// What stands before the dot of what is called: a value, or the way to a class.
#[cycle(expression)]
fn before_dot<'a>(
    scene: &Scene<'a>,
    draft: &mut Draft<'a>,
    callee: &'a Expr,
) -> Result<(), NoMemory> {
    match &callee.kind {
        ExprKind::Attr(base, _) => {
            if scene.is_class(base.get()) {
                reach_class(scene, draft, base.get())
            } else {
                expression(scene, draft, base.get())
            }
        }
        _ => Ok(()),
    }
}

// An operation on the values of its parts.
//
// | Operation | Code |
// |---|---|
// | a unary operator | the operand, Op |
// | a binary operator, a subscript | left, right, Op or Index |
// | a cast | the value, As |
// | a test of a type | the value, Is; of `is not` then Op `not` |
#[cycle(expression)]
fn operation<'a>(scene: &Scene<'a>, draft: &mut Draft<'a>, e: &'a Expr) -> Result<(), NoMemory> {
    let pos = e.pos;
    match &e.kind {
        ExprKind::Unary(op, operand) => {
            expression(scene, draft, operand.get())?;
            operator(draft, *op, pos)
        }
        ExprKind::Binary(op, left, right) => {
            expression(scene, draft, left.get())?;
            expression(scene, draft, right.get())?;
            operator(draft, *op, pos)
        }
        ExprKind::Index(base, index) => {
            expression(scene, draft, base.get())?;
            expression(scene, draft, index.get())?;
            draft.plain(Opcode::Index, 0, 0, pos)
        }
        ExprKind::Cast(value, written) => {
            expression(scene, draft, value.get())?;
            typed(scene, draft, Opcode::As, written.get(), pos)
        }
        ExprKind::Test(value, written, is_negated) => {
            expression(scene, draft, value.get())?;
            typed(scene, draft, Opcode::Is, written.get(), pos)?;
            if *is_negated {
                operator(draft, Operator::Not, pos)?;
            }
            Ok(())
        }
        _ => choice(scene, draft, e),
    }
}

// An expression that evaluates only what it needs. A condition uses up its value at once.
//
// | Expression | Code |
// |---|---|
// | `x and y` | x, JumpIfNot no; y, Truth, Jump end; no: Push false; end: |
// | `x or y` | x, JumpIf yes; y, Truth, Jump end; yes: Push true; end: |
// | `x if c else y` | c, JumpIfNot no; x, Jump end; no: y; end: |
#[cycle(expression)]
fn choice<'a>(scene: &Scene<'a>, draft: &mut Draft<'a>, e: &'a Expr) -> Result<(), NoMemory> {
    match &e.kind {
        ExprKind::And(left, right) => {
            expression(scene, draft, left.get())?;
            let no = draft.leap(Opcode::JumpIfNot, 0, e.pos)?;
            expression(scene, draft, right.get())?;
            truth_or(draft, no, false, e.pos)
        }
        ExprKind::Or(left, right) => {
            expression(scene, draft, left.get())?;
            let yes = draft.leap(Opcode::JumpIf, 0, e.pos)?;
            expression(scene, draft, right.get())?;
            truth_or(draft, yes, true, e.pos)
        }
        ExprKind::Choose(value, condition, other) => {
            expression(scene, draft, condition.get())?;
            let no = draft.leap(Opcode::JumpIfNot, 0, e.pos)?;
            expression(scene, draft, value.get())?;
            let end = draft.leap(Opcode::Jump, 0, e.pos)?;
            draft.land(no)?;
            expression(scene, draft, other.get())?;
            draft.land(end)
        }
        _ => draft.value(Literal::Null, e.pos),
    }
}

// The end of `and` and `or`: the truth of the top, or where the jump leads here this value.
fn truth_or(draft: &mut Draft<'_>, known: Leap, settled: bool, pos: Pos) -> Result<(), NoMemory> {
    draft.plain(Opcode::Truth, 0, 0, pos)?;
    let end = draft.leap(Opcode::Jump, 0, pos)?;
    draft.land(known)?;
    draft.value(Literal::Bool(settled), pos)?;
    draft.land(end)
}

/// An operator on the values on the top.
pub fn operator(draft: &mut Draft<'_>, op: Operator, pos: Pos) -> Result<(), NoMemory> {
    draft.plain(Opcode::Op, op as u32, 0, pos)
}

fn typed<'a>(
    scene: &Scene<'a>,
    draft: &mut Draft<'a>,
    op: Opcode,
    written: &TypeName,
    pos: Pos,
) -> Result<(), NoMemory> {
    let ty = scene.written(written)?;
    draft.add(Action::Typed(op, ty), pos)
}

/// The first token of an expression, parentheses around its left end aside.
pub fn first_token(e: &Expr) -> Pos {
    match &e.kind {
        ExprKind::Binary(_, left, _) | ExprKind::And(left, _) | ExprKind::Or(left, _) => {
            first_token(left.get())
        }
        ExprKind::Choose(left, _, _) | ExprKind::Index(left, _) | ExprKind::Call(left, _) => {
            first_token(left.get())
        }
        ExprKind::Cast(left, _) | ExprKind::Test(left, _, _) | ExprKind::Attr(left, _) => {
            first_token(left.get())
        }
        ExprKind::Super(word, _, _) => *word,
        _ => e.pos,
    }
}
