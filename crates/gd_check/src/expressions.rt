//! The expressions inside an expression in one list.
use gd_syntax::{Expr, ExprKind, Pos};
use no_memory::NoMemory;

/// What an expression stands for.
#[derive(Clone, Copy, Debug, PartialEq, Eq)]
pub enum Role {
    /// A value, which a void call and a class are not.
    Value,
    /// What stands before a dot: a value or a class.
    Receiver,
    /// A statement of its own: a value, a void call or a class.
    Statement,
    /// The value of a constant: a value or a class.
    Constant,
    /// What an assignment writes.
    Target,
}

/// An expression, and what it stands for.
#[derive(Clone, Copy)]
pub struct Part<'a> {
    pub expr: &'a Expr,
    pub role: Role,
}

/// Adds an expression, behind the expressions inside it. A name or attribute that is called is none for itself.
pub fn flatten<'a>(expr: &'a Expr, role: Role, found: &mut Vec<Part<'a>>) -> Result<(), NoMemory> {
    match &expr.kind {
        ExprKind::ArrayLit(items) => {
            for item in items.as_slice() {
                flatten(item, Role::Value, found)?;
            }
        }
        ExprKind::DictLit(pairs) => {
            for (key, value) in pairs.as_slice() {
                flatten(key, Role::Value, found)?;
                flatten(value, Role::Value, found)?;
            }
        }
        ExprKind::Unary(_, operand) => flatten(operand.get(), Role::Value, found)?,
        ExprKind::Cast(operand, _) | ExprKind::Test(operand, _, _) => {
            flatten(operand.get(), Role::Value, found)?;
        }
        ExprKind::Binary(_, left, right) | ExprKind::Index(left, right) => {
            flatten(left.get(), Role::Value, found)?;
            flatten(right.get(), Role::Value, found)?;
        }
        ExprKind::And(left, right) | ExprKind::Or(left, right) => {
            flatten(left.get(), Role::Value, found)?;
            flatten(right.get(), Role::Value, found)?;
        }
        ExprKind::Choose(value, condition, other) => {
            flatten(value.get(), Role::Value, found)?;
            flatten(condition.get(), Role::Value, found)?;
            flatten(other.get(), Role::Value, found)?;
        }
        ExprKind::Attr(base, _) => flatten(base.get(), Role::Receiver, found)?,
        ExprKind::Call(callee, arguments) => {
            match &callee.get().kind {
                ExprKind::Name(_) => {}
                ExprKind::Attr(base, _) => flatten(base.get(), Role::Receiver, found)?,
                _ => flatten(callee.get(), Role::Value, found)?,
            }
            for argument in arguments.as_slice() {
                flatten(argument, Role::Value, found)?;
            }
        }
        ExprKind::Super(_, _, arguments) => {
            for argument in arguments.as_slice() {
                flatten(argument, Role::Value, found)?;
            }
        }
        _ => {}
    }
    found.push(Part { expr, role })?;
    Ok(())
}

/// The first token of an expression, parentheses around its left end aside.
pub fn first_token(expr: &Expr) -> Pos {
    match &expr.kind {
        ExprKind::Binary(_, left, _) | ExprKind::And(left, _) | ExprKind::Or(left, _) => {
            first_token(left.get())
        }
        ExprKind::Choose(left, _, _) | ExprKind::Index(left, _) | ExprKind::Call(left, _) => {
            first_token(left.get())
        }
        ExprKind::Cast(left, _) | ExprKind::Test(left, _, _) | ExprKind::Attr(left, _) => {
            first_token(left.get())
        }
        ExprKind::Super(word, _, _) => *word,
        _ => expr.pos,
    }
}
