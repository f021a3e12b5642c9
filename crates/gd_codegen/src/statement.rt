//! The code of statements. Outside of expressions the stack has the subjects of the `for` and `match` statements
//! around.
//!
//! | Statement | Code |
//! |---|---|
//! | `pass` | none |
//! | `return`, `return x` | Push null or x, Return |
//! | an expression | x, Drop 1; of a class the way to it |
//! | an assignment | `assignments` |
//! | `var v = x`, `var v` | x or the start value of the type, Set |
//! | a local `const` | none: its value is a constant of the program |
//! | `if c` .. `else` | for each condition c, JumpIfNot next, its block, Jump end; next: the block of `else`; end: |
//! | `while`, `for`, `break`, `continue` | `loops` |
//! | `match` | `matches` |
//! | `assert(c, m)` | c, JumpIf end; m, Fail; end: |
//! | the end of a block | Clear of its locals |

use crate::action::{Action, Literal};
use crate::assignments::{Right, assign};
use crate::attributes::reach_class;
use crate::draft::Draft;
use crate::expression::expression;
use crate::literals::start_value;
use crate::loops::{begin_for, begin_while, break_loop, continue_loop, end_for, end_while};
use crate::matches::match_branches;
use crate::scene::Scene;
use gd_bytecode::Opcode;
use gd_syntax::{Expr, Pos, Stmt, StmtKind, VarDecl};
use no_memory::NoMemory;

/// Statements one after another.
#[cycle(statement)]
pub fn statements<'a>(
    scene: &Scene<'a>,
    draft: &mut Draft<'a>,
    body: &'a [Stmt],
) -> Result<(), NoMemory> {
    for stmt in body {
        statement(scene, draft, stmt)?;
    }
    Ok(())
}

// A block is statements whose locals are given up together behind them.
#[cycle(statement)]
fn statement<'a>(scene: &Scene<'a>, draft: &mut Draft<'a>, stmt: &'a Stmt) -> Result<(), NoMemory> {
    let pos = stmt.pos;
    match &stmt.kind {
        StmtKind::If(_, _) => if_else(scene, draft, stmt),
        StmtKind::While(condition, body) => {
            let begun = begin_while(scene, draft, pos)?;
            statements(scene, draft, body.as_slice())?;
            end_while(scene, draft, begun, condition)
        }
        StmtKind::For(_, variable, _, word, subject, body) => {
            let begun = begin_for(scene, draft, *variable, *word, subject)?;
            statements(scene, draft, body.as_slice())?;
            end_for(draft, begun)
        }
        StmtKind::Match(subject, branches) => {
            expression(scene, draft, subject)?;
            match_branches(scene, draft, pos, branches.as_slice())
        }
        _ => simple(scene, draft, stmt),
    }
}

// A statement without blocks.
fn simple<'a>(scene: &Scene<'a>, draft: &mut Draft<'a>, stmt: &'a Stmt) -> Result<(), NoMemory> {
    let pos = stmt.pos;
    match &stmt.kind {
        StmtKind::Break => break_loop(draft, pos),
        StmtKind::Continue => continue_loop(draft, pos),
        StmtKind::Return(value) => {
            optional(scene, draft, value.as_ref(), pos)?;
            draft.plain(Opcode::Return, 0, 0, pos)
        }
        StmtKind::Plain(e) if scene.is_class(e) => reach_class(scene, draft, e),
        StmtKind::Plain(e) => {
            expression(scene, draft, e)?;
            draft.give_up(1, pos)
        }
        StmtKind::Assign(op, at, target, value) => {
            let right = Right {
                at: *at,
                op: *op,
                value,
            };
            assign(scene, draft, target, right)
        }
        StmtKind::Local(variable) => local(scene, draft, variable.get()),
        StmtKind::Assert(condition, message) => {
            assertion(scene, draft, pos, condition, message.as_ref())
        }
        _ => Ok(()),
    }
}

// An expression, or null where there is none.
fn optional<'a>(
    scene: &Scene<'a>,
    draft: &mut Draft<'a>,
    e: Option<&'a Expr>,
    pos: Pos,
) -> Result<(), NoMemory> {
    match e {
        Some(e) => expression(scene, draft, e),
        None => draft.value(Literal::Null, pos),
    }
}

fn local<'a>(
    scene: &Scene<'a>,
    draft: &mut Draft<'a>,
    variable: &'a VarDecl,
) -> Result<(), NoMemory> {
    let ty = scene.local_type(variable.pos)?;
    let at = match (&variable.value, variable.equals) {
        (Some(value), Some(equals)) => {
            expression(scene, draft, value)?;
            equals
        }
        _ => {
            start_value(draft, ty, variable.pos)?;
            variable.pos
        }
    };
    draft.declare(variable.pos, ty)?;
    draft.add(Action::Local(Opcode::Set, variable.pos), at)
}

fn assertion<'a>(
    scene: &Scene<'a>,
    draft: &mut Draft<'a>,
    pos: Pos,
    condition: &'a Expr,
    message: Option<&'a Expr>,
) -> Result<(), NoMemory> {
    expression(scene, draft, condition)?;
    let holds = draft.leap(Opcode::JumpIf, 0, pos)?;
    match message {
        Some(message) => {
            expression(scene, draft, message)?;
            draft.plain(Opcode::Fail, 1, 0, pos)?;
        }
        None => draft.plain(Opcode::Fail, 0, 0, pos)?,
    }
    draft.land(holds)
}

#[cycle(statement)]
fn if_else<'a>(scene: &Scene<'a>, draft: &mut Draft<'a>, stmt: &'a Stmt) -> Result<(), NoMemory> {
    let pos = stmt.pos;
    let StmtKind::If(choices, other) = &stmt.kind else {
        return Ok(());
    };
    let mut ends = Vec::new(scene.alloc);
    let mut left = choices.len();
    for (condition, body) in choices.as_slice() {
        left = left.saturating_sub(1);
        expression(scene, draft, condition)?;
        let next = draft.leap(Opcode::JumpIfNot, 0, pos)?;
        let first = draft.next_slot()?;
        statements(scene, draft, body.as_slice())?;
        draft.clear_from(first, pos)?;
        if left > 0 || other.is_some() {
            ends.push(draft.leap(Opcode::Jump, 0, pos)?)?;
        }
        draft.land(next)?;
    }
    if let Some(body) = other {
        let first = draft.next_slot()?;
        statements(scene, draft, body.as_slice())?;
        draft.clear_from(first, pos)?;
    }
    draft.land_all(&ends)
}
