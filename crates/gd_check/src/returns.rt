//! Whether a body returns on every path.
use gd_syntax::{Branch, Expr, ExprKind, Pattern, PatternKind, Stmt, StmtKind};

/// Whether one of the statements of a block returns on every path.
#[cycle(returns)]
pub fn block_returns(block: &[Stmt]) -> bool {
    for stmt in block {
        if returns(stmt) {
            return true;
        }
    }
    false
}

/// Whether a statement returns: a `return`; an `if` with `else` whose blocks all return; a `match` whose branches all
/// return and one of which takes everything; an endless loop that nothing leaves.
#[cycle(returns)]
fn returns(stmt: &Stmt) -> bool {
    match &stmt.kind {
        StmtKind::Return(_) => true,
        StmtKind::If(choices, Some(other)) => {
            for (_, block) in choices.as_slice() {
                if !block_returns(block.as_slice()) {
                    return false;
                }
            }
            block_returns(other.as_slice())
        }
        StmtKind::Match(_, branches) => {
            for branch in branches.as_slice() {
                if !block_returns(branch.body.as_slice()) {
                    return false;
                }
            }
            branches.as_slice().iter().any(takes_all)
        }
        StmtKind::While(condition, block) => is_true(condition) && !breaks(block.as_slice()),
        _ => false,
    }
}

/// Whether a branch takes each value: its only pattern is `_` or a binding, and no guard stands.
fn takes_all(branch: &Branch) -> bool {
    branch.guard.is_none() && is_one_catch_all(branch.patterns.items())
}

fn is_one_catch_all(patterns: &[Pattern]) -> bool {
    match patterns {
        [only] => matches!(&only.kind, PatternKind::Any | PatternKind::Bind(_)),
        _ => false,
    }
}

fn is_true(e: &Expr) -> bool {
    matches!(&e.kind, ExprKind::Bool(true))
}

/// Whether a block has a `break` of the loop around it.
pub fn breaks(block: &[Stmt]) -> bool {
    for stmt in block {
        match &stmt.kind {
            StmtKind::Break => return true,
            StmtKind::If(choices, other) => {
                for (_, inner) in choices.as_slice() {
                    if breaks(inner.as_slice()) {
                        return true;
                    }
                }
                if let Some(inner) = other {
                    if breaks(inner.as_slice()) {
                        return true;
                    }
                }
            }
            StmtKind::Match(_, branches) => {
                for branch in branches.as_slice() {
                    if breaks(branch.body.as_slice()) {
                        return true;
                    }
                }
            }
            _ => {}
        }
    }
    false
}
