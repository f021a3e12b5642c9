//! Statements that hold no block.
ghost use Rattle.std.specs.Prelude.{◌<◌, OnSome};
ghost use Rattle.gd_cursor.specs.Cursor.{left, Takes};

use gd_cursor::{Cursor, Edge, Stop};
use gd_expression::{Assignment, Role, assignment_of, expression, named};
use gd_syntax::{Keyword, Mark, StmtKind, TokenKind};
use sqlite_items::Boxed;

/// A statement that holds no block, without what ends it.
pub fn simple(cursor: &mut Cursor<'_>) -> Result<StmtKind, Stop>
    ensures { Takes cursor.old cursor.new result }
{
    match first_word(cursor) {
        Some(Keyword::Pass | Keyword::Break | Keyword::Continue) => single(cursor),
        Some(Keyword::Return) => return_statement(cursor),
        Some(Keyword::Var) => local(cursor),
        Some(Keyword::Const) => local_constant(cursor),
        Some(Keyword::Assert) => assertion(cursor),
        _ => expression_statement(cursor),
    }
}

/// The keyword that stands next.
fn first_word(cursor: &Cursor<'_>) -> Option<Keyword>
    ensures { OnSome result (0 < left cursor.now) }
{
    match cursor.peek() {
        Some(TokenKind::Keyword(word)) => Some(*word),
        _ => None,
    }
}

/// `pass`, `break` or `continue`
fn single(cursor: &mut Cursor<'_>) -> Result<StmtKind, Stop>
    ensures { Takes cursor.old cursor.new result }
{
    if cursor.eat_word(Keyword::Pass) {
        return Ok(StmtKind::Pass);
    }
    if cursor.eat_word(Keyword::Break) {
        return Ok(StmtKind::Break);
    }
    cursor.expect_word(Keyword::Continue)?;
    Ok(StmtKind::Continue)
}

/// `var NAME ..`
fn local(cursor: &mut Cursor<'_>) -> Result<StmtKind, Stop>
    ensures { Takes cursor.old cursor.new result }
{
    cursor.expect_word(Keyword::Var)?;
    let declared = named(cursor, Role::Local)?.0;
    Ok(StmtKind::Local(Boxed::new(cursor.alloc, declared)?))
}

/// `const NAME ..`
fn local_constant(cursor: &mut Cursor<'_>) -> Result<StmtKind, Stop>
    ensures { Takes cursor.old cursor.new result }
{
    cursor.expect_word(Keyword::Const)?;
    let declared = named(cursor, Role::Constant)?.0;
    Ok(StmtKind::LocalConst(Boxed::new(cursor.alloc, declared)?))
}

/// `return [expr]`
fn return_statement(cursor: &mut Cursor<'_>) -> Result<StmtKind, Stop>
    ensures { Takes cursor.old cursor.new result }
{
    cursor.expect_word(Keyword::Return)?;
    if cursor.sees_edge(Edge::Newline) || cursor.sees(Mark::Semicolon) {
        return Ok(StmtKind::Return(None));
    }
    Ok(StmtKind::Return(Some(expression(cursor)?)))
}

/// `assert "(" expr ["," expr] [","] ")"`
fn assertion(cursor: &mut Cursor<'_>) -> Result<StmtKind, Stop>
    ensures { Takes cursor.old cursor.new result }
{
    cursor.expect_word(Keyword::Assert)?;
    cursor.expect(Mark::LeftParen)?;
    let condition = expression(cursor)?;
    if cursor.eat(Mark::RightParen) {
        return Ok(StmtKind::Assert(condition, None));
    }
    cursor.expect(Mark::Comma)?;
    if cursor.eat(Mark::RightParen) {
        return Ok(StmtKind::Assert(condition, None));
    }
    let message = expression(cursor)?;
    cursor.eat(Mark::Comma);
    cursor.expect(Mark::RightParen)?;
    Ok(StmtKind::Assert(condition, Some(message)))
}

/// `expr [ASSIGN expr]`
fn expression_statement(cursor: &mut Cursor<'_>) -> Result<StmtKind, Stop>
    ensures { Takes cursor.old cursor.new result }
{
    let target = expression(cursor)?;
    let Some(assignment) = next_assignment(cursor) else {
        return Ok(StmtKind::Plain(target));
    };
    let pos = cursor.here();
    cursor.take();
    let value = expression(cursor)?;
    let operator = match assignment {
        Assignment::Plain => None,
        Assignment::Compound(operator) => Some(operator),
    };
    Ok(StmtKind::Assign(operator, pos, target, value))
}

/// The assignment mark that stands next.
fn next_assignment(cursor: &Cursor<'_>) -> Option<Assignment> {
    assignment_of(cursor.peek()?)
}
