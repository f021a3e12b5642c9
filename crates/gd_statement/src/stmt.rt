//! Statements and blocks.
ghost use Rattle.std.specs.Prelude.{◌<◌, ◌≤◌};
ghost use Rattle.gd_cursor.specs.Cursor.{left, Keeps, Takes};
ghost use Rattle.gd_cursor.specs.Nests.{Nests};

use crate::simple::simple;
use gd_cursor::{Cursor, Edge, Stop};
use gd_expression::{expression, notes, pattern, type_name};
use gd_syntax::{Branch, Expr, Keyword, Mark, Pattern, Seq, Stmt, StmtKind, TypeName};
use sqlite_items::{Boxed, Items};

/// `block = NL Indent stmt {stmt} Dedent | simple {";" simple} [";"] NL`
pub fn block(cursor: &mut Cursor<'_>) -> Result<Vec<Stmt>, Stop>
    ensures { Takes cursor.old cursor.new result }
{
    nested(cursor)
}

/// A block, which may stand inside another.
fn nested(cursor: &mut Cursor<'_>) -> Result<Vec<Stmt>, Stop>
    ensures { Takes cursor.old cursor.new result }
{
    if !cursor.eat_edge(Edge::Newline) {
        return line(cursor);
    }
    cursor.expect_edge(Edge::Indent)?;
    let limit = cursor.left();
    Rules {
        limit,
        block: nested,
    }
    .statements(cursor)
}

/// `simple {";" simple} [";"] NL`
pub fn line(cursor: &mut Cursor<'_>) -> Result<Vec<Stmt>, Stop>
    ensures { Takes cursor.old cursor.new result }
{
    let mut found = Vec::with_capacity(cursor.alloc, 1)?;
    found.push(plain(cursor)?)?;
    'simple: while !cursor.eat_edge(Edge::Newline) {
        cursor.expect(Mark::Semicolon)?;
        if !cursor.sees_edge(Edge::Newline) {
            found.push(plain(cursor)?)?;
        }
    }
    found.shrink_to_fit();
    Ok(found)
}

/// A simple statement without annotations.
fn plain(cursor: &mut Cursor<'_>) -> Result<Stmt, Stop>
    ensures { Takes cursor.old cursor.new result }
{
    let pos = cursor.here();
    let kind = simple(cursor)?;
    Ok(Stmt {
        pos,
        last: cursor.last(),
        notes: Seq::of(Vec::new(cursor.alloc)),
        kind,
    })
}

/// The value, where a statement ends after it.
fn ended<T: Drop>(cursor: &mut Cursor<'_>, value: T) -> Result<T, Stop>
    ensures { Takes cursor.old cursor.new result }
{
    cursor.end()?;
    Ok(value)
}

/// The rules of statements. They read the blocks inside by `block`, so that each is proved by itself.
#[derive(Clone, Copy)]
pub struct Rules<F> {
    /// More than the tokens that are left where a block inside begins.
    limit: usize,
    block: F,
}

impl<F: Fn(&mut Cursor<'_>) -> Result<Vec<Stmt>, Stop>> Rules<F> {
    /// A block inside, after its `:`.
    fn inner(&self, cursor: &mut Cursor<'_>) -> Result<Vec<Stmt>, Stop>
        requires nests { Nests self.now.limit (F.pre self.now.block) (F.post self.now.block) }
        requires within { left cursor.old ≤ self.now.limit }
        ensures { Takes cursor.old cursor.new result }
    {
        cursor.expect(Mark::Colon)?;
        (self.block)(cursor)
    }

    /// `stmt {stmt} Dedent`
    fn statements(&self, cursor: &mut Cursor<'_>) -> Result<Vec<Stmt>, Stop>
        requires nests { Nests self.now.limit (F.pre self.now.block) (F.post self.now.block) }
        requires within { left cursor.old ≤ self.now.limit }
        ensures { Takes cursor.old cursor.new result }
    {
        // Most blocks have one statement.
        let mut found = Vec::with_capacity(cursor.alloc, 1)?;
        found.push(self.statement(cursor)?)?;
        'statements: while !cursor.eat_edge(Edge::Dedent) {
            found.push(self.statement(cursor)?)?;
        }
        found.shrink_to_fit();
        Ok(found)
    }

    /// `stmt = {note} (simple end | if | while | for | match)`
    fn statement(&self, cursor: &mut Cursor<'_>) -> Result<Stmt, Stop>
        requires nests { Nests self.now.limit (F.pre self.now.block) (F.post self.now.block) }
        requires within { left cursor.old ≤ self.now.limit }
        ensures { Takes cursor.old cursor.new result }
    {
        let notes = notes(cursor)?;
        let pos = cursor.here();
        let kind = self.kind(cursor)?;
        Ok(Stmt {
            pos,
            last: cursor.last(),
            notes,
            kind,
        })
    }

    /// A statement without its annotations.
    fn kind(&self, cursor: &mut Cursor<'_>) -> Result<StmtKind, Stop>
        requires nests { Nests self.now.limit (F.pre self.now.block) (F.post self.now.block) }
        requires within { left cursor.old ≤ self.now.limit }
        ensures { Takes cursor.old cursor.new result }
    {
        if cursor.eat_word(Keyword::If) {
            return self.if_statement(cursor);
        }
        if cursor.eat_word(Keyword::While) {
            return self.while_loop(cursor);
        }
        if cursor.eat_word(Keyword::For) {
            return self.for_loop(cursor);
        }
        if cursor.eat_word(Keyword::Match) {
            return self.match_statement(cursor);
        }
        let kind = simple(cursor)?;
        ended(cursor, kind)
    }

    /// `expr ":" block`, after `while`.
    fn while_loop(&self, cursor: &mut Cursor<'_>) -> Result<StmtKind, Stop>
        requires nests { Nests self.now.limit (F.pre self.now.block) (F.post self.now.block) }
        requires within { left cursor.old ≤ self.now.limit }
        ensures { Takes cursor.old cursor.new result }
    {
        let (condition, body) = self.guarded(cursor)?;
        Ok(StmtKind::While(condition, body))
    }

    /// `expr ":" block`
    fn guarded(&self, cursor: &mut Cursor<'_>) -> Result<(Expr, Items<Stmt>), Stop>
        requires nests { Nests self.now.limit (F.pre self.now.block) (F.post self.now.block) }
        requires within { left cursor.old ≤ self.now.limit }
        ensures { Takes cursor.old cursor.new result }
    {
        let condition = expression(cursor)?;
        let body = Items::from_vec(self.inner(cursor)?);
        Ok((condition, body))
    }

    /// `expr ":" block {"elif" expr ":" block} ["else" ":" block]`, after `if`.
    fn if_statement(&self, cursor: &mut Cursor<'_>) -> Result<StmtKind, Stop>
        requires nests { Nests self.now.limit (F.pre self.now.block) (F.post self.now.block) }
        requires within { left cursor.old ≤ self.now.limit }
        ensures { Takes cursor.old cursor.new result }
    {
        let mut branches = Items::new(cursor.alloc);
        branches.push(self.guarded(cursor)?)?;
        'branches: while cursor.eat_word(Keyword::Elif) {
            branches.push(self.guarded(cursor)?)?;
        }
        if !cursor.eat_word(Keyword::Else) {
            return Ok(StmtKind::If(branches, None));
        }
        let other = Items::from_vec(self.inner(cursor)?);
        Ok(StmtKind::If(branches, Some(other)))
    }

    /// `NAME [":" type] "in" expr ":" block`, after `for`.
    fn for_loop(&self, cursor: &mut Cursor<'_>) -> Result<StmtKind, Stop>
        requires nests { Nests self.now.limit (F.pre self.now.block) (F.post self.now.block) }
        requires within { left cursor.old ≤ self.now.limit }
        ensures { Takes cursor.old cursor.new result }
    {
        let (name, pos) = cursor.name()?;
        let typed = loop_type(cursor)?;
        let word = cursor.expect_word(Keyword::In)?;
        let (subject, body) = self.guarded(cursor)?;
        Ok(StmtKind::For(name, pos, typed, word, subject, body))
    }

    /// `expr ":" NL Indent branch {branch} Dedent`, after `match`.
    fn match_statement(&self, cursor: &mut Cursor<'_>) -> Result<StmtKind, Stop>
        requires nests { Nests self.now.limit (F.pre self.now.block) (F.post self.now.block) }
        requires within { left cursor.old ≤ self.now.limit }
        ensures { Takes cursor.old cursor.new result }
    {
        let subject = match_subject(cursor)?;
        let branches = Items::from_vec(self.branches(cursor)?);
        Ok(StmtKind::Match(subject, branches))
    }

    /// `branch {branch} Dedent`
    fn branches(&self, cursor: &mut Cursor<'_>) -> Result<Vec<Branch>, Stop>
        requires nests { Nests self.now.limit (F.pre self.now.block) (F.post self.now.block) }
        requires within { left cursor.old ≤ self.now.limit }
        ensures { Takes cursor.old cursor.new result }
    {
        let mut found = Vec::new(cursor.alloc);
        found.push(self.branch(cursor)?)?;
        'branches: while !cursor.eat_edge(Edge::Dedent) {
            found.push(self.branch(cursor)?)?;
        }
        found.shrink_to_fit();
        Ok(found)
    }

    /// `branch = pat {"," pat} ["when" expr] ":" block`
    fn branch(&self, cursor: &mut Cursor<'_>) -> Result<Branch, Stop>
        requires nests { Nests self.now.limit (F.pre self.now.block) (F.post self.now.block) }
        requires within { left cursor.old ≤ self.now.limit }
        ensures { Takes cursor.old cursor.new result }
    {
        let patterns = alternatives(cursor)?;
        let guard = guard(cursor)?;
        let body = Items::from_vec(self.inner(cursor)?);
        Ok(Branch {
            patterns,
            guard,
            body,
        })
    }
}

/// `expr ":" NL Indent`
fn match_subject(cursor: &mut Cursor<'_>) -> Result<Expr, Stop>
    ensures { Takes cursor.old cursor.new result }
{
    let subject = expression(cursor)?;
    cursor.expect(Mark::Colon)?;
    indent(cursor)?;
    Ok(subject)
}

/// `NL Indent`
fn indent(cursor: &mut Cursor<'_>) -> Result<(), Stop>
    ensures { Takes cursor.old cursor.new result }
{
    cursor.expect_edge(Edge::Newline)?;
    cursor.expect_edge(Edge::Indent)
}

/// `[":" type]` of a loop's variable.
fn loop_type(cursor: &mut Cursor<'_>) -> Result<Option<Boxed<TypeName>>, Stop>
    ensures { Keeps cursor.old cursor.new }
{
    if !cursor.eat(Mark::Colon) {
        return Ok(None);
    }
    let typed = type_name(cursor)?;
    Ok(Some(Boxed::new(cursor.alloc, typed)?))
}

/// `pat {"," pat}`
fn alternatives(cursor: &mut Cursor<'_>) -> Result<Seq<Pattern>, Stop>
    ensures { Takes cursor.old cursor.new result }
{
    let mut found = Vec::with_capacity(cursor.alloc, 1)?;
    found.push(pattern(cursor)?)?;
    'alternatives: while cursor.eat(Mark::Comma) {
        found.push(pattern(cursor)?)?;
    }
    Ok(Seq::of(found))
}

/// `["when" expr]`
fn guard(cursor: &mut Cursor<'_>) -> Result<Option<Expr>, Stop>
    ensures { Keeps cursor.old cursor.new }
{
    if !cursor.eat_word(Keyword::When) {
        return Ok(None);
    }
    Ok(Some(expression(cursor)?))
}
