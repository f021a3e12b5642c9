//! Declarations and classes.
ghost use Rattle.std.specs.Prelude.{◌<◌, ◌≤◌};
ghost use Rattle.gd_cursor.specs.Cursor.{left, Keeps, Takes};
ghost use Rattle.gd_cursor.specs.Nests.{Nests};

use crate::accessor::{Accessors, props};
use gd_cursor::{Cursor, Edge, Stop, count};
use gd_expression::{Role, base, expression, named, notes, parameters, type_name, void};
use gd_statement::block;
use gd_syntax::{
    BaseName, ClassDecl, Decl, DeclKind, Expr, FuncDecl, Keyword, Mark, Pos, Seq, Text, TypeName,
    VarDecl,
};
use sqlite_items::Items;

/// The declarations of a class, and the number of tokens of the initial values of its variables.
#[derive(Drop)]
pub struct Members {
    pub members: Items<Decl>,
    pub initial: usize,
}

/// `{decl} End`
pub fn file_members(cursor: &mut Cursor<'_>) -> Result<Members, Stop>
    ensures { Takes cursor.old cursor.new result }
{
    let limit = cursor.left();
    Rules {
        limit,
        members: class_members,
    }
    .all(cursor, Edge::End)
}

/// `{decl} Dedent`
fn class_members(cursor: &mut Cursor<'_>) -> Result<Members, Stop>
    ensures { Takes cursor.old cursor.new result }
{
    let limit = cursor.left();
    Rules {
        limit,
        members: class_members,
    }
    .all(cursor, Edge::Dedent)
}

/// The rules of declarations. They read the members of classes inside by `members`, so that each is
/// proved by itself.
#[derive(Clone, Copy)]
pub struct Rules<F> {
    /// More than the tokens that are left where the members of a class inside begin.
    limit: usize,
    members: F,
}

impl<F: Fn(&mut Cursor<'_>) -> Result<Members, Stop>> Rules<F> {
    /// `{decl}`, and the token `close` after it.
    fn all(&self, cursor: &mut Cursor<'_>, close: Edge) -> Result<Members, Stop>
        requires nests { Nests self.now.limit (F.pre self.now.members) (F.post self.now.members) }
        requires within { left cursor.old ≤ self.now.limit }
        ensures { Takes cursor.old cursor.new result }
    {
        let mut members = Items::new(cursor.alloc);
        let mut initial = 0usize;
        'members: while !cursor.eat_edge(close) {
            let (member, tokens) = self.declaration(cursor)?;
            members.push(member)?;
            initial = initial.saturating_add(tokens);
        }
        Ok(Members { members, initial })
    }

    /// A declaration, and the number of tokens of the initial value where it is a variable.
    fn declaration(&self, cursor: &mut Cursor<'_>) -> Result<(Decl, usize), Stop>
        requires nests { Nests self.now.limit (F.pre self.now.members) (F.post self.now.members) }
        requires within { left cursor.old ≤ self.now.limit }
        ensures { Takes cursor.old cursor.new result }
    {
        let notes = notes(cursor)?;
        let pos = cursor.here();
        let (kind, tokens) = self.kind(cursor)?;
        let declaration = Decl {
            pos,
            last: cursor.last(),
            notes,
            kind,
        };
        Ok((declaration, tokens))
    }

    /// A declaration without its annotations.
    fn kind(&self, cursor: &mut Cursor<'_>) -> Result<(DeclKind, usize), Stop>
        requires nests { Nests self.now.limit (F.pre self.now.members) (F.post self.now.members) }
        requires within { left cursor.old ≤ self.now.limit }
        ensures { Takes cursor.old cursor.new result }
    {
        let before = cursor.left();
        let is_static = cursor.eat_word(Keyword::Static);
        if cursor.eat_word(Keyword::Var) {
            return variable(cursor, is_static);
        }
        if cursor.eat_word(Keyword::Func) {
            let function = function(cursor, before, is_static)?;
            return Ok((DeclKind::Func(function), 0));
        }
        if is_static {
            return Err(Stop::Here);
        }
        if cursor.eat_word(Keyword::Class) {
            let class = self.class(cursor)?;
            return Ok((DeclKind::Class(class), 0));
        }
        Ok((other(cursor)?, 0))
    }

    /// `NAME [extends base] ":" (NL Indent {decl} Dedent | pass NL)`, after `class`.
    fn class(&self, cursor: &mut Cursor<'_>) -> Result<ClassDecl, Stop>
        requires nests { Nests self.now.limit (F.pre self.now.members) (F.post self.now.members) }
        requires within { left cursor.old < self.now.limit }
        ensures { Takes cursor.old cursor.new result }
    {
        let (name, pos) = cursor.name()?;
        let base = extended(cursor)?;
        cursor.expect(Mark::Colon)?;
        let Members { members, initial } = self.body(cursor)?;
        Ok(ClassDecl {
            name: Some(name),
            pos,
            base,
            members,
            initial_tokens: count(initial),
        })
    }

    /// `NL Indent decl {decl} Dedent | pass NL`
    fn body(&self, cursor: &mut Cursor<'_>) -> Result<Members, Stop>
        requires nests { Nests self.now.limit (F.pre self.now.members) (F.post self.now.members) }
        requires within { left cursor.old < self.now.limit }
        ensures { Takes cursor.old cursor.new result }
    {
        if !cursor.eat_edge(Edge::Newline) {
            return empty_body(cursor);
        }
        cursor.expect_edge(Edge::Indent)?;
        if cursor.sees_edge(Edge::Dedent) {
            return Err(Stop::Here);
        }
        (self.members)(cursor)
    }
}

/// `pass NL`
fn empty_body(cursor: &mut Cursor<'_>) -> Result<Members, Stop>
    ensures { Takes cursor.old cursor.new result }
{
    let pos = cursor.expect_word(Keyword::Pass)?;
    cursor.expect_edge(Edge::Newline)?;
    let mut members = Items::new(cursor.alloc);
    members.push(Decl {
        pos,
        last: pos,
        notes: Seq::of(Vec::new(cursor.alloc)),
        kind: DeclKind::Nothing,
    })?;
    Ok(Members {
        members,
        initial: 0,
    })
}

/// `[extends base]`
pub fn extended(cursor: &mut Cursor<'_>) -> Result<Option<BaseName>, Stop>
    ensures { Keeps cursor.old cursor.new }
{
    if !cursor.eat_word(Keyword::Extends) {
        return Ok(None);
    }
    Ok(Some(base(cursor)?))
}

/// `NAME init (end | props)`, after `var`, and the number of tokens of the initial value.
fn variable(cursor: &mut Cursor<'_>, is_static: bool) -> Result<(DeclKind, usize), Stop>
    ensures { Takes cursor.old cursor.new result }
{
    let (declared, tokens) = named(cursor, Role::Member)?;
    let found = if cursor.sees(Mark::Colon) {
        props(cursor)?
    } else {
        cursor.end()?;
        Accessors::none()
    };
    let Accessors { setter, getter } = found;
    Ok((
        DeclKind::Var(VarDecl {
            is_static,
            setter,
            getter,
            ..declared
        }),
        tokens,
    ))
}

/// `NAME "(" [list(param)] ")" ["->" (type | void)] ":" block`, after `func`. `before` is the number
/// of tokens that were left at its first token.
fn function(cursor: &mut Cursor<'_>, before: usize, is_static: bool) -> Result<FuncDecl, Stop>
    requires { left cursor.old ≤ before }
    ensures { Takes cursor.old cursor.new result }
{
    let (name, pos) = cursor.name()?;
    cursor.expect(Mark::LeftParen)?;
    let params = parameters(cursor)?;
    let returned = returned(cursor)?;
    cursor.expect(Mark::Colon)?;
    let body = block(cursor)?;
    Ok(FuncDecl {
        name,
        pos,
        is_static,
        params,
        result: returned,
        body: Seq::of(body),
        tokens: cursor.taken_since(before),
    })
}

/// `["->" (type | void)]`
fn returned(cursor: &mut Cursor<'_>) -> Result<Option<TypeName>, Stop>
    ensures { Keeps cursor.old cursor.new }
{
    if !cursor.eat(Mark::Arrow) {
        return Ok(None);
    }
    let pos = cursor.here();
    if cursor.eat_word(Keyword::Void) {
        return Ok(Some(void(cursor.alloc, pos)));
    }
    Ok(Some(type_name(cursor)?))
}

/// A declaration that holds no block.
fn other(cursor: &mut Cursor<'_>) -> Result<DeclKind, Stop>
    ensures { Takes cursor.old cursor.new result }
{
    let kind = if cursor.eat_word(Keyword::Const) {
        DeclKind::Const(named(cursor, Role::Constant)?.0)
    } else if cursor.eat_word(Keyword::Signal) {
        signal(cursor)?
    } else if cursor.eat_word(Keyword::Enum) {
        enumeration(cursor)?
    } else if cursor.eat_word(Keyword::Pass) {
        DeclKind::Nothing
    } else {
        return Err(Stop::Here);
    };
    cursor.end()?;
    Ok(kind)
}

/// `NAME ["(" [list(param)] ")"]`, after `signal`.
fn signal(cursor: &mut Cursor<'_>) -> Result<DeclKind, Stop>
    ensures { Takes cursor.old cursor.new result }
{
    let (name, pos) = cursor.name()?;
    if !cursor.eat(Mark::LeftParen) {
        return Ok(DeclKind::Signal(name, pos, Seq::of(Vec::new(cursor.alloc))));
    }
    Ok(DeclKind::Signal(name, pos, parameters(cursor)?))
}

/// `[NAME] "{" [list(NAME ["=" expr])] "}"`, after `enum`.
fn enumeration(cursor: &mut Cursor<'_>) -> Result<DeclKind, Stop>
    ensures { Takes cursor.old cursor.new result }
{
    let name = if cursor.sees(Mark::LeftBrace) {
        None
    } else {
        Some(cursor.name()?)
    };
    cursor.expect(Mark::LeftBrace)?;
    let mut values = Vec::new(cursor.alloc);
    'values: while !cursor.eat(Mark::RightBrace) {
        values.push(enum_value(cursor)?)?;
        if !cursor.eat(Mark::Comma) {
            cursor.expect(Mark::RightBrace)?;
            break;
        }
    }
    Ok(DeclKind::Enum(name, Seq::of(values)))
}

/// `NAME ["=" expr]`
fn enum_value(cursor: &mut Cursor<'_>) -> Result<(Text, Pos, Option<Expr>), Stop>
    ensures { Takes cursor.old cursor.new result }
{
    let (name, pos) = cursor.name()?;
    if !cursor.eat(Mark::Equal) {
        return Ok((name, pos, None));
    }
    Ok((name, pos, Some(expression(cursor)?)))
}
