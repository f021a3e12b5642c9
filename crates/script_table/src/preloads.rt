//! Finds the paths that a class preloads.
use gd_syntax::{
    Accessor, Branch, ClassDecl, DeclKind, Expr, ExprKind, Pattern, PatternKind, Pos, Stmt,
    StmtKind, Text, VarDecl,
};
use no_memory::NoMemory;

/// Paths of `preload`s with the places of that word.
pub type Preloads<'a> = Vec<(Pos, &'a Text)>;

/// Adds the paths of the `preload`s in the members of a class, but for those in its inner classes.
pub fn preloads_of<'a>(class: &'a ClassDecl, found: &mut Preloads<'a>) -> Result<(), NoMemory> {
    for member in class.members.as_slice() {
        in_member(&member.kind, found)?;
    }
    Ok(())
}

fn in_member<'a>(kind: &'a DeclKind, found: &mut Preloads<'a>) -> Result<(), NoMemory> {
    match kind {
        DeclKind::Var(v) | DeclKind::Const(v) => in_variable(v, found),
        DeclKind::Func(f) => {
            for parameter in f.params.items() {
                in_variable(parameter, found)?;
            }
            in_block(f.body.items(), found)
        }
        DeclKind::Signal(_, _, parameters) => {
            for parameter in parameters.items() {
                in_variable(parameter, found)?;
            }
            Ok(())
        }
        DeclKind::Enum(_, values) => {
            for value in values.items() {
                in_optional(&value.2, found)?;
            }
            Ok(())
        }
        DeclKind::Class(_) | DeclKind::Nothing => Ok(()),
    }
}

fn in_optional<'a>(x: &'a Option<Expr>, found: &mut Preloads<'a>) -> Result<(), NoMemory> {
    match x {
        Some(x) => in_expression(x, found),
        None => Ok(()),
    }
}

fn in_expression<'a>(x: &'a Expr, found: &mut Preloads<'a>) -> Result<(), NoMemory> {
    match &x.kind {
        ExprKind::Preload(path) => {
            found.push((x.pos, path))?;
        }
        ExprKind::ArrayLit(items) | ExprKind::Super(_, _, items) => {
            for item in items.as_slice() {
                in_expression(item, found)?;
            }
        }
        ExprKind::DictLit(pairs) => {
            for (key, value) in pairs.as_slice() {
                in_expression(key, found)?;
                in_expression(value, found)?;
            }
        }
        ExprKind::Unary(_, a)
        | ExprKind::Cast(a, _)
        | ExprKind::Test(a, _, _)
        | ExprKind::Attr(a, _) => in_expression(a.get(), found)?,
        ExprKind::Binary(_, a, b)
        | ExprKind::And(a, b)
        | ExprKind::Or(a, b)
        | ExprKind::Index(a, b) => {
            in_expression(a.get(), found)?;
            in_expression(b.get(), found)?;
        }
        ExprKind::Choose(a, b, c) => {
            in_expression(a.get(), found)?;
            in_expression(b.get(), found)?;
            in_expression(c.get(), found)?;
        }
        ExprKind::Call(f, arguments) => {
            in_expression(f.get(), found)?;
            for argument in arguments.as_slice() {
                in_expression(argument, found)?;
            }
        }
        _ => {}
    }
    Ok(())
}

fn in_pattern<'a>(x: &'a Pattern, found: &mut Preloads<'a>) -> Result<(), NoMemory> {
    match &x.kind {
        PatternKind::Value(value) => in_expression(value, found)?,
        PatternKind::Items(items) => {
            for item in items.as_slice() {
                in_pattern(item, found)?;
            }
        }
        PatternKind::Pairs(pairs, _) => {
            for (key, value) in pairs.as_slice() {
                in_expression(key, found)?;
                if let Some(value) = value {
                    in_pattern(value, found)?;
                }
            }
        }
        PatternKind::Any | PatternKind::Bind(_) | PatternKind::Rest => {}
    }
    Ok(())
}

#[cycle(statements)]
fn in_block<'a>(body: &'a [Stmt], found: &mut Preloads<'a>) -> Result<(), NoMemory> {
    for x in body {
        in_statement(x, found)?;
    }
    Ok(())
}

#[cycle(statements)]
fn in_statement<'a>(x: &'a Stmt, found: &mut Preloads<'a>) -> Result<(), NoMemory> {
    match &x.kind {
        StmtKind::Pass | StmtKind::Break | StmtKind::Continue => Ok(()),
        StmtKind::Return(value) => in_optional(value, found),
        StmtKind::Plain(value) => in_expression(value, found),
        StmtKind::Assign(_, _, target, value) => {
            in_expression(target, found)?;
            in_expression(value, found)
        }
        StmtKind::Local(v) | StmtKind::LocalConst(v) => in_variable(v.get(), found),
        StmtKind::If(branches, other) => {
            for (condition, body) in branches.as_slice() {
                in_expression(condition, found)?;
                in_block(body.as_slice(), found)?;
            }
            match other {
                Some(body) => in_block(body.as_slice(), found),
                None => Ok(()),
            }
        }
        StmtKind::While(condition, body) => {
            in_expression(condition, found)?;
            in_block(body.as_slice(), found)
        }
        StmtKind::For(_, _, _, _, subject, body) => {
            in_expression(subject, found)?;
            in_block(body.as_slice(), found)
        }
        StmtKind::Match(subject, branches) => {
            in_expression(subject, found)?;
            for branch in branches.as_slice() {
                in_branch(branch, found)?;
            }
            Ok(())
        }
        StmtKind::Assert(condition, message) => {
            in_expression(condition, found)?;
            in_optional(message, found)
        }
    }
}

#[cycle(statements)]
fn in_branch<'a>(branch: &'a Branch, found: &mut Preloads<'a>) -> Result<(), NoMemory> {
    for pattern in branch.patterns.items() {
        in_pattern(pattern, found)?;
    }
    in_optional(&branch.guard, found)?;
    in_block(branch.body.as_slice(), found)
}

#[cycle(statements)]
fn in_variable<'a>(v: &'a VarDecl, found: &mut Preloads<'a>) -> Result<(), NoMemory> {
    in_optional(&v.value, found)?;
    if let Some(setter) = &v.setter {
        in_accessor(setter.get(), found)?;
    }
    if let Some(getter) = &v.getter {
        in_accessor(getter.get(), found)?;
    }
    Ok(())
}

#[cycle(statements)]
fn in_accessor<'a>(x: &'a Accessor, found: &mut Preloads<'a>) -> Result<(), NoMemory> {
    match x {
        Accessor::Named(_, _) => Ok(()),
        Accessor::Body(_, body, _, _) => in_block(body.as_slice(), found),
    }
}
