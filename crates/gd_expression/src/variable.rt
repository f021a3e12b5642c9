//! Variables, constants and parameters.
ghost use Rattle.gd_cursor.specs.Cursor.{left, Keeps, Takes};

use crate::expr::expression;
use crate::types::type_name;
use gd_cursor::{Cursor, Stop};
use gd_syntax::{Expr, Mark, Pos, Seq, TypeName, VarDecl};

/// What a name with a type and a value declares.
#[derive(Clone, Copy, Debug, PartialEq, Eq)]
pub enum Role {
    /// A variable of a class. `:` before `set`, `get` or a line end begins its accessors.
    Member,
    /// A variable of a block. No type is called `set` or `get` there.
    Local,
    /// A constant, which has a value.
    Constant,
    Parameter,
}

/// `NAME init`, where `init = [":" type] ["=" expr] | ":" "=" expr`, and the number of tokens of the
/// value.
pub fn named(cursor: &mut Cursor<'_>, role: Role) -> Result<(VarDecl, usize), Stop>
    ensures { Takes cursor.old cursor.new result }
{
    let (name, pos) = cursor.name()?;
    let (typed, inferred) = written_type(cursor, role)?;
    let is_needed = inferred || role == Role::Constant;
    let Value {
        equals,
        value,
        tokens,
    } = initial_value(cursor, is_needed)?;
    let declared = VarDecl {
        name,
        pos,
        is_static: false,
        typed,
        inferred,
        equals,
        value,
        setter: None,
        getter: None,
    };
    Ok((declared, tokens))
}

/// `[":" type]`, or the `:` of `:=`, where the answer is true.
fn written_type(cursor: &mut Cursor<'_>, role: Role) -> Result<(Option<TypeName>, bool), Stop>
    ensures { Keeps cursor.old cursor.new }
{
    if role == Role::Member && cursor.sees_accessors() {
        return Ok((None, false));
    }
    if !cursor.eat(Mark::Colon) {
        return Ok((None, false));
    }
    if cursor.sees(Mark::Equal) {
        return Ok((None, true));
    }
    if role == Role::Local && (cursor.sees_setter() || cursor.sees_getter()) {
        return Err(Stop::Here);
    }
    Ok((Some(type_name(cursor)?), false))
}

/// `["=" expr]`: the place of the `=`, the value and the number of its tokens.
#[derive(Drop)]
struct Value {
    equals: Option<Pos>,
    value: Option<Expr>,
    tokens: usize,
}

/// `["=" expr]`, which must stand there where `is_needed`.
fn initial_value(cursor: &mut Cursor<'_>, is_needed: bool) -> Result<Value, Stop>
    ensures { Keeps cursor.old cursor.new }
{
    if !is_needed && !cursor.sees(Mark::Equal) {
        return Ok(Value {
            equals: None,
            value: None,
            tokens: 0,
        });
    }
    let equals = cursor.expect(Mark::Equal)?;
    let before = cursor.left();
    let value = expression(cursor)?;
    let tokens = before - cursor.left();
    Ok(Value {
        equals: Some(equals),
        value: Some(value),
        tokens,
    })
}

/// `[list(param)]`, and the `)` after it.
pub fn parameters(cursor: &mut Cursor<'_>) -> Result<Seq<VarDecl>, Stop>
    ensures { Takes cursor.old cursor.new result }
{
    let mut found = Vec::new(cursor.alloc);
    'parameters: while !cursor.eat(Mark::RightParen) {
        found.push(named(cursor, Role::Parameter)?.0)?;
        if !cursor.eat(Mark::Comma) {
            cursor.expect(Mark::RightParen)?;
            break;
        }
    }
    found.shrink_to_fit();
    Ok(Seq::of(found))
}
