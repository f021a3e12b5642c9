//! Expressions, by precedence climbing.
ghost use Rattle.std.specs.Prelude.{◌<◌, ◌≤◌, IfSome, OnSome};
ghost use Rattle.gd_cursor.specs.Cursor.{left, Keeps, Takes};
ghost use Rattle.gd_cursor.specs.Nests.{NestsAt};

use crate::operators::{CAST, CHOICE, Infix, Level, OR, infix_of, prefix_of};
use crate::types::type_name;
use gd_cursor::{Cursor, Stop};
use gd_syntax::{Expr, ExprKind, Keyword, Mark, Operator, Pos, Text, TokenKind};
use sqlite_items::{Boxed, Items};
use std::alloc::{AllocError, Global};

/// An expression, and the place of its first token that is no `(` around it or its leftmost part.
#[derive(Drop)]
pub struct Placed {
    expr: Expr,
    first: Pos,
}

/// An expression.
pub fn expression(cursor: &mut Cursor<'_>) -> Result<Expr, Stop>
    ensures { Takes cursor.old cursor.new result }
{
    Ok(part(cursor, CAST)?.expr)
}

/// `[list(expr)]`, and the mark `close` after it.
pub fn expressions(cursor: &mut Cursor<'_>, close: Mark) -> Result<Vec<Expr>, Stop>
    ensures { Takes cursor.old cursor.new result }
{
    let limit = cursor.left().saturating_add(1);
    Rules { limit, part }.list(cursor, close)
}

/// An expression of operators of level `least` and tighter.
fn part(cursor: &mut Cursor<'_>, least: Level) -> Result<Placed, Stop>
    ensures { Takes cursor.old cursor.new result }
{
    let limit = cursor.left();
    Rules { limit, part }.level(cursor, least)
}

/// The rules of expressions. They read the expressions inside by `part`, so that each is proved by
/// itself.
#[derive(Clone, Copy)]
struct Rules<F> {
    /// More than the tokens that are left where an expression inside begins.
    limit: usize,
    part: F,
}

impl<F: Fn(&mut Cursor<'_>, Level) -> Result<Placed, Stop>> Rules<F> {
    /// An expression inside, without the place of its first token.
    fn inner(&self, cursor: &mut Cursor<'_>, least: Level) -> Result<Expr, Stop>
        requires nests { NestsAt self.now.limit (F.pre self.now.part) (F.post self.now.part) }
        requires within { left cursor.old < self.now.limit }
        ensures { Takes cursor.old cursor.new result }
    {
        Ok((self.part)(cursor, least)?.expr)
    }

    fn level(&self, cursor: &mut Cursor<'_>, least: Level) -> Result<Placed, Stop>
        requires nests { NestsAt self.now.limit (F.pre self.now.part) (F.post self.now.part) }
        requires within { left cursor.old ≤ self.now.limit }
        ensures { Takes cursor.old cursor.new result }
    {
        let value = self.binary(cursor, least);
        // Most values end here, and are handed on without a move.
        if value.is_err() || least > CHOICE || !goes_on(cursor) {
            return value;
        }
        self.chosen_and_cast(cursor, least, value?)
    }

    /// What stands after a value of operators: `if c else y`, and each `as type`.
    fn chosen_and_cast(
        &self,
        cursor: &mut Cursor<'_>,
        least: Level,
        value: Placed,
    ) -> Result<Placed, Stop>
        requires nests { NestsAt self.now.limit (F.pre self.now.part) (F.post self.now.part) }
        requires within { left cursor.old ≤ self.now.limit }
        ensures { Keeps cursor.old cursor.new }
    {
        let Placed { expr, first } = value;
        let expr = self.choice(cursor, expr)?;
        if least > CAST {
            return Ok(Placed { expr, first });
        }
        let expr = casts(cursor, expr)?;
        Ok(Placed { expr, first })
    }

    /// `value if c else y`, or the value alone.
    fn choice(&self, cursor: &mut Cursor<'_>, value: Expr) -> Result<Expr, Stop>
        requires nests { NestsAt self.now.limit (F.pre self.now.part) (F.post self.now.part) }
        requires within { left cursor.old ≤ self.now.limit }
        ensures { Keeps cursor.old cursor.new }
    {
        let pos = cursor.here();
        if !cursor.eat_word(Keyword::If) {
            return Ok(value);
        }
        let condition = self.inner(cursor, OR)?;
        cursor.expect_word(Keyword::Else)?;
        let other = self.inner(cursor, CHOICE)?;
        Ok(chosen(cursor.alloc, pos, value, condition, other)?)
    }

    /// Operands and the operators between them, of level `least` and tighter.
    fn binary(&self, cursor: &mut Cursor<'_>, least: Level) -> Result<Placed, Stop>
        requires nests { NestsAt self.now.limit (F.pre self.now.part) (F.post self.now.part) }
        requires within { left cursor.old ≤ self.now.limit }
        ensures { Takes cursor.old cursor.new result }
    {
        let operand = self.operand(cursor, least);
        if operand.is_err() || next_infix(cursor, least).is_none() {
            return operand;
        }
        self.operations(cursor, least, operand?)
    }

    /// An operand with the operators after it, of level `least` and tighter, and their right operands.
    fn operations(
        &self,
        cursor: &mut Cursor<'_>,
        least: Level,
        operand: Placed,
    ) -> Result<Placed, Stop>
        requires nests { NestsAt self.now.limit (F.pre self.now.part) (F.post self.now.part) }
        requires within { left cursor.old ≤ self.now.limit }
        ensures { Keeps cursor.old cursor.new }
    {
        let Placed { mut expr, first } = operand;
        'operators: while let Some((level, infix)) = next_infix(cursor, least) {
            let pos = cursor.here();
            cursor.take();
            expr = self.operation(cursor, pos, expr, level, infix)?;
        }
        Ok(Placed { expr, first })
    }

    /// What stands after the operator at `pos`, joined to its left operand.
    fn operation(
        &self,
        cursor: &mut Cursor<'_>,
        pos: Pos,
        value: Expr,
        level: Level,
        infix: Infix,
    ) -> Result<Expr, Stop>
        requires nests { NestsAt self.now.limit (F.pre self.now.part) (F.post self.now.part) }
        requires within { left cursor.old < self.now.limit }
        requires level { level < 16 }
        ensures { Takes cursor.old cursor.new result }
    {
        if infix == Infix::Test {
            return test(cursor, pos, value);
        }
        if infix == Infix::NotIn {
            cursor.expect_word(Keyword::In)?;
        }
        let right = self.inner(cursor, level + 1)?;
        Ok(joined(cursor.alloc, pos, infix, value, right)?)
    }

    /// An operand with the operators before it that an operand of level `least` may have.
    fn operand(&self, cursor: &mut Cursor<'_>, least: Level) -> Result<Placed, Stop>
        requires nests { NestsAt self.now.limit (F.pre self.now.part) (F.post self.now.part) }
        requires within { left cursor.old ≤ self.now.limit }
        ensures { Takes cursor.old cursor.new result }
    {
        let Some((level, operator)) = next_prefix(cursor, least) else {
            return self.postfix(cursor);
        };
        let first = cursor.here();
        cursor.take();
        let inner = self.inner(cursor, level)?;
        let expr = signed(cursor.alloc, first, operator, inner)?;
        Ok(Placed { expr, first })
    }

    /// A primary expression, and each attribute, subscript and call after it.
    fn postfix(&self, cursor: &mut Cursor<'_>) -> Result<Placed, Stop>
        requires nests { NestsAt self.now.limit (F.pre self.now.part) (F.post self.now.part) }
        requires within { left cursor.old ≤ self.now.limit }
        ensures { Takes cursor.old cursor.new result }
    {
        let primary = self.primary(cursor);
        if primary.is_err() || next_suffix(cursor).is_none() {
            return primary;
        }
        self.suffixes(cursor, primary?)
    }

    /// An operand with each attribute, subscript and call after it.
    fn suffixes(&self, cursor: &mut Cursor<'_>, operand: Placed) -> Result<Placed, Stop>
        requires nests { NestsAt self.now.limit (F.pre self.now.part) (F.post self.now.part) }
        requires within { left cursor.old ≤ self.now.limit }
        ensures { Keeps cursor.old cursor.new }
    {
        let Placed { mut expr, first } = operand;
        'steps: while let Some(suffix) = next_suffix(cursor) {
            let pos = cursor.here();
            cursor.take();
            expr = match suffix {
                Suffix::Attribute => attribute(cursor, expr)?,
                Suffix::Subscript => self.subscript(cursor, pos, expr)?,
                Suffix::Call => self.call(cursor, first, expr)?,
            };
        }
        Ok(Placed { expr, first })
    }

    /// `x[i]`, after the `[` at `pos`.
    fn subscript(&self, cursor: &mut Cursor<'_>, pos: Pos, base: Expr) -> Result<Expr, Stop>
        requires nests { NestsAt self.now.limit (F.pre self.now.part) (F.post self.now.part) }
        requires within { left cursor.old < self.now.limit }
        ensures { Takes cursor.old cursor.new result }
    {
        let index = self.inner(cursor, CAST)?;
        cursor.expect(Mark::RightBracket)?;
        let base = Boxed::new(cursor.alloc, base)?;
        let index = Boxed::new(cursor.alloc, index)?;
        Ok(Expr {
            pos,
            kind: ExprKind::Index(base, index),
        })
    }

    /// `x(args)`, after the `(`. It stands at the name of what is called, or at its first token where
    /// it has none.
    fn call(&self, cursor: &mut Cursor<'_>, first: Pos, callee: Expr) -> Result<Expr, Stop>
        requires nests { NestsAt self.now.limit (F.pre self.now.part) (F.post self.now.part) }
        requires within { left cursor.old < self.now.limit }
        ensures { Takes cursor.old cursor.new result }
    {
        let arguments = Items::from_vec(self.list(cursor, Mark::RightParen)?);
        let pos = match &callee.kind {
            ExprKind::Name(_) | ExprKind::Attr(_, _) => callee.pos,
            _ => first,
        };
        let callee = Boxed::new(cursor.alloc, callee)?;
        Ok(Expr {
            pos,
            kind: ExprKind::Call(callee, arguments),
        })
    }

    /// What no operator parts.
    fn primary(&self, cursor: &mut Cursor<'_>) -> Result<Placed, Stop>
        requires nests { NestsAt self.now.limit (F.pre self.now.part) (F.post self.now.part) }
        requires within { left cursor.old ≤ self.now.limit }
        ensures { Takes cursor.old cursor.new result }
    {
        let first = cursor.here();
        if cursor.eat(Mark::LeftParen) {
            return self.in_parentheses(cursor);
        }
        let expr = if cursor.eat(Mark::LeftBracket) {
            let items = Items::from_vec(self.list(cursor, Mark::RightBracket)?);
            Expr {
                pos: first,
                kind: ExprKind::ArrayLit(items),
            }
        } else if cursor.eat(Mark::LeftBrace) {
            let pairs = self.dictionary(cursor)?;
            Expr {
                pos: first,
                kind: ExprKind::DictLit(pairs),
            }
        } else if cursor.eat_word(Keyword::Super) {
            self.super_call(cursor, first)?
        } else {
            atom(cursor)?
        };
        Ok(Placed { expr, first })
    }

    /// An expression and the `)` after it.
    fn in_parentheses(&self, cursor: &mut Cursor<'_>) -> Result<Placed, Stop>
        requires nests { NestsAt self.now.limit (F.pre self.now.part) (F.post self.now.part) }
        requires within { left cursor.old < self.now.limit }
        ensures { Takes cursor.old cursor.new result }
    {
        let inner = (self.part)(cursor, CAST)?;
        cursor.expect(Mark::RightParen)?;
        Ok(inner)
    }

    /// `super(args)` or `super.NAME(args)`, after the word at `first`.
    fn super_call(&self, cursor: &mut Cursor<'_>, first: Pos) -> Result<Expr, Stop>
        requires nests { NestsAt self.now.limit (F.pre self.now.part) (F.post self.now.part) }
        requires within { left cursor.old < self.now.limit }
        ensures { Takes cursor.old cursor.new result }
    {
        let (pos, name) = super_name(cursor, first)?;
        let arguments = Items::from_vec(self.list(cursor, Mark::RightParen)?);
        Ok(Expr {
            pos,
            kind: ExprKind::Super(first, name, arguments),
        })
    }

    /// `[list(expr)]`, and the mark `close` after it.
    fn list(&self, cursor: &mut Cursor<'_>, close: Mark) -> Result<Vec<Expr>, Stop>
        requires nests { NestsAt self.now.limit (F.pre self.now.part) (F.post self.now.part) }
        requires within { left cursor.old < self.now.limit }
        ensures { Takes cursor.old cursor.new result }
    {
        let mut found = Vec::new(cursor.alloc);
        'items: while !cursor.eat(close) {
            found.push(self.inner(cursor, CAST)?)?;
            if !cursor.eat(Mark::Comma) {
                cursor.expect(close)?;
                break;
            }
        }
        found.shrink_to_fit();
        Ok(found)
    }

    /// The pairs of a dictionary literal, and the `}` after them. All have the form of the first.
    fn dictionary(&self, cursor: &mut Cursor<'_>) -> Result<Items<(Expr, Expr)>, Stop>
        requires nests { NestsAt self.now.limit (F.pre self.now.part) (F.post self.now.part) }
        requires within { left cursor.old < self.now.limit }
        ensures { Takes cursor.old cursor.new result }
    {
        let mut found = Items::new(cursor.alloc);
        let named = cursor.sees_name_and_equal();
        'pairs: while !cursor.eat(Mark::RightBrace) {
            found.push(self.pair(cursor, named)?)?;
            if !cursor.eat(Mark::Comma) {
                cursor.expect(Mark::RightBrace)?;
                return Ok(found);
            }
        }
        Ok(found)
    }

    /// `NAME = value` where `named`, else `key: value`.
    fn pair(&self, cursor: &mut Cursor<'_>, named: bool) -> Result<(Expr, Expr), Stop>
        requires nests { NestsAt self.now.limit (F.pre self.now.part) (F.post self.now.part) }
        requires within { left cursor.old < self.now.limit }
        ensures { Takes cursor.old cursor.new result }
    {
        let key = if named {
            name_key(cursor)?
        } else {
            self.key(cursor)?
        };
        Ok((key, self.inner(cursor, CAST)?))
    }

    /// `key:`
    fn key(&self, cursor: &mut Cursor<'_>) -> Result<Expr, Stop>
        requires nests { NestsAt self.now.limit (F.pre self.now.part) (F.post self.now.part) }
        requires within { left cursor.old < self.now.limit }
        ensures { Takes cursor.old cursor.new result }
    {
        let key = self.inner(cursor, CAST)?;
        cursor.expect(Mark::Colon)?;
        Ok(key)
    }
}

/// A value with each `as type` after it.
fn casts(cursor: &mut Cursor<'_>, value: Expr) -> Result<Expr, Stop>
    ensures { Keeps cursor.old cursor.new }
{
    let mut expr = value;
    'casts: while cursor.sees_word(Keyword::As) {
        let pos = cursor.expect_word(Keyword::As)?;
        let typed = type_name(cursor)?;
        let typed = Boxed::new(cursor.alloc, typed)?;
        let value = Boxed::new(cursor.alloc, expr)?;
        expr = Expr {
            pos,
            kind: ExprKind::Cast(value, typed),
        };
    }
    Ok(expr)
}

/// Whether `if` or `as` stands next.
fn goes_on(cursor: &Cursor<'_>) -> bool {
    cursor.sees_word(Keyword::If) || cursor.sees_word(Keyword::As)
}

/// The operator of level `least` or tighter that stands next.
fn next_infix(cursor: &Cursor<'_>, least: Level) -> Option<(Level, Infix)>
    ensures level { IfSome result (λ found. found.0 < 16) }
    ensures stands { OnSome result (0 < left cursor.now) }
{
    match infix_of(cursor.peek()?) {
        Some((level, found)) if least <= level => Some((level, found)),
        _ => None,
    }
}

/// The operator before an operand of level `least` that stands next, with the level of its operand.
fn next_prefix(cursor: &Cursor<'_>, least: Level) -> Option<(Level, Operator)>
    ensures { OnSome result (0 < left cursor.now) }
{
    prefix_of(cursor.peek()?, least)
}

/// A step after an operand.
#[derive(Clone, Copy, Debug, PartialEq, Eq)]
enum Suffix {
    Attribute,
    Subscript,
    Call,
}

/// The step after an operand that stands next.
fn next_suffix(cursor: &Cursor<'_>) -> Option<Suffix>
    ensures { OnSome result (0 < left cursor.now) }
{
    match cursor.peek()? {
        TokenKind::Mark(Mark::Dot) => Some(Suffix::Attribute),
        TokenKind::Mark(Mark::LeftBracket) => Some(Suffix::Subscript),
        TokenKind::Mark(Mark::LeftParen) => Some(Suffix::Call),
        _ => None,
    }
}

/// `x is type` or `x is not type`, after the `is` at `pos`.
fn test(cursor: &mut Cursor<'_>, pos: Pos, value: Expr) -> Result<Expr, Stop>
    ensures { Takes cursor.old cursor.new result }
{
    let negated = cursor.eat_word(Keyword::Not);
    let typed = type_name(cursor)?;
    let typed = Boxed::new(cursor.alloc, typed)?;
    let kind = ExprKind::Test(Boxed::new(cursor.alloc, value)?, typed, negated);
    Ok(Expr { pos, kind })
}

/// `value if condition else other`, with the `if` at `pos`.
fn chosen(
    alloc: Global,
    pos: Pos,
    value: Expr,
    condition: Expr,
    other: Expr,
) -> Result<Expr, AllocError> {
    let value = Boxed::new(alloc, value)?;
    let condition = Boxed::new(alloc, condition)?;
    let other = Boxed::new(alloc, other)?;
    let kind = ExprKind::Choose(value, condition, other);
    Ok(Expr { pos, kind })
}

/// An operand with the operator before it, at `pos`.
fn signed(alloc: Global, pos: Pos, operator: Operator, operand: Expr) -> Result<Expr, AllocError> {
    let kind = ExprKind::Unary(operator, Boxed::new(alloc, operand)?);
    Ok(Expr { pos, kind })
}

/// Two operands with the operator at `pos`.
fn joined(
    alloc: Global,
    pos: Pos,
    infix: Infix,
    left: Expr,
    right: Expr,
) -> Result<Expr, AllocError> {
    let left = Boxed::new(alloc, left)?;
    let right = Boxed::new(alloc, right)?;
    let kind = match infix {
        Infix::And => ExprKind::And(left, right),
        Infix::Or => ExprKind::Or(left, right),
        Infix::Plain(operator) => ExprKind::Binary(operator, left, right),
        Infix::Test | Infix::NotIn => ExprKind::Binary(Operator::NotIn, left, right),
    };
    Ok(Expr { pos, kind })
}

/// `x.NAME`, after the dot.
fn attribute(cursor: &mut Cursor<'_>, base: Expr) -> Result<Expr, Stop>
    ensures { Takes cursor.old cursor.new result }
{
    let (name, pos) = cursor.name()?;
    let kind = ExprKind::Attr(Boxed::new(cursor.alloc, base)?, name);
    Ok(Expr { pos, kind })
}

/// `(` or `.NAME(`, after the word `super` at `first`: the place of the call and the name.
fn super_name(cursor: &mut Cursor<'_>, first: Pos) -> Result<(Pos, Option<Boxed<Text>>), Stop>
    ensures { Takes cursor.old cursor.new result }
{
    if !cursor.eat(Mark::Dot) {
        cursor.expect(Mark::LeftParen)?;
        return Ok((first, None));
    }
    let (name, pos) = cursor.name()?;
    cursor.expect(Mark::LeftParen)?;
    Ok((pos, Some(Boxed::new(cursor.alloc, name)?)))
}

/// `NAME =`, as the key of a pair.
fn name_key(cursor: &mut Cursor<'_>) -> Result<Expr, Stop>
    ensures { Takes cursor.old cursor.new result }
{
    let (name, pos) = cursor.name()?;
    cursor.expect(Mark::Equal)?;
    Ok(Expr {
        pos,
        kind: ExprKind::Str(name),
    })
}

/// A literal of one token, a name, `self`, or `preload(STRING)`.
fn atom(cursor: &mut Cursor<'_>) -> Result<Expr, Stop>
    ensures { Takes cursor.old cursor.new result }
{
    let pos = cursor.here();
    let kind = match cursor.peek() {
        Some(TokenKind::Word(name)) => ExprKind::Name(name.share()?),
        Some(TokenKind::Number(value)) => ExprKind::Int(*value),
        Some(TokenKind::Quoted(text)) => ExprKind::Str(text.share()?),
        Some(TokenKind::Keyword(Keyword::True)) => ExprKind::Bool(true),
        Some(TokenKind::Keyword(Keyword::False)) => ExprKind::Bool(false),
        Some(TokenKind::Keyword(Keyword::Null)) => ExprKind::Null,
        Some(TokenKind::Keyword(Keyword::SelfValue)) => ExprKind::Me,
        Some(TokenKind::Keyword(Keyword::Preload)) => return preload(cursor),
        _ => return Err(Stop::Here),
    };
    cursor.take();
    Ok(Expr { pos, kind })
}

/// `preload(STRING)`
fn preload(cursor: &mut Cursor<'_>) -> Result<Expr, Stop>
    ensures { Takes cursor.old cursor.new result }
{
    let pos = cursor.expect_word(Keyword::Preload)?;
    cursor.expect(Mark::LeftParen)?;
    let path = cursor.text()?;
    cursor.expect(Mark::RightParen)?;
    Ok(Expr {
        pos,
        kind: ExprKind::Preload(path),
    })
}
