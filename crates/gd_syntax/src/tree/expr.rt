//! Expressions and written types.
use crate::{Operator, Pos, Seq, Text};
use sqlite_items::{Boxed, Items};

/// An expression. Its place is that of its operation: the operator, the name after the dot, the `[`,
/// the `if` of a conditional, and else the first token.
#[cycle(expr)]
#[derive(Drop)]
pub struct Expr {
    pub pos: Pos,
    pub kind: ExprKind,
}

#[cycle(expr)]
#[derive(Drop)]
pub enum ExprKind {
    Null,
    Bool(bool),
    Int(i64),
    Str(Text),
    Name(Text),
    /// `self`
    Me,
    ArrayLit(Items<Expr>),
    /// Keys and values. A key of the form `NAME = value` is a `Str`.
    DictLit(Items<(Expr, Expr)>),
    Unary(Operator, Boxed<Expr>),
    Binary(Operator, Boxed<Expr>, Boxed<Expr>),
    And(Boxed<Expr>, Boxed<Expr>),
    Or(Boxed<Expr>, Boxed<Expr>),
    /// `value if condition else other`: the value, the condition, the other value.
    Choose(Boxed<Expr>, Boxed<Expr>, Boxed<Expr>),
    Cast(Boxed<Expr>, Boxed<TypeName>),
    /// `x is T`; the flag says `is not`.
    Test(Boxed<Expr>, Boxed<TypeName>, bool),
    Attr(Boxed<Expr>, Text),
    Index(Boxed<Expr>, Boxed<Expr>),
    Call(Boxed<Expr>, Items<Expr>),
    /// `super(..)` or `super.NAME(..)`, with the place of the word `super`.
    Super(Pos, Option<Boxed<Text>>, Items<Expr>),
    Preload(Text),
}

/// A written type: the names between dots, and its element types in brackets: none, one or two.
#[derive(Drop)]
pub struct TypeName {
    /// The first token.
    pub pos: Pos,
    pub names: Seq<Text>,
    /// `void` after `->`, which no name stands for.
    pub is_void: bool,
    pub elements: Items<TypeName>,
}
