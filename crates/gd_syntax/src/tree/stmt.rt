//! Statements, patterns and variables.
use super::{Expr, TypeName};
use crate::{Operator, Pos, Seq, Text};
use sqlite_items::{Boxed, Items};

/// A statement. `pos` is its first token after its annotations, `last` its last token other than
/// line ends, block ends and `;`.
#[cycle(stmt)]
#[derive(Drop)]
pub struct Stmt {
    pub pos: Pos,
    pub last: Pos,
    pub notes: Seq<Note>,
    pub kind: StmtKind,
}

#[cycle(stmt)]
#[derive(Drop)]
pub enum StmtKind {
    Pass,
    Break,
    Continue,
    Return(Option<Expr>),
    Plain(Expr),
    /// The operator of a compound assignment, the place of the assignment mark, target and value.
    Assign(Option<Operator>, Pos, Expr, Expr),
    Local(Boxed<VarDecl>),
    LocalConst(Boxed<VarDecl>),
    /// The conditions with their blocks, and the block of `else`.
    If(Items<(Expr, Items<Stmt>)>, Option<Items<Stmt>>),
    While(Expr, Items<Stmt>),
    /// The variable, its place and written type, the place of the word `in`, subject and block.
    For(Text, Pos, Option<Boxed<TypeName>>, Pos, Expr, Items<Stmt>),
    Match(Expr, Items<Branch>),
    /// The condition and the message.
    Assert(Expr, Option<Expr>),
}

#[cycle(stmt)]
#[derive(Drop)]
pub struct Branch {
    pub patterns: Seq<Pattern>,
    pub guard: Option<Expr>,
    pub body: Items<Stmt>,
}

/// A pattern. Its place is its first token, and for a binding its name.
#[cycle(pattern)]
#[derive(Drop)]
pub struct Pattern {
    pub pos: Pos,
    pub kind: PatternKind,
}

#[cycle(pattern)]
#[derive(Drop)]
pub enum PatternKind {
    Value(Expr),
    /// `_`
    Any,
    Bind(Text),
    Items(Items<Pattern>),
    /// The pairs, and for each `..` its position among the pairs and its place.
    Pairs(Items<(Expr, Option<Pattern>)>, Seq<(u32, Pos)>),
    /// `..` in an array pattern.
    Rest,
}

/// A variable, constant or parameter. Its place is its name.
#[cycle(stmt)]
#[derive(Drop)]
pub struct VarDecl {
    pub name: Text,
    pub pos: Pos,
    pub is_static: bool,
    pub typed: Option<TypeName>,
    /// Whether `:=` stands after the name.
    pub inferred: bool,
    /// The place of the `=`.
    pub equals: Option<Pos>,
    pub value: Option<Expr>,
    pub setter: Option<Boxed<Accessor>>,
    pub getter: Option<Boxed<Accessor>>,
}

#[cycle(stmt)]
#[derive(Drop)]
pub enum Accessor {
    /// `set = f` or `get = f`: the function's name and its place.
    Named(Text, Pos),
    /// The parameter of a setter, the block, the place of the word `set` or `get`, and the number of tokens.
    Body(Option<Text>, Items<Stmt>, Pos, u32),
}

/// An annotation. Its place is its `@`.
#[derive(Drop)]
pub struct Note {
    pub pos: Pos,
    pub name: Text,
    pub args: Seq<Expr>,
}
