//! Declarations and classes.
use super::{Expr, Note, Stmt, TypeName, VarDecl};
use crate::{Pos, Seq, Text};
use sqlite_items::Items;

/// The tree of a file, which is a class.
pub type Script = ClassDecl;

/// A declaration, with its first and last token as at a statement.
#[cycle(decl)]
#[derive(Drop)]
pub struct Decl {
    pub pos: Pos,
    pub last: Pos,
    pub notes: Seq<Note>,
    pub kind: DeclKind,
}

#[cycle(decl)]
#[derive(Drop)]
pub enum DeclKind {
    Var(VarDecl),
    Const(VarDecl),
    Func(FuncDecl),
    /// The name, its place and the parameters.
    Signal(Text, Pos, Seq<VarDecl>),
    /// The name with its place, and the values: name, place and expression.
    Enum(Option<(Text, Pos)>, Seq<(Text, Pos, Option<Expr>)>),
    Class(ClassDecl),
    /// `pass`
    Nothing,
}

/// A function. Its place is its name; `tokens` counts its tokens.
#[derive(Drop)]
pub struct FuncDecl {
    pub name: Text,
    pub pos: Pos,
    pub is_static: bool,
    pub params: Seq<VarDecl>,
    pub result: Option<TypeName>,
    pub body: Seq<Stmt>,
    pub tokens: u32,
}

/// A class. Its place is its name, and 1:1 for a file without a name. `initial_tokens` counts the
/// tokens of all initial values of its variables.
#[cycle(decl)]
#[derive(Drop)]
pub struct ClassDecl {
    pub name: Option<Text>,
    pub pos: Pos,
    pub base: Option<BaseName>,
    pub members: Items<Decl>,
    pub initial_tokens: u32,
}

/// What stands after `extends`: a path or none, and names. Its place is the first token.
#[derive(Drop)]
pub struct BaseName {
    pub pos: Pos,
    pub path: Option<Text>,
    pub names: Seq<Text>,
}
