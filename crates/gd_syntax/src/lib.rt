//! The plain data that the front end passes on: texts, places, tokens and trees.
#![tactic(auto)]

mod operator;
mod pos;
mod seq;
#[cfg(test)]
mod tests;
mod text;
mod text_builder;
mod token;
mod tree;

pub use operator::Operator;
pub use pos::Pos;
pub use seq::Seq;
pub use text::{MAX_TEXT, Text, TextFault};
pub use text_builder::TextBuilder;
pub use token::{Keyword, Mark, Token, TokenKind};
pub use tree::{
    Accessor, BaseName, Branch, ClassDecl, Decl, DeclKind, Expr, ExprKind, FuncDecl, Note, Pattern,
    PatternKind, Script, Stmt, StmtKind, TypeName, VarDecl,
};
