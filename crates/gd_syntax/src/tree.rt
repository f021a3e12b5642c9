//! The trees that the parser makes: plain data, in which parentheses are gone.
//!
//! A tree reaches itself through `Items` and `Boxed`, so that contracts see it as a finite value
//! (docs/architecture.md, "How a tree reaches itself"). Other lists are `Seq`.
mod decl;
mod expr;
mod stmt;

pub use decl::{BaseName, ClassDecl, Decl, DeclKind, FuncDecl, Script};
pub use expr::{Expr, ExprKind, TypeName};
pub use stmt::{Accessor, Branch, Note, Pattern, PatternKind, Stmt, StmtKind, VarDecl};
