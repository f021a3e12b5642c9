//! What operators, builtins and printed forms mean: functions from values and the store (`specs/`), and their rows as tables
//! (docs/runtime.md, "Operators" and "Builtins").
#![tactic(auto)]

mod builtin;
mod builtin_rows;
mod constants;
mod kind;
mod rows;
mod written;

pub use builtin::Builtin;
pub use builtin_rows::{BuiltinRow, Param, Returned, builtin_named, builtin_numbered, builtin_row};
pub use constants::{builtin_constant, constant_value};
pub use kind::{Kind, kind_of, kind_of_type};
pub use rows::{Given, alike, is_membership, is_unary, result_type, takes};
