//! Operators, builtins and printed forms (docs/runtime.md).
#![tactic(auto)]

mod laws;

pub use gd_answers::Fresh;
pub use gd_builtins::call_builtin;
pub use gd_operators::{apply, is_same, same, truth};
pub use gd_printing::text_of;
pub use laws::{
    fitting_calls_are_taken, fitting_values_are_of_the_kind, known_types_have_no_bad_operands,
    misfits_are_refused, no_bad_operands,
};
pub use value_semantics::{
    Builtin, BuiltinRow, Given, Kind, Param, Returned, builtin_named, builtin_numbered,
    builtin_row, is_unary, kind_of, kind_of_type, result_type, takes,
};
