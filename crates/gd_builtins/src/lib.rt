//! The builtin functions, and the methods that do not write (docs/runtime.md, "Builtins").
#![tactic(auto)]

mod array_methods;
mod builtin;
mod dict_methods;
mod functions;
mod makers;
mod methods;
mod misfit;
mod text_methods;

pub use builtin::call_builtin;
