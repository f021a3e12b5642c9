//! Programs of accepted projects.
//!
//! The code of a construct is a list of instructions that name things as the source does (`action`); one function for
//! each form says what it is, with a table of what stands on the stack at its head. When a function is whole, what it
//! names gets numbers (`link`).
#![tactic(auto)]

mod action;
mod assignments;
mod attributes;
mod calls;
mod classes;
mod code_fault;
mod constants;
mod draft;
mod expression;
mod foreseen;
mod function_code;
mod function_key;
mod functions;
mod known;
mod lengths;
mod link;
mod literals;
mod loops;
mod main_class;
mod matches;
mod names;
mod number;
mod numbering;
mod places;
mod project_code;
mod scene;
mod statement;
mod tables;
mod type_code;

pub use code_fault::CodeFault;
pub use project_code::compile;
