//! The rules of functions, parameters and accessors that their trees alone decide.
use crate::blocks::{Placed, flatten};
use crate::findings::Findings;
use crate::returns::block_returns;
use crate::words::is_text;
use gd_rules::Rule;
use gd_syntax::{FuncDecl, StmtKind, TypeName, VarDecl};
use no_memory::NoMemory;
use std::alloc::Global;

/// Looks at the tree of a function.
pub fn examine_function_tree(
    alloc: Global,
    function: &FuncDecl,
    found: &mut Findings,
) -> Result<(), NoMemory> {
    found.error_if(missing_return(function), Rule::MissingReturn, function.pos)?;
    let mut statements = Vec::new(alloc);
    flatten(function.body.items(), false, &mut statements)?;
    let bad = bad_constructor(function, &statements);
    found.error_if(bad, Rule::BadConstructor, function.pos)?;
    required_after_optional(function.params.items(), found)
}

/// A17 of a function: its written type is none or void, or its body returns on every path.
fn missing_return(function: &FuncDecl) -> bool {
    has_value_type(function.result.as_ref()) && !block_returns(function.body.items())
}

/// Whether a type other than void is written.
fn has_value_type(written: Option<&TypeName>) -> bool {
    match written {
        Some(written) => !written.is_void,
        None => false,
    }
}

/// A39: `_init` is static, has a written type other than void or returns a value; `_static_init` is not static or has
/// parameters.
fn bad_constructor(function: &FuncDecl, statements: &[Placed<'_>]) -> bool {
    if is_text(&function.name, "_init") {
        return function.is_static
            || has_value_type(function.result.as_ref())
            || statements.iter().any(returns_value);
    }
    is_text(&function.name, "_static_init")
        && !(function.is_static && function.params.items().is_empty())
}

fn returns_value(placed: &Placed<'_>) -> bool {
    matches!(&placed.stmt.kind, StmtKind::Return(Some(_)))
}

/// A40: a parameter without a default value stands behind one with a default value.
pub fn required_after_optional(
    parameters: &[VarDecl],
    found: &mut Findings,
) -> Result<(), NoMemory> {
    let mut optional = false;
    for parameter in parameters {
        if parameter.value.is_some() {
            optional = true;
        } else {
            found.error_if(optional, Rule::RequiredAfterOptional, parameter.pos)?;
        }
    }
    Ok(())
}
