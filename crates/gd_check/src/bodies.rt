//! The bodies of functions and accessors.
use crate::blocks::flatten;
use crate::declarations::examine_function_tree;
use crate::findings::Findings;
use crate::overrides::bad_override;
use crate::scene::Scene;
use crate::statements::examine_statement;
use crate::variables::examine_variable;
use gd_members::MemberId;
use gd_rules::Rule;
use gd_syntax::{FuncDecl, Stmt, VarDecl};
use no_memory::NoMemory;

/// Looks at the statements of a body.
pub fn examine_body<'a>(
    scene: &Scene<'a>,
    body: &'a [Stmt],
    found: &mut Findings,
) -> Result<(), NoMemory> {
    let mut statements = Vec::new(scene.alloc);
    flatten(body, false, &mut statements)?;
    for placed in &statements {
        examine_statement(scene, placed, found)?;
    }
    Ok(())
}

/// Looks at a function.
pub fn examine_function<'a>(
    scene: &Scene<'a>,
    member: MemberId,
    function: &'a FuncDecl,
    found: &mut Findings,
) -> Result<(), NoMemory> {
    examine_function_tree(scene.alloc, function, found)?;
    let overrides_badly = bad_override(&scene.facts, member, function);
    found.error_if(overrides_badly, Rule::BadOverride, function.pos)?;
    examine_parameters(scene, function.params.items(), found)?;
    examine_body(scene, function.body.items(), found)
}

/// Looks at the default values of parameters.
pub fn examine_parameters(
    scene: &Scene<'_>,
    parameters: &[VarDecl],
    found: &mut Findings,
) -> Result<(), NoMemory> {
    for parameter in parameters {
        examine_variable(scene, parameter, found)?;
    }
    Ok(())
}
