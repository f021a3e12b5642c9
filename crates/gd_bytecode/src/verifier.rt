//! Which programs are verified.
ghost use Rattle.std.specs.Prelude.{◌≡◌, None, IfOk, IfErr, OnOk};
ghost use Rattle.gd_bytecode.specs.Verified as spec;

use crate::classes::class_fault;
use crate::constants::constant_fault;
use crate::functions::function_fault;
use crate::jumps::jump_fault;
use crate::limits::limit_fault;
use crate::main_class::main_fault;
use crate::named::named_functions;
use crate::numbers::Numbers;
use crate::stack::stack_fault;
use crate::types::type_fault;
use crate::unverified::{Spot, Unverified};
use crate::{Field, Function, Program};
use no_memory::NoMemory;
use std::alloc::Global;

/// Tests whether a program is verified: whether its counts keep their limits, each number names what its use wants, jumps
/// lead to right places, and each instruction fits the stack as it stands there.
///
/// Answers the first fault: the first limit that is passed, else the first wrong field in the order of the program's
/// fields, else of the first function that has one its first wrong jump, or where all its jumps are right its first
/// instruction that does not fit the stack.
///
/// Proved are the answers for limits and fields, and of code that is accepted that its jumps are right, that static
/// functions use no receiver and that nothing goes on past the end. What it finds of the stack, and which instruction of
/// code it names, is not proved.
#[tactic(auto, using(crate::proofs::Refused::told_of_code))]
pub fn verify(alloc: Global, program: &Program) -> Result<(), Unverified>
    ensures accepted { OnOk result (spec.Accepts program.now) }
    ensures refused { IfErr result (spec.Refuses program.now) }
{
    if let Some(limit) = limit_fault(program) {
        return Err(Unverified::Limit(limit));
    }
    if let Some(field) = field_fault(alloc, program)? {
        return Err(Unverified::Field(field));
    }
    let functions = program.functions.items();
    for (i, function) in functions.iter().enumerate() {
        verify_code(alloc, program, i, function)?;
    }
    Ok(())
}

// The first wrong field.
fn field_fault(alloc: Global, program: &Program) -> Result<Option<Field>, NoMemory>
    ensures { IfOk result (λ fault. fault ≡ spec.field_fault program.now) }
{
    if let Some(field) = type_fault(alloc, program.types.items(), program.classes.items().len())? {
        return Ok(Some(field));
    }
    let numbers = Numbers::of(alloc, program)?;
    if let Some(field) = constant_fault(alloc, program, &numbers)? {
        return Ok(Some(field));
    }
    if let Some(field) = class_fault(alloc, program, &numbers)? {
        return Ok(Some(field));
    }
    let named = named_functions(alloc, program, &numbers)?;
    Ok(function_fault(program, named.as_slice()).or(main_fault(program)))
}

// Tests the jumps and the stack of a function.
fn verify_code(
    alloc: Global,
    program: &Program,
    i: usize,
    function: &Function,
) -> Result<(), Unverified>
    ensures accepted { OnOk result (spec.code_fault program.now function.now ≡ None) }
    ensures refused { IfErr result spec.IsOfCode }
{
    if let Some(instruction) = jump_fault(function.code.items()) {
        return Err(Unverified::Jump(Spot {
            function: i,
            instruction,
        }));
    }
    if let Some(instruction) = stack_fault(alloc, program, function)? {
        return Err(Unverified::Stack(Spot {
            function: i,
            instruction,
        }));
    }
    Ok(())
}
