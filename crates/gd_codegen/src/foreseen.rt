//! The tests of arguments that the analysis foresaw.
//!
//! Where it knows what is called, an argument that may not fit its parameter is tested at its first token, once all
//! arguments are evaluated.
//!
//! | Test of the argument that stands `k` below the top | Code |
//! |---|---|
//! | of a type | Dup `k`, Test, Drop 1; for 0 the Test alone |
//! | of several kinds | for each kind but the last Dup `k`, Is, JumpIf end; then the last kind's test; end: |
//!
//! Where the receiver may be null, it comes first: Dup the receiver, JumpIfNot to the call, which is the fault.

use crate::action::Action;
use crate::draft::{Draft, Leap};
use crate::expression::first_token;
use crate::number::number;
use crate::scene::Scene;
use crate::type_code::{PlainType, TypeCode};
use gd_bytecode::Opcode;
use gd_model::Ty;
use gd_syntax::{Expr, Pos};
use gd_typing::{Callee, Parameter, argument, parameter_at};
use no_memory::NoMemory;
use std::alloc::Global;
use value_semantics::Param;

/// The arguments of a call, with what is known of it.
#[derive(Clone, Copy)]
pub struct Checks<'a> {
    pub callee: Callee,
    /// The type of the value before the dot.
    pub receiver: Option<&'a Ty>,
    pub arguments: &'a [Expr],
    /// Whether that value may be null.
    pub may_be_null: bool,
}

/// The arguments of a call on no value that may be null.
pub fn checks_of<'a>(
    callee: Callee,
    receiver: Option<&'a Ty>,
    arguments: &'a [Expr],
) -> Checks<'a> {
    Checks {
        callee,
        receiver,
        arguments,
        may_be_null: false,
    }
}

/// Tests the arguments on the stack that were foreseen to be tested.
pub fn test_arguments<'a>(
    scene: &Scene<'a>,
    draft: &mut Draft<'a>,
    pos: Pos,
    checks: Checks<'a>,
) -> Result<(), NoMemory> {
    let count = number(checks.arguments.len())?;
    let mut guard: Option<Leap> = None;
    let mut below = count;
    for (index, one) in checks.arguments.iter().enumerate() {
        below = below.saturating_sub(1);
        if let Some(parameter) = checked(scene, checks, index, one) {
            if checks.may_be_null && guard.is_none() {
                draft.plain(Opcode::Dup, count, 0, pos)?;
                guard = Some(draft.leap(Opcode::JumpIfNot, 0, pos)?);
            }
            test_argument(scene.alloc, draft, parameter, below, first_token(one))?;
        }
    }
    match guard {
        Some(leap) => draft.land(leap),
        None => Ok(()),
    }
}

// The parameter that an argument goes to, where it is tested against it.
fn checked<'a>(
    scene: &Scene<'a>,
    checks: Checks<'a>,
    index: usize,
    one: &Expr,
) -> Option<Parameter<'a>> {
    let parameter = parameter_at(
        scene.declared(),
        scene.typed,
        checks.callee,
        checks.receiver,
        index,
    );
    let _warning = argument(scene.table(), parameter, scene.ty(one)?).warning?;
    Some(parameter)
}

// The kinds that a parameter takes, of which the last is tested.
const SIZED: [PlainType; 3] = [PlainType::Str, PlainType::Array, PlainType::Dict];

const TO_INT: [PlainType; 3] = [PlainType::Bool, PlainType::Int, PlainType::Str];

const TO_BOOL: [PlainType; 2] = [PlainType::Bool, PlainType::Int];

fn test_argument(
    alloc: Global,
    draft: &mut Draft<'_>,
    parameter: Parameter<'_>,
    below: u32,
    pos: Pos,
) -> Result<(), NoMemory> {
    match parameter {
        Parameter::Any => Ok(()),
        Parameter::Of(ty) => test_type(draft, TypeCode::of(ty)?, below, pos),
        Parameter::Kinds(takes) => match takes {
            Param::Any | Param::Element | Param::Key | Param::Value => Ok(()),
            Param::Bool => test_plain(draft, PlainType::Bool, below, pos),
            Param::Int => test_plain(draft, PlainType::Int, below, pos),
            Param::Str => test_plain(draft, PlainType::Str, below, pos),
            Param::Array => test_plain(draft, PlainType::Array, below, pos),
            Param::Dict => test_plain(draft, PlainType::Dict, below, pos),
            Param::Callable => test_plain(draft, PlainType::Callable, below, pos),
            Param::Sized => test_kinds(alloc, draft, &SIZED, below, pos),
            Param::ToInt => test_kinds(alloc, draft, &TO_INT, below, pos),
            Param::ToBool => test_kinds(alloc, draft, &TO_BOOL, below, pos),
        },
    }
}

fn test_plain(draft: &mut Draft<'_>, ty: PlainType, below: u32, pos: Pos) -> Result<(), NoMemory> {
    test_type(draft, TypeCode::Plain(ty), below, pos)
}

fn test_type(draft: &mut Draft<'_>, ty: TypeCode, below: u32, pos: Pos) -> Result<(), NoMemory> {
    if below == 0 {
        return draft.test(ty, pos);
    }
    draft.plain(Opcode::Dup, below, 0, pos)?;
    draft.test(ty, pos)?;
    draft.give_up(1, pos)
}

fn test_kinds(
    alloc: Global,
    draft: &mut Draft<'_>,
    kinds: &[PlainType],
    below: u32,
    pos: Pos,
) -> Result<(), NoMemory> {
    let Some((last, others)) = kinds.split_last() else {
        return Ok(());
    };
    let mut right = Vec::new(alloc);
    for kind in others {
        draft.plain(Opcode::Dup, below, 0, pos)?;
        draft.add(Action::Typed(Opcode::Is, TypeCode::Plain(*kind)), pos)?;
        right.push(draft.leap(Opcode::JumpIf, 0, pos)?)?;
    }
    test_plain(draft, *last, below, pos)?;
    draft.land_all(&right)
}
