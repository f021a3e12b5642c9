//! Operators and the conditional expression.
ghost use Rattle.std.specs.Prelude.{◌≡◌, IfOk};
ghost use Rattle.gd_model.specs.SameType.{same_type};
ghost use Rattle.gd_typing.specs.Operators as spec;

use crate::verdict::{Finding, Verdict};
use assignability::{Assignment, Bases, assign};
use gd_model::Ty;
use gd_rules::Rule;
use gd_syntax::Operator;
use no_memory::NoMemory;
use std::alloc::Global;
use value_semantics::{Given, result_type};

/// An operator between operands of these types: A18 where it does not take them, W5 of a division of ints. Of a compound
/// assignment the first operand is the target.
pub fn binary(alloc: Global, op: Operator, a: &Ty, b: &Ty) -> Result<Verdict, NoMemory>
    ensures { IfOk result (λ v. v ≡ spec.binary op a.now b.now) }
{
    if is_bad(a) || is_bad(b) {
        return Ok(Verdict::bad());
    }
    given(alloc, result_type(op, a, b), a, found_between(op, a, b))
}

/// An operator before an operand of this type: A18 where it does not take it.
pub fn unary(alloc: Global, op: Operator, a: &Ty) -> Result<Verdict, NoMemory>
    ensures { IfOk result (λ v. v ≡ spec.unary op a.now) }
{
    if is_bad(a) {
        return Ok(Verdict::bad());
    }
    given(alloc, result_type(op, a, a), a, found_before(op, a))
}

fn given(
    alloc: Global,
    gives: Option<Given>,
    left: &Ty,
    finding: Finding,
) -> Result<Verdict, NoMemory>
    ensures { IfOk result (λ v. v ≡ spec.given gives left.now finding) }
{
    match gives {
        None => Ok(Verdict::broken(Rule::BadOperands)),
        Some(gives) => Ok(Verdict {
            ty: given_type(alloc, gives, left)?,
            finding,
        }),
    }
}

fn given_type(alloc: Global, given: Given, left: &Ty) -> Result<Ty, NoMemory>
    ensures { IfOk result (λ t. t ≡ spec.given_type given left.now) }
{
    Ok(match given {
        Given::Variant => Ty::Variant,
        Given::Bool => Ty::Bool,
        Given::Int => Ty::Int,
        Given::Str => Ty::Str,
        Given::Array => Ty::Array,
        Given::Left => left.copy(alloc)?,
    })
}

/// A mark stands at each operator with a Variant operand, but for `==` and `!=` with null.
fn found_between(op: Operator, a: &Ty, b: &Ty) -> Finding
    ensures { result ≡ spec.found_between op a.now b.now }
{
    Finding {
        rule: None,
        warning: if is_int_division(op, a, b) {
            Some(Rule::IntegerDivision)
        } else {
            None
        },
        is_marked: (is_variant(a) || is_variant(b)) && !is_null_test(op, a, b),
    }
}

fn found_before(op: Operator, a: &Ty) -> Finding
    ensures { result ≡ spec.found_before op a.now }
{
    Finding::marked_if(is_variant(a) && !matches!(op, Operator::Not))
}

fn is_int_division(op: Operator, a: &Ty, b: &Ty) -> bool
    ensures { result ≡ spec.is_int_division op a.now b.now }
{
    matches!((op, a, b), (Operator::Divide, Ty::Int, Ty::Int))
}

fn is_null_test(op: Operator, a: &Ty, b: &Ty) -> bool
    ensures { result ≡ spec.is_null_test op a.now b.now }
{
    matches!(op, Operator::Equal | Operator::NotEqual) && (is_nil(a) || is_nil(b))
}

/// `and` and `or`, which take any two values and give a bool.
pub fn logic(a: &Ty, b: &Ty) -> Verdict
    ensures { result ≡ spec.logic a.now b.now }
{
    if is_bad(a) || is_bad(b) {
        Verdict::bad()
    } else {
        Verdict::fine(Ty::Bool)
    }
}

/// `x if c else y`, of the types of x, c and y: the type of y where a value of x's surely goes there, else that of x where
/// one of y's does, else Variant.
pub fn choose<B: Bases>(
    alloc: Global,
    bases: &B,
    x: &Ty,
    condition: &Ty,
    y: &Ty,
) -> Result<Verdict, NoMemory>
    ensures { IfOk result (λ v. v ≡ spec.choose (B.bases bases.now) x.now condition.now y.now) }
{
    if is_bad(x) || is_bad(condition) || is_bad(y) {
        return Ok(Verdict::bad());
    }
    if is_sure(bases, x, y) {
        return Ok(Verdict::fine(y.copy(alloc)?));
    }
    if is_sure(bases, y, x) {
        return Ok(Verdict::fine(x.copy(alloc)?));
    }
    Ok(Verdict::fine(Ty::Variant))
}

/// Whether a value of the one type surely goes to a place of the other.
pub(crate) fn is_sure<B: Bases>(bases: &B, s: &Ty, t: &Ty) -> bool
    ensures { result ≡ spec.is_sure (B.bases bases.now) s.now t.now }
{
    matches!(assign(bases, s, t), Some(Assignment::Sure))
}

pub(crate) fn is_bad(ty: &Ty) -> bool
    ensures { result ≡ spec.is_bad ty.now }
{
    matches!(ty, Ty::Bad)
}

pub(crate) fn is_variant(ty: &Ty) -> bool
    ensures { result ≡ spec.is_variant ty.now }
{
    matches!(ty, Ty::Variant)
}

fn is_nil(ty: &Ty) -> bool
    ensures { result ≡ spec.is_nil ty.now }
{
    matches!(ty, Ty::Nil)
}
