//! Casts and tests of types.
ghost use Rattle.std.specs.Prelude.{◌≡◌, IfOk};
ghost use Rattle.gd_typing.specs.Conversions as spec;

use crate::operators::{is_bad, is_variant};
use crate::verdict::{Finding, Verdict};
use assignability::{Assignment, Bases, assign};
use gd_model::Ty;
use gd_rules::Rule;
use no_memory::NoMemory;
use std::alloc::Global;

/// `x as T`, of the type of x and of T: A27 where no value of x's type goes to T, bool and int aside; W3 from Variant; a mark
/// from an array or dictionary to a typed one.
pub fn cast<B: Bases>(alloc: Global, bases: &B, from: &Ty, to: &Ty) -> Result<Verdict, NoMemory>
    ensures { IfOk result (λ v. v ≡ spec.cast (B.bases bases.now) from.now to.now) }
{
    if is_bad(from) || is_bad(to) {
        return Ok(Verdict::bad());
    }
    if is_never(bases, from, to) && !are_bool_and_int(from, to) {
        return Ok(Verdict::broken(Rule::BadCast));
    }
    Ok(Verdict {
        ty: to.copy(alloc)?,
        finding: cast_finding(from, to),
    })
}

fn cast_finding(from: &Ty, to: &Ty) -> Finding
    ensures { result ≡ spec.cast_finding from.now to.now }
{
    if is_variant(from) {
        Finding::warned(Rule::UnsafeCast)
    } else {
        Finding::marked_if(gains_types(from, to))
    }
}

fn gains_types(from: &Ty, to: &Ty) -> bool
    ensures { result ≡ spec.gains_types from.now to.now }
{
    matches!(
        (from, to),
        (Ty::Array, Ty::ArrayOf(_)) | (Ty::Dict, Ty::DictOf(_, _))
    )
}

/// The two are bool and int, in either order.
fn are_bool_and_int(from: &Ty, to: &Ty) -> bool
    ensures { result ≡ spec.are_bool_and_int from.now to.now }
{
    matches!((from, to), (Ty::Bool, Ty::Int) | (Ty::Int, Ty::Bool))
}

fn is_never<B: Bases>(bases: &B, s: &Ty, t: &Ty) -> bool
    ensures { result ≡ spec.is_never (B.bases bases.now) s.now t.now }
{
    matches!(assign(bases, s, t), Some(Assignment::Never))
}

/// `x is T`, of the type of x and of T: A28 where no value of x's type goes to T and x is not null.
pub fn test<B: Bases>(bases: &B, of: &Ty, to: &Ty) -> Verdict
    ensures { result ≡ spec.test (B.bases bases.now) of.now to.now }
{
    if is_bad(of) || is_bad(to) {
        return Verdict::bad();
    }
    if is_never(bases, of, to) && !matches!(of, Ty::Nil) {
        return Verdict::broken(Rule::TestCannotHold);
    }
    Verdict::fine(Ty::Bool)
}
