//! Subscripts, and what a `for` goes over.
ghost use Rattle.std.specs.Prelude.{◌≡◌, IfOk};
ghost use Rattle.gd_typing.specs.Subscripts as spec;

use crate::operators::{is_bad, is_variant};
use crate::verdict::{Finding, Verdict};
use assignability::{Assignment, Bases, assign};
use gd_model::Ty;
use gd_rules::Rule;
use no_memory::NoMemory;
use std::alloc::Global;

/// `x[i]`, of the types of x and i: A18 where there is no such subscript; a mark where one of them is Variant.
pub fn subscript<B: Bases>(
    alloc: Global,
    bases: &B,
    base: &Ty,
    index: &Ty,
) -> Result<Verdict, NoMemory>
    ensures { IfOk result (λ v. v ≡ spec.subscript (B.bases bases.now) base.now index.now) }
{
    if is_bad(base) || is_bad(index) {
        return Ok(Verdict::bad());
    }
    if !has_subscript(bases, base, index) {
        return Ok(Verdict::broken(Rule::BadOperands));
    }
    Ok(Verdict {
        ty: element_type(alloc, base)?,
        finding: Finding::marked_if(is_variant(base) || is_variant(index)),
    })
}

/// Whether a base of this type has a subscript by this type.
pub(crate) fn has_subscript<B: Bases>(bases: &B, base: &Ty, index: &Ty) -> bool
    ensures { result ≡ spec.has_subscript (B.bases bases.now) base.now index.now }
{
    match base {
        Ty::Variant => true,
        Ty::Str | Ty::Array | Ty::ArrayOf(_) => is_index(index),
        Ty::Dict => may_be_key(index),
        Ty::DictOf(key, _) => may_go(bases, index, key.get()),
        _ => false,
    }
}

fn is_index(index: &Ty) -> bool
    ensures { result ≡ spec.is_index index.now }
{
    matches!(index, Ty::Variant | Ty::Int)
}

/// A value of this type may be a key of some dictionary.
fn may_be_key(ty: &Ty) -> bool
    ensures { result ≡ spec.may_be_key ty.now }
{
    matches!(
        ty,
        Ty::Variant | Ty::Nil | Ty::Bool | Ty::Int | Ty::Str | Ty::Class(_)
    )
}

fn may_go<B: Bases>(bases: &B, s: &Ty, t: &Ty) -> bool
    ensures { result ≡ spec.may_go (B.bases bases.now) s.now t.now }
{
    matches!(
        assign(bases, s, t),
        Some(Assignment::Sure | Assignment::Checked)
    )
}

/// What a subscript gives, by its base alone.
pub(crate) fn element_type(alloc: Global, base: &Ty) -> Result<Ty, NoMemory>
    ensures { IfOk result (λ t. t ≡ spec.element_type base.now) }
{
    Ok(match base {
        Ty::Str => Ty::Str,
        Ty::ArrayOf(element) => element.get().copy(alloc)?,
        Ty::DictOf(_, value) => value.get().copy(alloc)?,
        _ => Ty::Variant,
    })
}

/// Whether a write to an element carries a mark, by the types of the base and of the key, which is String for an attribute:
/// on an Array and a Dictionary, and on a typed dictionary where it is not known that the key fits. It stands at the `[` or
/// at the attribute's name. Nothing is marked where a part is Bad.
pub fn write_is_marked<B: Bases>(bases: &B, base: &Ty, key: &Ty) -> bool
    ensures { result ≡ spec.write_is_marked (B.bases bases.now) base.now key.now }
{
    if is_bad(key) {
        return false;
    }
    match base {
        Ty::Array | Ty::Dict => true,
        Ty::DictOf(wanted, _) => is_checked(bases, key, wanted.get()),
        _ => false,
    }
}

fn is_checked<B: Bases>(bases: &B, s: &Ty, t: &Ty) -> bool
    ensures { result ≡ spec.is_checked (B.bases bases.now) s.now t.now }
{
    matches!(assign(bases, s, t), Some(Assignment::Checked))
}

/// The type of the variable of a `for` over a subject of this type: A41 where none goes over it; a mark for Variant.
pub fn iterated(alloc: Global, subject: &Ty) -> Result<Verdict, NoMemory>
    ensures { IfOk result (λ v. v ≡ spec.iterated subject.now) }
{
    Ok(match subject {
        Ty::Bad => Verdict::bad(),
        Ty::Int => Verdict::fine(Ty::Int),
        Ty::Str => Verdict::fine(Ty::Str),
        Ty::Array | Ty::Dict => Verdict::fine(Ty::Variant),
        Ty::ArrayOf(element) => Verdict::fine(element.get().copy(alloc)?),
        Ty::DictOf(key, _) => Verdict::fine(key.get().copy(alloc)?),
        Ty::Variant => Verdict {
            ty: Ty::Variant,
            finding: Finding::marked(),
        },
        _ => Verdict::broken(Rule::NotIterable),
    })
}

/// The type of the variable of a `for` over `range(..)`, which is written there as a call; of the type of that call.
pub fn iterated_range(range: &Ty) -> Verdict
    ensures { result ≡ spec.iterated_range range.now }
{
    if is_bad(range) {
        Verdict::bad()
    } else {
        Verdict::fine(Ty::Int)
    }
}
