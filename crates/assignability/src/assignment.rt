//! Whether a value of one type may be assigned to a place of another.
ghost use Rattle.std.specs.Prelude.{◌≡◌};
ghost use Rattle.assignability.specs.Assign as spec;

use crate::Bases;
use gd_model::Ty;

/// Whether a value of one type may be assigned to a place of another.
#[derive(Clone, Copy, Debug, PartialEq, Eq)]
pub enum Assignment {
    /// It fits.
    Sure,
    /// It may fit, and is tested when it is assigned.
    Checked,
    /// It does not fit.
    Never,
}

/// Whether a value of the type `s` may be assigned to a place of the type `t`. `None` where `s` is void or a class itself,
/// which are no values.
pub fn assign<B: Bases>(bases: &B, s: &Ty, t: &Ty) -> Option<Assignment>
    ensures { result ≡ spec.assign (B.bases bases.now) s.now t.now }
{
    if is_bad(s) || is_bad(t) {
        return Some(Assignment::Sure);
    }
    if is_no_value(s) {
        return None;
    }
    if is_variant(t) {
        return Some(Assignment::Sure);
    }
    if is_variant(s) {
        return Some(Assignment::Checked);
    }
    if s.same(t) {
        return Some(Assignment::Sure);
    }
    Some(assign_other(bases, s, t))
}

fn assign_other<B: Bases>(bases: &B, s: &Ty, t: &Ty) -> Assignment
    ensures { result ≡ spec.assign_other (B.bases bases.now) s.now t.now }
{
    match s {
        Ty::Nil => from_null(t),
        Ty::Class(c) => from_class(bases, *c, t),
        Ty::Array => from_array(t),
        Ty::ArrayOf(_) => from_typed_array(t),
        Ty::Dict => from_dict(t),
        Ty::DictOf(_, _) => from_typed_dict(t),
        _ => Assignment::Never,
    }
}

fn from_null(t: &Ty) -> Assignment
    ensures { result ≡ spec.from_null t.now }
{
    match t {
        Ty::Class(_) => Assignment::Sure,
        _ => Assignment::Never,
    }
}

fn from_class<B: Bases>(bases: &B, c: u32, t: &Ty) -> Assignment
    ensures { result ≡ spec.from_class (B.bases bases.now) c t.now }
{
    match t {
        Ty::Class(d) if bases.is_base(c, *d) => Assignment::Sure,
        Ty::Class(d) if bases.is_base(*d, c) => Assignment::Checked,
        _ => Assignment::Never,
    }
}

fn from_array(t: &Ty) -> Assignment
    ensures { result ≡ spec.from_array t.now }
{
    match t {
        Ty::ArrayOf(_) => Assignment::Checked,
        _ => Assignment::Never,
    }
}

fn from_typed_array(t: &Ty) -> Assignment
    ensures { result ≡ spec.from_typed_array t.now }
{
    match t {
        Ty::Array => Assignment::Sure,
        _ => Assignment::Never,
    }
}

fn from_dict(t: &Ty) -> Assignment
    ensures { result ≡ spec.from_dict t.now }
{
    match t {
        Ty::DictOf(_, _) => Assignment::Checked,
        _ => Assignment::Never,
    }
}

fn from_typed_dict(t: &Ty) -> Assignment
    ensures { result ≡ spec.from_typed_dict t.now }
{
    match t {
        Ty::Dict => Assignment::Sure,
        _ => Assignment::Never,
    }
}

fn is_bad(t: &Ty) -> bool
    ensures { result ≡ spec.is_bad t.now }
{
    matches!(t, Ty::Bad)
}

fn is_variant(t: &Ty) -> bool
    ensures { result ≡ spec.is_variant t.now }
{
    matches!(t, Ty::Variant)
}

fn is_no_value(t: &Ty) -> bool
    ensures { result ≡ spec.is_no_value t.now }
{
    matches!(t, Ty::Void | Ty::Meta(_))
}
