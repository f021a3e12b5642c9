//! Whether a function conforms to the one of a base that it overrides.
ghost use Rattle.std.specs.Prelude.{◌≡◌};
ghost use Rattle.std.specs.Option.{option_copied};
ghost use Rattle.gd_typing.specs.Overrides as spec;

use crate::arguments::parameter_of;
use crate::declared::Declared;
use crate::known::Known;
use crate::member::Signature;
use crate::operators::is_sure;
use assignability::Bases;
use gd_members::{Found, MemberId};
use gd_model::Ty;
use gd_syntax::Text;
use script_table::Table;

/// The nearest function of this name of the bases of a class.
pub fn base_function(
    table: &Table,
    declared: &Declared,
    class: u32,
    name: &Text,
) -> Option<MemberId> {
    let mut at = table.base(class)?;
    for _ in 0..table.class_count() {
        let found = table.member(at, name)?;
        let declaring = declaring_class(table, found)?;
        if let Found::Member(member) = found
            && declared.function(member).is_some()
        {
            return Some(member);
        }
        at = table.base(declaring)?;
    }
    None
}

/// The class that declares what was found as a member.
fn declaring_class(table: &Table, found: Found) -> Option<u32> {
    match found {
        Found::Member(member) | Found::EnumValue(member, _) => Some(member.class),
        Found::Class(class) => table.outer(class),
        Found::Builtin(_) | Found::Missing => None,
    }
}

/// Whether A26 holds of a function, other than `_init`, that overrides one of a base: where one of them is static, where it
/// needs more arguments or takes fewer, where an argument of the base's would not surely go to its parameter, or where it
/// returns what the base's does not.
pub fn overrides_badly<B: Bases, K: Known>(
    bases: &B,
    declared: &Declared,
    known: &K,
    base: MemberId,
    own: MemberId,
) -> bool {
    let (Some(of_base), Some(of_own)) = (declared.function(base), declared.function(own)) else {
        return false;
    };
    of_base.is_static != of_own.is_static
        || !takes_as_many(of_base, of_own)
        || !results_agree(bases, of_base.result.as_ref(), of_own.result.as_ref())
        || !parameters_agree(bases, declared, known, base, own)
}

fn takes_as_many(base: &Signature, own: &Signature) -> bool
    ensures { result ≡ spec.takes_as_many base.now own.now }
{
    !(base.required < own.required) && !(own.parameters.len() < base.parameters.len())
}

fn parameters_agree<B: Bases, K: Known>(
    bases: &B,
    declared: &Declared,
    known: &K,
    base: MemberId,
    own: MemberId,
) -> bool {
    let count = match declared.function(base) {
        Some(signature) => signature.parameters.len(),
        None => 0,
    };
    for index in 0..count {
        let given = parameter_of(declared, known, base, index).place();
        let taken = parameter_of(declared, known, own, index).place();
        if !goes_surely(bases, given, taken) {
            return false;
        }
    }
    true
}

/// Whether a value of the one type surely goes to a place of the other; none stands for Variant.
pub(crate) fn goes_surely<B: Bases>(bases: &B, value: Option<&Ty>, place: Option<&Ty>) -> bool
    ensures { result ≡ spec.goes_surely (B.bases bases.now) (option_copied value.entry) (option_copied place.entry) }
{
    match place {
        None => true,
        Some(place) => match value {
            None => is_sure(bases, &Ty::Variant, place),
            Some(value) => is_sure(bases, value, place),
        },
    }
}

/// Whether a function with this result, or without a written one, may stand for one with that of the base.
fn results_agree<B: Bases>(bases: &B, base: Option<&Ty>, own: Option<&Ty>) -> bool
    ensures { result ≡ spec.results_agree (B.bases bases.now) (option_copied base.entry) (option_copied own.entry) }
{
    match base {
        None => true,
        Some(Ty::Variant) => true,
        Some(Ty::Void) => void_agrees(bases, own),
        base => goes_surely(bases, own, base),
    }
}

fn void_agrees<B: Bases>(bases: &B, own: Option<&Ty>) -> bool
    ensures { result ≡ spec.void_agrees (B.bases bases.now) (option_copied own.entry) }
{
    match own {
        None => true,
        Some(Ty::Void) => true,
        Some(own) => is_sure(bases, own, &Ty::Void),
    }
}
