//! Literals of arrays and dictionaries, alone and as values of typed places.
ghost use Rattle.std.specs.Prelude.{◌≡◌, IfOk};
ghost use Rattle.std.specs.Option.{option_copied};
ghost use Rattle.gd_typing.specs.Literals as spec;

use crate::verdict::Verdict;
use gd_model::Ty;
use no_memory::NoMemory;
use std::alloc::Global;

/// An array literal as the value of a place of this type, if of a known one: of the place's type where that is a typed
/// array, else an Array.
pub fn array_literal(
    alloc: Global,
    place: Option<&Ty>,
    has_bad_part: bool,
) -> Result<Verdict, NoMemory>
    ensures { IfOk result (λ v. v ≡ spec.array_literal (option_copied place.entry) has_bad_part) }
{
    if has_bad_part {
        return Ok(Verdict::bad());
    }
    Ok(Verdict::fine(array_type(alloc, place)?))
}

fn array_type(alloc: Global, place: Option<&Ty>) -> Result<Ty, NoMemory>
    ensures { IfOk result (λ t. t ≡ spec.array_type (option_copied place.entry)) }
{
    match place {
        Some(ty) => match ty {
            Ty::ArrayOf(_) => ty.copy(alloc),
            _ => Ok(Ty::Array),
        },
        None => Ok(Ty::Array),
    }
}

/// A dictionary literal as the value of a place of this type, if of a known one: of the place's type where that is a typed
/// dictionary, else a Dictionary.
pub fn dictionary_literal(
    alloc: Global,
    place: Option<&Ty>,
    has_bad_part: bool,
) -> Result<Verdict, NoMemory>
    ensures { IfOk result (λ v. v ≡ spec.dictionary_literal (option_copied place.entry) has_bad_part) }
{
    if has_bad_part {
        return Ok(Verdict::bad());
    }
    Ok(Verdict::fine(dictionary_type(alloc, place)?))
}

fn dictionary_type(alloc: Global, place: Option<&Ty>) -> Result<Ty, NoMemory>
    ensures { IfOk result (λ t. t ≡ spec.dictionary_type (option_copied place.entry)) }
{
    match place {
        Some(ty) => match ty {
            Ty::DictOf(_, _) => ty.copy(alloc),
            _ => Ok(Ty::Dict),
        },
        None => Ok(Ty::Dict),
    }
}

/// The type to which each element of an array literal goes that is the value of a place of this type; none where the
/// elements go to no typed place.
pub fn element_place<'a>(place: Option<&'a Ty>) -> Option<&'a Ty>
    ensures { option_copied result ≡ spec.element_place (option_copied place.entry) }
{
    match place {
        Some(Ty::ArrayOf(element)) => Some(element.get()),
        _ => None,
    }
}

/// The same of the keys of a dictionary literal.
pub fn key_place<'a>(place: Option<&'a Ty>) -> Option<&'a Ty>
    ensures { option_copied result ≡ spec.key_place (option_copied place.entry) }
{
    match place {
        Some(Ty::DictOf(key, _)) => Some(key.get()),
        _ => None,
    }
}

/// The same of the values of a dictionary literal.
pub fn value_place<'a>(place: Option<&'a Ty>) -> Option<&'a Ty>
    ensures { option_copied result ≡ spec.value_place (option_copied place.entry) }
{
    match place {
        Some(Ty::DictOf(_, value)) => Some(value.get()),
        _ => None,
    }
}
