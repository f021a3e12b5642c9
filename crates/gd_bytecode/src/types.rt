//! The fields of types.
ghost use Rattle.std.specs.Prelude.{◌≡◌, ◌||◌, ℕ, nat_eq, IfOk, OnOk, None};
ghost use Rattle.std.specs.HashSet.{contains};
ghost use Rattle.gd_bytecode.specs.TypeFields as spec;

use crate::Field;
use crate::field::TypeField;
use crate::first::unless;
use gd_model::Ty;
use no_memory::NoMemory;
use std::alloc::Global;
use std::collections::HashSet;

/// The first field of the types that is wrong.
#[tactic(auto, using(crate::proofs::TypesMet::met_more, crate::proofs::TypesMet::same_fault))]
pub fn type_fault(alloc: Global, types: &[Ty], classes: usize) -> Result<Option<Field>, NoMemory>
    ensures { IfOk result (λ fault. fault ≡ spec.type_fault types.now classes) }
{
    // The plain types met so far, by their numbers.
    let mut met = HashSet::new(alloc);
    for (i, ty) in types.iter().enumerate() {
        if let Some(field) = entry_fault(&met, i, ty, classes) {
            return Ok(Some(field));
        }
        add(&mut met, ty)?;
    }
    Ok(None)
}

fn entry_fault(met: &HashSet<usize>, i: usize, ty: &Ty, classes: usize) -> Option<Field>
    ensures { result ≡ spec.entry_fault classes (spec.has met.now) i ty.now }
{
    match ty {
        Ty::Class(class) => unless(
            *class as usize <= classes,
            Field::InType(i, TypeField::Class),
        ),
        Ty::ArrayOf(element) => {
            unless(
                has(met, element.get()),
                Field::InType(i, TypeField::Element),
            )
        }
        Ty::DictOf(key, value) => dict_fault(met, i, key.get(), value.get()),
        Ty::Nil | Ty::Meta(_) | Ty::Bad => Some(Field::InType(i, TypeField::Kind)),
        _ => None,
    }
}

fn dict_fault(met: &HashSet<usize>, i: usize, key: &Ty, value: &Ty) -> Option<Field>
    ensures { result ≡ spec.dict_fault (spec.has met.now) i key.now value.now }
{
    unless(
        is_key_type(key) && has(met, key),
        Field::InType(i, TypeField::Key),
    )
    .or(unless(has(met, value), Field::InType(i, TypeField::Value)))
}

// Whether the keys of a typed dictionary may be of this type.
fn is_key_type(ty: &Ty) -> bool
    ensures { result ≡ spec.is_key_type ty.now }
{
    matches!(
        ty,
        Ty::Variant | Ty::Bool | Ty::Int | Ty::Str | Ty::Class(_)
    )
}

// A number of its own for each type that elements, keys and values may have.
fn plain_number(ty: &Ty) -> Option<usize>
    ensures { result ≡ spec.plain_number ty.now }
{
    match ty {
        Ty::Variant => Some(0),
        Ty::Bool => Some(1),
        Ty::Int => Some(2),
        Ty::Str => Some(3),
        Ty::Callable => Some(4),
        Ty::Signal => Some(5),
        Ty::Dict => Some(6),
        Ty::Array => Some(7),
        Ty::Class(class) => Some(8 + *class as usize),
        _ => None,
    }
}

fn has(met: &HashSet<usize>, ty: &Ty) -> bool
    ensures { result ≡ spec.has met.now ty.now }
{
    match plain_number(ty) {
        Some(number) => met.contains(&number),
        None => false,
    }
}

fn add(met: &mut HashSet<usize>, ty: &Ty) -> Result<(), NoMemory>
    ensures { OnOk result ((n : ℕ) → contains nat_eq met.new n ≡ (spec.has_number n ty.now || contains nat_eq met.old n)) }
{
    if let Some(number) = plain_number(ty) {
        met.insert(number)?;
    }
    Ok(())
}
