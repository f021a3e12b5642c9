//! Attributes: a name behind a dot that is not called.
ghost use Rattle.std.specs.Prelude.{◌≡◌, IfOk};
ghost use Rattle.gd_typing.specs.Subscripts as spec;

use crate::declared::Declared;
use crate::known::Known;
use crate::names::{Name, Use, found_name, needs_instance};
use crate::subscripts::{element_type, has_subscript};
use crate::verdict::Verdict;
use assignability::Bases;
use gd_members::{Found, MemberId};
use gd_model::Ty;
use gd_rules::Rule;
use gd_syntax::Text;
use no_memory::NoMemory;
use script_table::Table;
use std::alloc::Global;

/// What stands before the dot.
#[derive(Clone, Copy)]
pub enum Receiver<'a> {
    /// `self`, in code of this class.
    Me(u32),
    /// The name of an enum.
    Enum(MemberId),
    /// Another expression of this type; of a class itself its Meta.
    Of(&'a Ty),
}

/// The receiver that an expression is which is not `self`, by its type and by what it was found to be.
pub fn receiver_of<'a>(declared: &Declared, found: Option<Found>, ty: &'a Ty) -> Receiver<'a> {
    match found {
        Some(Found::Member(member)) if is_enum(declared, member, ty) => Receiver::Enum(member),
        _ => Receiver::Of(ty),
    }
}

fn is_enum(declared: &Declared, member: MemberId, ty: &Ty) -> bool {
    matches!(ty, Ty::Dict) && declared.enumeration(member).is_some()
}

/// `x.NAME`. A19 where `self`, a class, null or a builtin other than a dictionary has no such member, A25 where a class is
/// asked for a member of its instances, A18 where a typed dictionary has no String keys. W1 where it is not known whether
/// there is such a member: of Variant, and of a value whose class lacks it.
pub fn attribute<K: Known>(
    alloc: Global,
    table: &Table,
    declared: &Declared,
    known: &K,
    receiver: Receiver<'_>,
    name: &Text,
) -> Result<Name, NoMemory> {
    match receiver {
        Receiver::Me(class) => match table.member(class, name) {
            Some(found) => found_name(alloc, declared, known, found),
            None => Ok(unfound(Verdict::broken(Rule::NoMember))),
        },
        Receiver::Enum(member) => of_enum(alloc, declared, known, member, name),
        Receiver::Of(Ty::Class(class)) => match table.member(*class, name) {
            Some(found) => found_name(alloc, declared, known, found),
            None => Ok(unfound(Verdict::unsafe_variant(Rule::UnsafePropertyAccess))),
        },
        Receiver::Of(Ty::Meta(class)) => {
            let member = class_member(table, *class, name);
            of_class(alloc, declared, known, member)
        }
        Receiver::Of(ty) => Ok(unfound(of_value(alloc, table, ty)?)),
    }
}

fn unfound(verdict: Verdict) -> Name {
    Name::Known(Use {
        verdict,
        found: None,
    })
}

/// What a class itself has by this name. `new` is its constructor, also where a member is called so.
fn class_member(table: &Table, class: u32, name: &Text) -> Option<Found> {
    if is_new(name) {
        None
    } else {
        table.member(class, name)
    }
}

/// Whether this is the name of constructors.
pub(crate) fn is_new(name: &Text) -> bool {
    matches!(name.chars(), ['n', 'e', 'w'])
}

fn of_class<K: Known>(
    alloc: Global,
    declared: &Declared,
    known: &K,
    member: Option<Found>,
) -> Result<Name, NoMemory> {
    match member {
        None => Ok(unfound(Verdict::broken(Rule::NoMember))),
        Some(found) if needs_instance(declared, found) => Ok(Name::Known(Use {
            verdict: Verdict::broken(Rule::InstanceMemberThroughClass),
            found: Some(found),
        })),
        Some(found) => found_name(alloc, declared, known, found),
    }
}

/// A value of the enum. Any other name is a key that its dictionary may have.
fn of_enum<K: Known>(
    alloc: Global,
    declared: &Declared,
    known: &K,
    member: MemberId,
    name: &Text,
) -> Result<Name, NoMemory> {
    let place = match declared.enumeration(member) {
        Some(names) => names.place_of(name),
        None => None,
    };
    match place {
        Some(place) => found_name(alloc, declared, known, Found::EnumValue(member, place)),
        None => Ok(unfound(Verdict::fine(Ty::Variant))),
    }
}

/// An attribute of a value that is no object: of a dictionary the subscript by the name as a String.
fn of_value<B: Bases>(alloc: Global, bases: &B, ty: &Ty) -> Result<Verdict, NoMemory>
    ensures { IfOk result (λ v. v ≡ spec.value_attribute (B.bases bases.now) ty.now) }
{
    match ty {
        Ty::Bad => Ok(Verdict::bad()),
        Ty::Variant => Ok(Verdict::unsafe_variant(Rule::UnsafePropertyAccess)),
        Ty::Dict | Ty::DictOf(_, _) => of_dictionary(alloc, bases, ty),
        _ => Ok(Verdict::broken(Rule::NoMember)),
    }
}

fn of_dictionary<B: Bases>(alloc: Global, bases: &B, ty: &Ty) -> Result<Verdict, NoMemory>
    ensures { IfOk result (λ v. v ≡ spec.dictionary_attribute (B.bases bases.now) ty.now) }
{
    if has_subscript(bases, ty, &Ty::Str) {
        Ok(Verdict::fine(element_type(alloc, ty)?))
    } else {
        Ok(Verdict::broken(Rule::BadOperands))
    }
}
