//! Bare names and `self`.
ghost use Rattle.std.specs.Prelude.{◌≡◌, IfOk};
ghost use Rattle.std.specs.Option.{option_copied};
ghost use Rattle.gd_typing.specs.Members as members;
ghost use Rattle.gd_typing.specs.Names as spec;

use crate::declared::Declared;
use crate::known::Known;
use crate::member::{Member, Typing};
use crate::verdict::Verdict;
use gd_members::{Found, Item, MemberId};
use gd_model::{Ty, impossible};
use gd_rules::Rule;
use gd_syntax::Text;
use no_memory::NoMemory;
use script_table::Table;
use std::alloc::Global;

/// The numbers of the functions `int` and `bool`.
const INT: u16 = 20;

const BOOL: u16 = 21;

/// The greatest number below those of the constants.
const LAST_METHOD: u16 = 999;

/// The greatest number below those of the types.
const LAST_CONSTANT: u16 = 1_099;

/// What a name or an attribute is.
#[derive(Drop)]
pub enum Name {
    /// It waits for the type of this item.
    Unknown(Item),
    Known(Use),
}

/// A name or an attribute whose type is known.
#[derive(Drop)]
pub struct Use {
    pub verdict: Verdict,
    /// What it was found to be; none where that is not known before a run.
    pub found: Option<Found>,
}

/// A bare name in a class that no local has, and which is not called. `is_static` says that it stands in a static function,
/// a static initial value, a constant or an enum's value. A09 where nothing has the name, A24 where static code names an
/// instance member, A29 of a builtin function, A42 of a builtin type. As the target of an assignment it has neither A29 nor
/// A42.
pub fn bare_name<K: Known>(
    alloc: Global,
    table: &Table,
    declared: &Declared,
    known: &K,
    class: u32,
    is_static: bool,
    name: &Text,
) -> Result<Name, NoMemory> {
    let found = table.find(class, name);
    match found {
        Found::Missing => Ok(named(found, Verdict::broken(Rule::UnknownName))),
        Found::Builtin(number) => Ok(named(found, builtin_name(number))),
        _ if is_static && needs_instance(declared, found) => {
            Ok(named(found, Verdict::broken(Rule::StaticCodeUsesInstance)))
        }
        _ => found_name(alloc, declared, known, found),
    }
}

/// `self` in a class: A24 in static code.
pub fn me(class: u32, is_static: bool) -> Verdict
    ensures { result ≡ spec.me class is_static }
{
    if is_static {
        Verdict::broken(Rule::StaticCodeUsesInstance)
    } else {
        Verdict::fine(Ty::Class(class))
    }
}

fn named(found: Found, verdict: Verdict) -> Name {
    Name::Known(Use {
        verdict,
        found: Some(found),
    })
}

/// A builtin's name by itself: a constant is an int, and a function and a type are no values.
fn builtin_name(number: u16) -> Verdict
    ensures { result ≡ spec.builtin_name number }
{
    if is_type(number) {
        Verdict::broken(Rule::TypeIsNoValue)
    } else if LAST_METHOD < number {
        Verdict::fine(Ty::Int)
    } else {
        Verdict::broken(Rule::NotAValue)
    }
}

/// Whether a builtin's name is that of a type: `int` and `bool`, which are functions too, and those that are none.
fn is_type(number: u16) -> bool
    ensures { result ≡ spec.is_type number }
{
    number == INT || number == BOOL || LAST_CONSTANT < number
}

/// Whether a member is of instances: a variable or a function that is not static, or a signal.
pub(crate) fn needs_instance(declared: &Declared, found: Found) -> bool
    ensures { result ≡ members.needs_instance declared.now found }
{
    match found {
        Found::Member(member) => is_of_instances(declared.member(member)),
        _ => false,
    }
}

fn is_of_instances(member: Option<&Member>) -> bool
    ensures { result ≡ members.is_of_instances (option_copied member.entry) }
{
    match member {
        Some(Member::Variable(is_static, _)) => !*is_static,
        Some(Member::Function(signature)) => !signature.is_static,
        Some(Member::Signal(_)) => true,
        _ => false,
    }
}

/// What a name is that was found, before the types of items are asked for.
#[derive(Drop)]
pub enum Source {
    /// It is this, whatever is known.
    Judged(Verdict),
    /// It has the type of this item.
    Of(Item),
    /// It is the name of this enum, and stands for all its values.
    Values(MemberId),
}

/// What a member or a class is that was found by a name.
pub(crate) fn found_name<K: Known>(
    alloc: Global,
    declared: &Declared,
    known: &K,
    found: Found,
) -> Result<Name, NoMemory> {
    match source_of(alloc, declared, found)? {
        Source::Judged(verdict) => Ok(named(found, verdict)),
        Source::Of(item) => match known.item(item) {
            Some(ty) => Ok(named(found, Verdict::fine(ty.copy(alloc)?))),
            None => Ok(Name::Unknown(item)),
        },
        Source::Values(member) => match known.unknown_value(member) {
            Some(item) => Ok(Name::Unknown(item)),
            None => Ok(named(found, Verdict::fine(Ty::Dict))),
        },
    }
}

/// What was found by a name, by what is declared.
fn source_of(alloc: Global, declared: &Declared, found: Found) -> Result<Source, NoMemory>
    ensures { IfOk result (λ s. s ≡ spec.source_of declared.now found) }
{
    match found {
        Found::Member(member) => by_member(alloc, member, declared.member(member)),
        // No file has room for an enum with so many values that their places do not fit.
        Found::EnumValue(member, place) => Ok(Source::Of(Item {
            member,
            value: place.checked_add(1).ok_or(impossible())?,
        })),
        Found::Class(class) => Ok(Source::Judged(Verdict::fine(Ty::Meta(class)))),
        Found::Builtin(number) => Ok(Source::Judged(builtin_name(number))),
        Found::Missing => Ok(Source::Judged(Verdict::broken(Rule::UnknownName))),
    }
}

fn by_member(
    alloc: Global,
    member: MemberId,
    declaration: Option<&Member>,
) -> Result<Source, NoMemory>
    ensures { IfOk result (λ s. s ≡ spec.by_member member (option_copied declaration.entry)) }
{
    match declaration {
        Some(Member::Variable(_, typing)) => by_typing(alloc, member, typing),
        Some(Member::Constant(_)) => Ok(Source::Of(Item { member, value: 0 })),
        Some(Member::Function(_)) => Ok(Source::Judged(Verdict::fine(Ty::Callable))),
        Some(Member::Signal(_)) => Ok(Source::Judged(Verdict::fine(Ty::Signal))),
        Some(Member::Enum(_)) => Ok(Source::Values(member)),
        Some(Member::Class | Member::Nothing) | None => Ok(Source::Judged(Verdict::bad())),
    }
}

fn by_typing(alloc: Global, member: MemberId, typing: &Typing) -> Result<Source, NoMemory>
    ensures { IfOk result (λ s. s ≡ spec.by_typing member typing.now) }
{
    Ok(match typing {
        Typing::Untyped => Source::Judged(Verdict::fine(Ty::Variant)),
        Typing::Written(ty) => Source::Judged(Verdict::fine(ty.copy(alloc)?)),
        Typing::Inferred => Source::Of(Item { member, value: 0 }),
    })
}
