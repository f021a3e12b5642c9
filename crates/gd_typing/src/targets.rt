//! Assignments.
ghost use Rattle.std.specs.Prelude.{◌≡◌, IfOk};
ghost use Rattle.gd_typing.specs.Members as members;
ghost use Rattle.gd_typing.specs.Targets as spec;

use crate::declared::Declared;
use crate::member::Member;
use crate::operators::{binary, is_bad};
use crate::places::assigned;
use crate::verdict::{Finding, Verdict};
use assignability::Bases;
use gd_members::Found;
use gd_model::Ty;
use gd_rules::Rule;
use gd_syntax::Operator;
use no_memory::NoMemory;
use std::alloc::Global;

/// What stands left of an assignment.
#[derive(Clone, Copy)]
pub enum Target<'a> {
    /// A local variable, parameter, loop variable or binding.
    Local,
    /// A local constant.
    LocalConstant,
    /// A bare name that no local has, or an attribute, that was found to be this; an attribute of which that is not known
    /// before a run has none.
    Found(Option<Found>),
    /// A subscript of a base of this type.
    Subscript(&'a Ty),
    /// `self`, or what is no name, attribute or subscript.
    Other,
}

/// What holds at an assignment, with the operator of a compound one, to a target of this type: A22 where the target is no
/// place; A18 where a compound one's operator does not take the two; A13 where what is assigned never fits, and a mark where
/// it is tested. It makes no expression Bad.
pub fn assignment<B: Bases>(
    alloc: Global,
    bases: &B,
    declared: &Declared,
    target: Target<'_>,
    place: &Ty,
    op: Option<Operator>,
    value: &Ty,
) -> Result<Finding, NoMemory>
    ensures { IfOk result (λ f. f ≡ spec.assignment (B.bases bases.now) declared.now target.entry place.now op value.now) }
{
    if is_bad(value) {
        return Ok(Finding::none());
    }
    if is_no_place(declared, target, is_bad(place)) {
        return Ok(Finding::broken(Rule::NotAssignableTarget));
    }
    match op {
        None => Ok(assigned(bases, value, place)),
        Some(op) => {
            let made = binary(alloc, op, place, value)?;
            Ok(compound(bases, place, &made))
        }
    }
}

/// Whether the target cannot be assigned to. A builtin's name cannot, whatever its type; otherwise nothing is said of a target
/// that is Bad.
fn is_no_place(declared: &Declared, target: Target<'_>, is_bad: bool) -> bool
    ensures { result ≡ spec.is_no_place declared.now target.entry is_bad }
{
    match target {
        Target::Local => false,
        Target::Found(found) => match found {
            None => false,
            Some(found) => is_no_place_found(declared, found, is_bad),
        },
        Target::Subscript(base) => !is_bad && matches!(base, Ty::Str),
        Target::LocalConstant | Target::Other => !is_bad,
    }
}

fn is_no_place_found(declared: &Declared, found: Found, is_bad: bool) -> bool
    ensures { result ≡ spec.is_no_place_found declared.now found is_bad }
{
    match found {
        Found::Builtin(_) => true,
        _ => !is_bad && !is_variable(declared, found),
    }
}

fn is_variable(declared: &Declared, found: Found) -> bool
    ensures { result ≡ members.is_variable declared.now found }
{
    match found {
        Found::Member(member) => { matches!(declared.member(member), Some(Member::Variable(_, _))) }
        _ => false,
    }
}

fn compound<B: Bases>(bases: &B, place: &Ty, made: &Verdict) -> Finding
    ensures { result ≡ spec.compound (B.bases bases.now) place.now made.now }
{
    both(made.finding, assigned(bases, &made.ty, place))
}

/// What holds of the operator, and then of the assignment.
fn both(first: Finding, second: Finding) -> Finding
    ensures { result ≡ spec.both first second }
{
    Finding {
        rule: match first.rule {
            Some(rule) => Some(rule),
            None => second.rule,
        },
        warning: first.warning,
        is_marked: first.is_marked || second.is_marked,
    }
}
