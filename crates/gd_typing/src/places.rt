//! Values that go to places: variables, elements and returns.
ghost use Rattle.std.specs.Prelude.{◌≡◌};
ghost use Rattle.std.specs.Option.{option_copied};
ghost use Rattle.gd_typing.specs.Places as spec;

use crate::operators::is_bad;
use crate::verdict::Finding;
use assignability::{Assignment, Bases, assign};
use gd_model::Ty;
use gd_rules::Rule;

/// What holds where a value of this type goes to a place of that type: A13 where it never fits, a mark where it is tested.
/// It makes no expression Bad. So it is with an assignment, an initial or default value, a typed loop variable, an element
/// of a literal for a typed array, and a key or value of one for a typed dictionary.
pub fn assigned<B: Bases>(bases: &B, value: &Ty, place: &Ty) -> Finding
    ensures { result ≡ spec.assigned (B.bases bases.now) value.now place.now }
{
    by_assignment(assign(bases, value, place), Rule::NotAssignable)
}

fn by_assignment(answer: Option<Assignment>, rule: Rule) -> Finding
    ensures { result ≡ spec.by_assignment answer rule }
{
    match answer {
        Some(Assignment::Never) => Finding::broken(rule),
        Some(Assignment::Checked) => Finding::marked(),
        Some(Assignment::Sure) | None => Finding::none(),
    }
}

/// What a function returns.
#[derive(Clone, Copy)]
pub enum Returning<'a> {
    /// No type is written: any value, or none.
    Free,
    /// No value: a void function, and a setter.
    Nothing,
    /// A value of this type: a written type, and the variable's type of a getter.
    Value(&'a Ty),
}

/// What holds of a `return` with a value of this type, or without a value: A16 where the value never fits, where it is
/// missing, and where there may be none; a mark where it is tested.
pub fn returned<B: Bases>(bases: &B, returning: Returning<'_>, value: Option<&Ty>) -> Finding
    ensures { result ≡ spec.returned (B.bases bases.now) returning.entry (option_copied value.entry) }
{
    match returning {
        Returning::Free => Finding::none(),
        Returning::Nothing => match value {
            None => Finding::none(),
            Some(ty) if is_bad(ty) => Finding::none(),
            Some(_) => Finding::broken(Rule::BadReturn),
        },
        Returning::Value(ty) => match value {
            None => Finding::broken(Rule::BadReturn),
            Some(value) => by_assignment(assign(bases, value, ty), Rule::BadReturn),
        },
    }
}

/// What holds of `:=` with a value of this type, which is the type of the variable in any case: A12 of Variant and null.
pub fn inferred(value: &Ty) -> Finding
    ensures { result ≡ spec.inferred value.now }
{
    match value {
        Ty::Variant | Ty::Nil => Finding::broken(Rule::CannotInfer),
        _ => Finding::none(),
    }
}
