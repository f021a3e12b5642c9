//! The parameters of what is called, and the arguments that go to them.
ghost use Rattle.std.specs.Prelude.{◌≡◌, slice_get};
ghost use Rattle.std.specs.Option.{option_copied};
ghost use Rattle.value_semantics.specs.BuiltinRows as rows;
ghost use Rattle.gd_typing.specs.Arguments as spec;

use crate::calls::Callee;
use crate::declared::Declared;
use crate::known::Known;
use crate::literals::{element_place, key_place, value_place};
use crate::member::Typing;
use crate::verdict::Finding;
use assignability::{Assignment, Bases, assign};
use gd_members::MemberId;
use gd_model::Ty;
use gd_rules::Rule;
use value_semantics::{Builtin, BuiltinRow, Param, builtin_row};

/// What a parameter takes.
#[derive(Clone, Copy)]
pub enum Parameter<'a> {
    /// Any value; also where there is no such parameter, or nothing is known of the call.
    Any,
    /// A value that goes to this type.
    Of(&'a Ty),
    /// What a builtin takes there.
    Kinds(Param),
}

impl<'a> Parameter<'a> {
    /// The type of the place that an argument is the value of, where it is known by itself.
    pub fn place(self) -> Option<&'a Ty>
        ensures { option_copied result ≡ spec.place_of (spec.taken self.entry) }
    {
        match self {
            Parameter::Of(ty) => Some(ty),
            Parameter::Any | Parameter::Kinds(_) => None,
        }
    }
}

/// The parameter with this index, from 0, of what is called, by the type of the receiver if there is one.
pub fn parameter_at<'a, K: Known>(
    declared: &'a Declared,
    known: &'a K,
    callee: Callee,
    receiver: Option<&'a Ty>,
    index: usize,
) -> Parameter<'a> {
    match callee {
        Callee::Function(member) | Callee::Constructor(_, Some(member)) => {
            parameter_of(declared, known, member, index)
        }
        Callee::Builtin(builtin) => of_builtin(builtin, receiver, index),
        Callee::Constructor(_, None) | Callee::Dynamic | Callee::Nothing => Parameter::Any,
    }
}

/// The parameter with this index of a function of a class.
pub(crate) fn parameter_of<'a, K: Known>(
    declared: &'a Declared,
    known: &'a K,
    member: MemberId,
    index: usize,
) -> Parameter<'a> {
    let Some(signature) = declared.function(member) else {
        return Parameter::Any;
    };
    match signature.parameters.get(index) {
        Some(Typing::Written(ty)) => Parameter::Of(ty),
        Some(Typing::Inferred) => match known.parameter(member, index) {
            Some(ty) => Parameter::Of(ty),
            None => Parameter::Any,
        },
        Some(Typing::Untyped) | None => Parameter::Any,
    }
}

fn of_builtin<'a>(builtin: Builtin, receiver: Option<&'a Ty>, index: usize) -> Parameter<'a>
    ensures { spec.taken result ≡ spec.by_row builtin (spec.row_parameter (rows.row_of builtin) index) (option_copied receiver.entry) }
{
    match row_parameter(builtin_row(builtin), index) {
        Some(takes) => by_receiver(builtin, takes, receiver),
        None => Parameter::Any,
    }
}

fn by_receiver<'a>(builtin: Builtin, takes: Param, receiver: Option<&'a Ty>) -> Parameter<'a>
    ensures { spec.taken result ≡ spec.by_receiver builtin takes (option_copied receiver.entry) }
{
    match takes {
        Param::Any => Parameter::Any,
        Param::Element => at_place(element_place(receiver)),
        Param::Key => {
            if is_get_or_add(builtin) {
                at_place(key_place(receiver))
            } else {
                Parameter::Any
            }
        }
        Param::Value => at_place(value_place(receiver)),
        takes => Parameter::Kinds(takes),
    }
}

fn at_place<'a>(place: Option<&'a Ty>) -> Parameter<'a>
    ensures { spec.taken result ≡ spec.at_place (option_copied place.entry) }
{
    match place {
        Some(ty) => Parameter::Of(ty),
        None => Parameter::Any,
    }
}

/// Of the methods that take a key `get_or_add` alone may write it.
fn is_get_or_add(builtin: Builtin) -> bool
    ensures { result ≡ spec.is_get_or_add builtin }
{
    matches!(builtin, Builtin::DictionaryGetOrAdd)
}

fn row_parameter(row: &BuiltinRow, index: usize) -> Option<Param>
    ensures { result ≡ spec.row_parameter (rows.seen row.now) index }
{
    let required = row.required;
    let optional = row.optional;
    match param_at(required, index) {
        Some(takes) => Some(takes),
        None => match param_at(optional, index.saturating_sub(required.len())) {
            Some(takes) => Some(takes),
            None => row.rest,
        },
    }
}

fn param_at(params: &[Param], index: usize) -> Option<Param>
    ensures { result ≡ slice_get params.now index }
{
    params.get(index).copied()
}

/// What holds of an argument of this type: A14 where it never fits the parameter, W4 where it is tested. It makes no call Bad.
pub fn argument<B: Bases>(bases: &B, parameter: Parameter<'_>, ty: &Ty) -> Finding
    ensures { result ≡ spec.argument (B.bases bases.now) (spec.taken parameter.entry) ty.now }
{
    match parameter {
        Parameter::Any => Finding::none(),
        Parameter::Of(wanted) => by_assignment(assign(bases, ty, wanted)),
        Parameter::Kinds(takes) => by_assignment(to_kinds(bases, ty, takes)),
    }
}

fn by_assignment(answer: Option<Assignment>) -> Finding
    ensures { result ≡ spec.by_assignment answer }
{
    match answer {
        Some(Assignment::Never) => Finding::broken(Rule::BadArgument),
        Some(Assignment::Checked) => Finding::warned(Rule::UnsafeCallArgument),
        Some(Assignment::Sure) | None => Finding::none(),
    }
}

/// Whether a value of this type goes to a parameter of a builtin. A parameter that takes several kinds takes no others.
fn to_kinds<B: Bases>(bases: &B, ty: &Ty, takes: Param) -> Option<Assignment>
    ensures { result ≡ spec.to_kinds (B.bases bases.now) ty.now takes }
{
    match takes {
        Param::Any | Param::Element | Param::Key | Param::Value => Some(Assignment::Sure),
        Param::Bool => assign(bases, ty, &Ty::Bool),
        Param::Int => assign(bases, ty, &Ty::Int),
        Param::Str => assign(bases, ty, &Ty::Str),
        Param::Array => assign(bases, ty, &Ty::Array),
        Param::Dict => assign(bases, ty, &Ty::Dict),
        Param::Callable => among(ty, is_callable(ty)),
        Param::Sized => among(ty, is_sized(ty)),
        Param::ToInt => among(ty, is_to_int(ty)),
        Param::ToBool => among(ty, is_to_bool(ty)),
    }
}

fn is_callable(ty: &Ty) -> bool
    ensures { result ≡ spec.is_callable ty.now }
{
    matches!(ty, Ty::Callable | Ty::Nil)
}

fn is_sized(ty: &Ty) -> bool
    ensures { result ≡ spec.is_sized ty.now }
{
    matches!(
        ty,
        Ty::Str | Ty::Array | Ty::ArrayOf(_) | Ty::Dict | Ty::DictOf(_, _)
    )
}

fn is_to_int(ty: &Ty) -> bool
    ensures { result ≡ spec.is_to_int ty.now }
{
    matches!(ty, Ty::Bool | Ty::Int | Ty::Str)
}

fn is_to_bool(ty: &Ty) -> bool
    ensures { result ≡ spec.is_to_bool ty.now }
{
    matches!(ty, Ty::Bool | Ty::Int)
}

fn among(ty: &Ty, fits: bool) -> Option<Assignment>
    ensures { result ≡ spec.among ty.now fits }
{
    match ty {
        Ty::Bad => Some(Assignment::Sure),
        Ty::Void | Ty::Meta(_) => None,
        Ty::Variant => Some(Assignment::Checked),
        _ => Some(if fits {
            Assignment::Sure
        } else {
            Assignment::Never
        }),
    }
}
