//! What is called, and the type of a call.
ghost use Rattle.std.specs.Prelude.{◌≡◌, IfOk};
ghost use Rattle.std.specs.Option.{option_copied};
ghost use Rattle.value_semantics.specs.BuiltinRows as rows;
ghost use Rattle.gd_typing.specs.Calls as spec;

use crate::attributes::{Receiver, is_new};
use crate::declared::Declared;
use crate::member::Signature;
use crate::names::needs_instance;
use crate::verdict::{Finding, Verdict};
use gd_members::{Found, MemberId};
use gd_model::Ty;
use gd_rules::Rule;
use gd_syntax::Text;
use no_memory::NoMemory;
use script_table::Table;
use sqlite_items::Boxed;
use std::alloc::Global;
use value_semantics::{
    Builtin, BuiltinRow, Returned, builtin_named, builtin_numbered, builtin_row, kind_of_type,
};

/// What a call calls.
#[derive(Clone, Copy, Debug, PartialEq, Eq)]
pub enum Callee {
    /// A function of a class.
    Function(MemberId),
    /// `new` of a class, and its nearest `_init` if there is one.
    Constructor(u32, Option<MemberId>),
    /// A builtin function, or a method of a builtin type.
    Builtin(Builtin),
    /// What is known when the call runs.
    Dynamic,
    /// Nothing that can be called: a rule is broken, or a part is Bad.
    Nothing,
}

/// A call before its arguments are looked at.
#[derive(Drop)]
pub struct Call {
    pub callee: Callee,
    /// Its type, and what holds where no argument is Bad.
    pub verdict: Verdict,
    /// What its name was found to be.
    pub found: Option<Found>,
}

/// A call of a bare name in a class that no local has. `is_static` says that it stands in static code. A09 where nothing has
/// the name, A24 where static code names an instance member, A42 of a builtin type, A21 of what is no function. A mark
/// stands at a call of `_init`.
pub fn bare_callee(
    alloc: Global,
    table: &Table,
    declared: &Declared,
    class: u32,
    is_static: bool,
    name: &Text,
) -> Result<Call, NoMemory> {
    let found = table.find(class, name);
    match found {
        Found::Missing => Ok(refused(Some(found), Rule::UnknownName)),
        Found::Builtin(number) => called_builtin_name(alloc, number),
        _ if is_static && needs_instance(declared, found) => {
            Ok(refused(Some(found), Rule::StaticCodeUsesInstance))
        }
        _ => {
            let otherwise = refused(Some(found), Rule::NotCallable);
            call_of(alloc, declared, Some(found), is_init(name), otherwise)
        }
    }
}

/// A call of a local, or of an expression that is no name and no attribute, of this type: A21.
pub fn called_value(ty: &Ty) -> Call
    ensures { result ≡ spec.called_value ty.now }
{
    match ty {
        Ty::Bad => of_bad(),
        _ => refused(None, Rule::NotCallable),
    }
}

/// `x.NAME(..)`. A20 where `self`, a class, null or a builtin has no such method, A25 where a class is asked for a member of
/// its instances. W2 where it is not known whether there is such a method: of Variant, and of a value whose class lacks it.
/// Marks stand at calls of `_init`, of `call` and `emit`, and of methods that write what may not fit.
pub fn method_callee(
    alloc: Global,
    table: &Table,
    declared: &Declared,
    receiver: Receiver<'_>,
    name: &Text,
) -> Result<Call, NoMemory> {
    match receiver {
        Receiver::Me(class) => {
            self_call(alloc, declared, table.member(class, name), is_init(name))
        }
        Receiver::Enum(_) => builtin_method(alloc, &Ty::Dict, name),
        Receiver::Of(ty) => match ty {
            Ty::Class(class) => {
                object_call(alloc, declared, table.member(*class, name), is_init(name))
            }
            Ty::Meta(class) => {
                if is_new(name) {
                    return Ok(construction(*class, declared.constructor(*class)));
                }
                class_call(alloc, declared, table.member(*class, name), is_init(name))
            }
            Ty::Variant => Ok(dynamic_call()),
            Ty::Bad => Ok(of_bad()),
            _ => builtin_method(alloc, ty, name),
        },
    }
}

/// `super(..)` in a function of this name, or `super.NAME(..)`, in a class: A24 in static code, A38 where no base has such a
/// function. There is no name where `super(..)` stands in no function.
pub fn super_callee(
    alloc: Global,
    table: &Table,
    declared: &Declared,
    class: u32,
    is_static: bool,
    name: Option<&Text>,
) -> Result<Call, NoMemory> {
    if is_static {
        return Ok(refused(None, Rule::StaticCodeUsesInstance));
    }
    let otherwise = refused(None, Rule::NoBaseMethod);
    call_of(
        alloc,
        declared,
        in_bases(table, class, name),
        false,
        otherwise,
    )
}

/// What the bases of the class have by this name, the class itself aside.
fn in_bases(table: &Table, class: u32, name: Option<&Text>) -> Option<Found> {
    table.member(table.base(class)?, name?)
}

/// A method of `self`.
fn self_call(
    alloc: Global,
    declared: &Declared,
    found: Option<Found>,
    is_init: bool,
) -> Result<Call, NoMemory>
    ensures { IfOk result (λ c. c ≡ spec.self_call declared.now found is_init) }
{
    call_of(
        alloc,
        declared,
        found,
        is_init,
        refused(None, Rule::NoMethod),
    )
}

/// A method of a value that faces a class.
fn object_call(
    alloc: Global,
    declared: &Declared,
    found: Option<Found>,
    is_init: bool,
) -> Result<Call, NoMemory>
    ensures { IfOk result (λ c. c ≡ spec.object_call declared.now found is_init) }
{
    call_of(alloc, declared, found, is_init, dynamic_call())
}

/// A function of a class itself.
fn class_call(
    alloc: Global,
    declared: &Declared,
    found: Option<Found>,
    is_init: bool,
) -> Result<Call, NoMemory>
    ensures { IfOk result (λ c. c ≡ spec.class_call declared.now found is_init) }
{
    if names_instance(declared, found) {
        return Ok(refused(found, Rule::InstanceMemberThroughClass));
    }
    call_of(
        alloc,
        declared,
        found,
        is_init,
        refused(None, Rule::NoMethod),
    )
}

fn names_instance(declared: &Declared, found: Option<Found>) -> bool
    ensures { result ≡ spec.names_instance declared.now found }
{
    match found {
        Some(found) => needs_instance(declared, found),
        None => false,
    }
}

/// A call of what was found, if it is a function.
fn call_of(
    alloc: Global,
    declared: &Declared,
    found: Option<Found>,
    is_init: bool,
    otherwise: Call,
) -> Result<Call, NoMemory>
    ensures { IfOk result (λ c. c ≡ spec.call_of declared.now found is_init otherwise) }
{
    match found {
        Some(Found::Member(member)) => match declared.function(member) {
            Some(signature) => function_call(alloc, member, signature, is_init),
            None => Ok(otherwise),
        },
        _ => Ok(otherwise),
    }
}

fn function_call(
    alloc: Global,
    member: MemberId,
    signature: &Signature,
    is_init: bool,
) -> Result<Call, NoMemory>
    ensures { IfOk result (λ c. c ≡ spec.function_call member signature.now is_init) }
{
    Ok(Call {
        callee: Callee::Function(member),
        verdict: Verdict {
            ty: result_of(alloc, &signature.result)?,
            finding: Finding::marked_if(is_init),
        },
        found: Some(Found::Member(member)),
    })
}

fn result_of(alloc: Global, written: &Option<Ty>) -> Result<Ty, NoMemory>
    ensures { IfOk result (λ t. t ≡ spec.result_of written.now) }
{
    match written {
        Some(ty) => ty.copy(alloc),
        None => Ok(Ty::Variant),
    }
}

fn is_init(name: &Text) -> bool {
    matches!(name.chars(), ['_', 'i', 'n', 'i', 't'])
}

fn refused(found: Option<Found>, rule: Rule) -> Call
    ensures { result ≡ spec.refused found rule }
{
    Call {
        callee: Callee::Nothing,
        verdict: Verdict::broken(rule),
        found,
    }
}

fn of_bad() -> Call
    ensures { result ≡ spec.of_bad }
{
    Call {
        callee: Callee::Nothing,
        verdict: Verdict::bad(),
        found: None,
    }
}

fn dynamic_call() -> Call
    ensures { result ≡ spec.dynamic_call }
{
    Call {
        callee: Callee::Dynamic,
        verdict: Verdict::unsafe_variant(Rule::UnsafeMethodAccess),
        found: None,
    }
}

fn construction(class: u32, init: Option<MemberId>) -> Call
    ensures { result ≡ spec.construction class init }
{
    Call {
        callee: Callee::Constructor(class, init),
        verdict: Verdict::fine(Ty::Class(class)),
        found: None,
    }
}

/// A call of a builtin by its bare name: functions are called, types and constants are not.
fn called_builtin_name(alloc: Global, number: u16) -> Result<Call, NoMemory> {
    let found = Some(Found::Builtin(number));
    if number >= 1100 {
        return Ok(refused(found, Rule::TypeIsNoValue));
    }
    match builtin_numbered(number) {
        Some(row) if row.receiver.is_none() => builtin_call(alloc, row.builtin, row, &Ty::Nil),
        _ => Ok(refused(found, Rule::NotCallable)),
    }
}

/// A method of a builtin type; null, bool and int have none.
fn builtin_method(alloc: Global, receiver: &Ty, name: &Text) -> Result<Call, NoMemory>
    ensures callee { IfOk result (λ c. c.callee ≡ spec.method_callee (spec.method_named receiver.now name.now)) }
    ensures verdict { IfOk result (λ c. c.verdict ≡ spec.method_verdict (spec.method_named receiver.now name.now) receiver.now) }
{
    match method_named(receiver, name) {
        Some(builtin) => builtin_call(alloc, builtin, builtin_row(builtin), receiver),
        None => Ok(refused(None, Rule::NoMethod)),
    }
}

fn method_named(receiver: &Ty, name: &Text) -> Option<Builtin>
    ensures { result ≡ spec.method_named receiver.now name.now }
{
    match kind_of_type(receiver) {
        Some(kind) => builtin_named(Some(kind), name),
        None => None,
    }
}

fn builtin_call(
    alloc: Global,
    builtin: Builtin,
    row: &BuiltinRow,
    receiver: &Ty,
) -> Result<Call, NoMemory>
    ensures callee { IfOk result (λ c. c.callee ≡ spec.calls builtin) }
    ensures verdict { IfOk result (λ c. c.verdict ≡ spec.builtin_verdict builtin (rows.seen row.now) receiver.now) }
{
    Ok(Call {
        callee: Callee::Builtin(builtin),
        verdict: Verdict {
            ty: returned_type(alloc, row.result, receiver)?,
            finding: Finding::marked_if(is_marked(builtin, receiver)),
        },
        found: Some(Found::Builtin(builtin as u16)),
    })
}

fn returned_type(alloc: Global, returned: Returned, receiver: &Ty) -> Result<Ty, NoMemory>
    ensures { IfOk result (λ t. t ≡ spec.returned_type returned receiver.now) }
{
    Ok(match returned {
        Returned::Void => Ty::Void,
        Returned::Variant => Ty::Variant,
        Returned::Bool => Ty::Bool,
        Returned::Int => Ty::Int,
        Returned::Str => Ty::Str,
        Returned::Array => Ty::Array,
        Returned::Strings => Ty::ArrayOf(Boxed::new(alloc, Ty::Str)?),
        Returned::Receiver => receiver.copy(alloc)?,
    })
}

/// Whether each call of the method on a receiver of this type carries a mark: what a Callable or Signal calls is not known,
/// and neither is what an array or a dictionary may hold into which a method writes.
fn is_marked(builtin: Builtin, receiver: &Ty) -> bool
    ensures { result ≡ spec.is_marked builtin receiver.now }
{
    match builtin {
        Builtin::CallableCall
        | Builtin::SignalEmit
        | Builtin::ArrayAppendArray
        | Builtin::DictionaryGetOrAdd
        | Builtin::DictionaryMerge => true,
        Builtin::ArrayAppend
        | Builtin::ArrayPushBack
        | Builtin::ArrayPushFront
        | Builtin::ArrayInsert
        | Builtin::ArrayFill => is_array(receiver),
        _ => false,
    }
}

fn is_array(ty: &Ty) -> bool
    ensures { result ≡ spec.is_array ty.now }
{
    matches!(ty, Ty::Array)
}

/// A call with its arguments: so many, and whether one of them is Bad. A15 where they are too few or too many, which makes no
/// call Bad. Where one is Bad the call is Bad, and only what holds of its bare name stays.
pub fn finished(declared: &Declared, call: Call, count: usize, has_bad_argument: bool) -> Verdict
    ensures { result ≡ spec.finished declared.now call count has_bad_argument }
{
    if has_bad_argument {
        return spoiled(call.verdict.finding.rule);
    }
    let is_wrong = is_wrong_number(declared, call.callee, count);
    counted(call.verdict, is_wrong)
}

fn spoiled(rule: Option<Rule>) -> Verdict
    ensures { result ≡ spec.spoiled rule }
{
    match rule {
        Some(rule) if is_of_name(rule) => Verdict::broken(rule),
        _ => Verdict::bad(),
    }
}

fn counted(verdict: Verdict, is_wrong: bool) -> Verdict
    ensures { result ≡ spec.counted verdict is_wrong }
{
    let Verdict { ty, finding } = verdict;
    Verdict {
        ty,
        finding: Finding {
            rule: if is_wrong {
                Some(Rule::WrongNumberOfArguments)
            } else {
                finding.rule
            },
            warning: finding.warning,
            is_marked: finding.is_marked,
        },
    }
}

/// The rules that hold of a name, whatever its arguments are.
fn is_of_name(rule: Rule) -> bool
    ensures { result ≡ spec.is_of_name rule }
{
    matches!(
        rule,
        Rule::UnknownName | Rule::StaticCodeUsesInstance | Rule::TypeIsNoValue
    )
}

fn is_wrong_number(declared: &Declared, callee: Callee, count: usize) -> bool
    ensures { result ≡ spec.is_wrong_number declared.now callee count }
{
    match callee {
        Callee::Function(member) => is_wrong_for(declared.function(member), count),
        Callee::Constructor(_, Some(member)) => is_wrong_for(declared.function(member), count),
        Callee::Constructor(_, None) => 0 < count,
        Callee::Builtin(builtin) => is_wrong_for_row(builtin_row(builtin), count),
        Callee::Dynamic | Callee::Nothing => false,
    }
}

fn is_wrong_for(signature: Option<&Signature>, count: usize) -> bool
    ensures { result ≡ spec.is_wrong_for (option_copied signature.entry) count }
{
    match signature {
        Some(signature) => {
            count < signature.required as usize || signature.parameters.len() < count
        }
        None => false,
    }
}

fn is_wrong_for_row(row: &BuiltinRow, count: usize) -> bool
    ensures { result ≡ spec.is_wrong_for_row (rows.seen row.now) count }
{
    let required = row.required;
    let optional = row.optional;
    count < required.len()
        || (!row.rest.is_some() && optional.len() < count.saturating_sub(required.len()))
}
