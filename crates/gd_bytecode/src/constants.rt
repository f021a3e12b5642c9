//! The fields of constants.
ghost use Rattle.std.specs.Prelude.{◌≡◌, ◌||◌, ◌++◌, ◌∷◌, ℕ, [], not, IfNone, IfOk, OnOk};
ghost use Rattle.std.specs.HashSet.{contains};
ghost use Rattle.gd_bytecode.specs.ConstFields as spec;
ghost use Rattle.gd_bytecode.specs.Numbering.{AreNumbers, HasKeys, Operands, code_eq, key_code};

use crate::field::ConstField;
use crate::first::unless;
use crate::numbers::Numbers;
use crate::{ConstKind, ConstThing, Field, Operand, Program, Tag};
use gd_model::Ty;
use no_memory::NoMemory;
use std::alloc::Global;
use std::collections::HashSet;

/// The first field of the constants that is wrong.
pub fn constant_fault(
    alloc: Global,
    program: &Program,
    numbers: &Numbers,
) -> Result<Option<Field>, NoMemory>
    requires { AreNumbers program.now numbers.now }
    ensures { IfOk result (λ fault. fault ≡ spec.constant_fault program.now) }
{
    let constants = program.constants.items();
    for (i, constant) in constants.iter().enumerate() {
        if let Some(field) = entry_fault(alloc, program, numbers, i, constant)? {
            return Ok(Some(field));
        }
    }
    Ok(None)
}

fn entry_fault(
    alloc: Global,
    program: &Program,
    numbers: &Numbers,
    i: usize,
    constant: &ConstThing,
) -> Result<Option<Field>, NoMemory>
    requires { AreNumbers program.now numbers.now }
    ensures { IfOk result (λ fault. fault ≡ spec.entry_fault program.now i constant.now) }
{
    match program.types.items().get(constant.typed as usize) {
        Some(ty) => typed_fault(alloc, program, numbers, i, constant, ty),
        None => Ok(Some(Field::InConstant(i, ConstField::Typed))),
    }
}

// A constant by its type.
fn typed_fault(
    alloc: Global,
    program: &Program,
    numbers: &Numbers,
    i: usize,
    constant: &ConstThing,
    ty: &Ty,
) -> Result<Option<Field>, NoMemory>
    requires { AreNumbers program.now numbers.now }
    ensures { IfOk result (λ fault. fault ≡ spec.fault_at program.now i constant.now ty.now) }
{
    if !is_type_of(constant.kind, ty) {
        return Ok(Some(Field::InConstant(i, ConstField::Typed)));
    }
    let operands = constant.operands.items();
    match constant.kind {
        ConstKind::Array => Ok(elements_fault(program, i, ty, operands)),
        ConstKind::Dict => {
            let any = Ty::Variant;
            dict_fault(alloc, program, numbers, i, &any, &any, operands)
        }
        ConstKind::DictOf => typed_dict_fault(alloc, program, numbers, i, ty, operands),
    }
}

fn typed_dict_fault(
    alloc: Global,
    program: &Program,
    numbers: &Numbers,
    i: usize,
    ty: &Ty,
    operands: &[Operand],
) -> Result<Option<Field>, NoMemory>
    requires { AreNumbers program.now numbers.now }
    ensures { IfOk result (λ fault. fault ≡ spec.typed_dict_fault program.now i ty.now operands.now) }
{
    match ty {
        Ty::DictOf(key, value) => {
            dict_fault(alloc, program, numbers, i, key.get(), value.get(), operands)
        }
        _ => Ok(Some(Field::InConstant(i, ConstField::Typed))),
    }
}

// Whether a constant of this kind may have this type.
fn is_type_of(kind: ConstKind, ty: &Ty) -> bool
    ensures { result ≡ spec.is_type_of kind ty.now }
{
    match kind {
        ConstKind::Array => !matches!(ty, Ty::Void | Ty::ArrayOf(_)),
        ConstKind::Dict => matches!(ty, Ty::Variant),
        ConstKind::DictOf => matches!(ty, Ty::DictOf(_, _)),
    }
}

fn elements_fault(program: &Program, i: usize, element: &Ty, operands: &[Operand]) -> Option<Field>
    ensures { result ≡ spec.elements_fault program.now i element.now operands.now }
{
    for (j, operand) in operands.iter().enumerate() {
        if let Some(field) = value_fault(program, i, j, element, *operand) {
            return Some(field);
        }
    }
    None
}

// Keys and values in turn, the keys being distinct.
fn dict_fault(
    alloc: Global,
    program: &Program,
    numbers: &Numbers,
    i: usize,
    key: &Ty,
    value: &Ty,
    operands: &[Operand],
) -> Result<Option<Field>, NoMemory>
    requires { AreNumbers program.now numbers.now }
    ensures { IfOk result (λ fault. fault ≡ spec.dict_fault program.now i key.now value.now operands.now) }
{
    if operands.len() % 2 != 0 {
        return Ok(Some(Field::InConstant(i, ConstField::Count)));
    }
    let mut met = HashSet::new(alloc);
    for (j, operand) in operands.iter().enumerate() {
        if let Some(field) = pair_fault(program, numbers, &mut met, i, j, key, value, *operand)? {
            return Ok(Some(field));
        }
    }
    Ok(None)
}

// A key where `j` is even, and else a value.
fn pair_fault(
    program: &Program,
    numbers: &Numbers,
    met: &mut HashSet<(u32, usize)>,
    i: usize,
    j: usize,
    key: &Ty,
    value: &Ty,
    operand: Operand,
) -> Result<Option<Field>, NoMemory>
    requires { AreNumbers program.now numbers.now }
    ensures fault { (earlier : Operands) → HasKeys numbers.now met.old earlier
        → IfOk result (λ fault. fault ≡ spec.pair_fault program.now i key.now value.now earlier j operand) }
    ensures met { (earlier : Operands) → HasKeys numbers.now met.old earlier
        → IfOk result (λ fault. IfNone fault (HasKeys numbers.now met.new (spec.keys_with earlier j operand))) }
{
    if j % 2 == 0 {
        return key_fault(program, numbers, met, i, j, key, operand);
    }
    Ok(value_fault(program, i, j, value, operand))
}

// A key is no constant, fits the type, is there, and is none of those before it.
fn key_fault(
    program: &Program,
    numbers: &Numbers,
    met: &mut HashSet<(u32, usize)>,
    i: usize,
    j: usize,
    key: &Ty,
    operand: Operand,
) -> Result<Option<Field>, NoMemory>
    requires { AreNumbers program.now numbers.now }
    ensures fault { (earlier : Operands) → HasKeys numbers.now met.old earlier
        → IfOk result (λ fault. fault ≡ spec.key_fault program.now i j key.now earlier operand) }
    ensures met { (earlier : Operands) → HasKeys numbers.now met.old earlier
        → IfOk result (λ fault. IfNone fault (HasKeys numbers.now met.new (earlier ++ operand ∷ []))) }
{
    let tag = Field::InConstant(i, ConstField::Tag(j));
    if is_constant(operand.tag) || !operand_fits(program, key, operand) {
        return Ok(Some(tag));
    }
    match key_code(numbers, operand) {
        Some(code) => Ok(unless(add(met, code)?, tag)),
        None => Ok(Some(Field::InConstant(i, ConstField::Number(j)))),
    }
}

// Adds a code, and tells whether it was new.
fn add(met: &mut HashSet<(u32, usize)>, code: (u32, usize)) -> Result<bool, NoMemory>
    ensures new { IfOk result (λ is_new. is_new ≡ not (contains code_eq met.old code)) }
    ensures added { OnOk result ((c : ℕ × ℕ) → contains code_eq met.new c ≡ (code_eq code c || contains code_eq met.old c)) }
{
    Ok(met.insert(code)?)
}

// What equal keys share, and others do not; none where the operand names nothing.
fn key_code(numbers: &Numbers, operand: Operand) -> Option<(u32, usize)>
    ensures { result ≡ key_code numbers.now operand }
{
    match operand.tag {
        Tag::Null => Some((0, 0)),
        Tag::False => Some((1, 0)),
        Tag::True => Some((2, 0)),
        Tag::Int => Some((3, numbers.int(operand.number)?)),
        Tag::Text => Some((4, numbers.text(operand.number)?)),
        Tag::Constant => None,
    }
}

// A value that does not fit the type is wrong by its tag, and one that is not there by its number.
fn value_fault(program: &Program, i: usize, j: usize, ty: &Ty, operand: Operand) -> Option<Field>
    ensures { result ≡ spec.value_fault program.now i j ty.now operand }
{
    let number = Field::InConstant(i, ConstField::Number(j));
    if is_constant(operand.tag) && operand.number as usize >= i {
        return Some(number);
    }
    unless(
        operand_fits(program, ty, operand),
        Field::InConstant(i, ConstField::Tag(j)),
    )
    .or(unless(is_there(program, i, operand), number))
}

fn is_constant(tag: Tag) -> bool
    ensures { result ≡ spec.is_constant tag }
{
    matches!(tag, Tag::Constant)
}

// Whether the operand names something, a constant being an earlier one.
fn is_there(program: &Program, i: usize, operand: Operand) -> bool
    ensures { result ≡ spec.is_there program.now i operand }
{
    let number = operand.number as usize;
    match operand.tag {
        Tag::Int => number < program.ints.items().len(),
        Tag::Text => number < program.texts.items().len(),
        Tag::Constant => number < i,
        _ => true,
    }
}

// Whether the operand's value fits the type.
fn operand_fits(program: &Program, ty: &Ty, operand: Operand) -> bool
    ensures { result ≡ spec.operand_fits program.now ty.now operand }
{
    match operand.tag {
        Tag::Null => null_fits(ty),
        Tag::False | Tag::True => matches!(ty, Ty::Variant | Ty::Bool),
        Tag::Int => matches!(ty, Ty::Variant | Ty::Int),
        Tag::Text => matches!(ty, Ty::Variant | Ty::Str),
        Tag::Constant => constant_fits(program, ty, operand.number),
    }
}

fn null_fits(ty: &Ty) -> bool
    ensures { result ≡ spec.null_fits ty.now }
{
    matches!(
        ty,
        Ty::Variant | Ty::Nil | Ty::Void | Ty::Class(_) | Ty::Callable | Ty::Signal
    )
}

fn constant_fits(program: &Program, ty: &Ty, number: u32) -> bool
    ensures { result ≡ spec.constant_fits program.now ty.now number }
{
    let Some(constant) = program.constants.items().get(number as usize) else {
        return false;
    };
    let Some(own) = program.types.items().get(constant.typed as usize) else {
        return false;
    };
    match constant.kind {
        ConstKind::Array => array_fits(ty, own),
        ConstKind::Dict => dict_fits(ty, &Ty::Variant, &Ty::Variant),
        ConstKind::DictOf => typed_dict_fits(ty, own),
    }
}

// An array of these elements fits the type.
fn array_fits(ty: &Ty, element: &Ty) -> bool
    ensures { result ≡ spec.array_fits ty.now element.now }
{
    match ty {
        Ty::Variant | Ty::Array => true,
        Ty::ArrayOf(e) => element.same(e.get()),
        _ => false,
    }
}

// A dictionary of these keys and values fits the type.
fn dict_fits(ty: &Ty, key: &Ty, value: &Ty) -> bool
    ensures { result ≡ spec.dict_fits ty.now key.now value.now }
{
    match ty {
        Ty::Variant | Ty::Dict => true,
        Ty::DictOf(k, v) => key.same(k.get()) && value.same(v.get()),
        _ => false,
    }
}

fn typed_dict_fits(ty: &Ty, own: &Ty) -> bool
    ensures { result ≡ spec.typed_dict_fits ty.now own.now }
{
    match own {
        Ty::DictOf(key, value) => dict_fits(ty, key.get(), value.get()),
        _ => false,
    }
}
