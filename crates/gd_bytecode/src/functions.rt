//! The fields of functions and of their instructions.
ghost use Rattle.std.specs.Prelude.{◌≡◌, false, slice_index_or};
ghost use Rattle.gd_bytecode.specs.FunctionFields as spec;

use crate::field::FunctionField;
use crate::first::{unless, within};
use crate::{Field, Function, Instr, Opcode, Program};
use gd_model::Ty;

/// The number of operators.
pub const OPERATORS: u32 = 23;

/// The number of builtin functions, which come before the methods.
pub const BUILTIN_FUNCTIONS: u32 = 22;

/// The number of tags that Push knows.
pub const TAGS: u32 = 6;

/// The first field of the functions that is wrong. `named` are the functions that are methods of their class under their
/// own name.
pub fn function_fault(program: &Program, named: &[bool]) -> Option<Field>
    requires { spec.AreNamed program.now named.now }
    ensures { result ≡ spec.function_fault program.now }
{
    let functions = program.functions.items();
    for (i, function) in functions.iter().enumerate() {
        if let Some(field) = entry_fault(program, named, i, function) {
            return Some(field);
        }
    }
    None
}

fn entry_fault(program: &Program, named: &[bool], i: usize, function: &Function) -> Option<Field>
    requires { spec.AreNamed program.now named.now }
    ensures { result ≡ spec.entry_fault program.now i function.now }
{
    if let Some(field) = head_fault(program, i, function) {
        return Some(field);
    }
    if let Some(field) = locals_fault(program, i, function.types.items()) {
        return Some(field);
    }
    if let Some(field) = count_fault(program, i, function) {
        return Some(field);
    }
    code_fault(program, named, i, function)
}

fn head_fault(program: &Program, i: usize, function: &Function) -> Option<Field>
    ensures { result ≡ spec.head_fault program.now i function.now }
{
    let texts = program.texts.items().len();
    let paths = program.paths.items().len();
    let classes = program.classes.items().len();
    within(
        function.name,
        texts,
        Field::InFunction(i, FunctionField::Name),
    )
    .or(within(
        function.path,
        paths,
        Field::InFunction(i, FunctionField::Path),
    ))
    .or(within(
        function.class,
        classes,
        Field::InFunction(i, FunctionField::Class),
    ))
}

fn locals_fault(program: &Program, i: usize, types: &[u32]) -> Option<Field>
    ensures { result ≡ spec.locals_fault program.now i types.now }
{
    let size = program.types.items().len();
    for (j, ty) in types.iter().enumerate() {
        if let Some(field) = within(*ty, size, Field::InFunction(i, FunctionField::Local(j))) {
            return Some(field);
        }
    }
    None
}

fn count_fault(program: &Program, i: usize, function: &Function) -> Option<Field>
    ensures { result ≡ spec.count_fault program.now i function.now }
{
    let types = program.types.items().len();
    let is_some_code = !function.code.items().is_empty();
    within(
        function.returns,
        types,
        Field::InFunction(i, FunctionField::Returns),
    )
    .or(unless(is_some_code, Field::InFunction(i, FunctionField::Count)))
}

fn code_fault(program: &Program, named: &[bool], i: usize, function: &Function) -> Option<Field>
    requires { spec.AreNamed program.now named.now }
    ensures { result ≡ spec.code_fault program.now i function.now }
{
    let code = function.code.items();
    for (k, instr) in code.iter().enumerate() {
        if let Some(field) = instr_fault(program, named, i, function, k, *instr) {
            return Some(field);
        }
    }
    None
}

fn instr_fault(
    program: &Program,
    named: &[bool],
    i: usize,
    function: &Function,
    k: usize,
    instr: Instr,
) -> Option<Field>
    requires { spec.AreNamed program.now named.now }
    ensures { result ≡ spec.instr_fault program.now i function.now k instr }
{
    unless(
        is_a_right(program, named, function, instr),
        Field::InFunction(i, FunctionField::A(k)),
    )
    .or(unless(
        is_b_right(program, instr),
        Field::InFunction(i, FunctionField::B(k)),
    ))
}

// Whether the number `a` of an instruction is one that its operation takes.
fn is_a_right(program: &Program, named: &[bool], function: &Function, instr: Instr) -> bool
    requires { spec.AreNamed program.now named.now }
    ensures { result ≡ spec.is_a_right program.now function.now instr.op instr.a instr.b }
{
    let a = instr.a as usize;
    match instr.op {
        Opcode::Push => instr.a < TAGS,
        Opcode::Get | Opcode::Set => a < function.types.items().len(),
        Opcode::Clear => instr.a <= instr.b && instr.b as usize <= function.types.items().len(),
        Opcode::Default => instr.a < function.params,
        Opcode::Op => instr.a < OPERATORS,
        Opcode::Range => 1 <= instr.a && instr.a <= 3,
        Opcode::Fail => instr.a <= 1,
        Opcode::Func => is_static(program, instr.a) && is_marked(named, a),
        op => is_type_right(program, op, a) && is_text_right(program, op, a),
    }
}

#[tactic(auto, using(std::proofs::lemmas::Option::gets))]
fn is_marked(named: &[bool], number: usize) -> bool
    ensures { result ≡ slice_index_or named.now number false }
{
    named.get(number).copied().unwrap_or(false)
}

// Whether `a` names a type, where it is to.
fn is_type_right(program: &Program, op: Opcode, a: usize) -> bool
    ensures { result ≡ spec.is_type_right program.now op a }
{
    match op {
        Opcode::Is | Opcode::As | Opcode::Test => a < program.types.items().len(),
        _ => true,
    }
}

// Whether `a` names a text, where it is to.
fn is_text_right(program: &Program, op: Opcode, a: usize) -> bool
    ensures { result ≡ spec.is_text_right program.now op a }
{
    match op {
        Opcode::Attr
        | Opcode::SetAttr
        | Opcode::Own
        | Opcode::SetOwn
        | Opcode::Static
        | Opcode::SetStatic => a < program.texts.items().len(),
        _ => true,
    }
}

fn is_static(program: &Program, function: u32) -> bool
    ensures { result ≡ spec.is_static program.now function }
{
    match program.functions.items().get(function as usize) {
        Some(function) => function.is_static,
        None => false,
    }
}

// Whether the number `b` of an instruction is one that its operation takes.
fn is_b_right(program: &Program, instr: Instr) -> bool
    ensures { result ≡ spec.is_b_right program.now instr }
{
    let b = instr.b as usize;
    match instr.op {
        Opcode::Push => is_operand_right(program, instr.a, b),
        Opcode::Array => b < program.types.items().len(),
        Opcode::DictOf => is_typed_dict(program, b),
        Opcode::Static | Opcode::SetStatic | Opcode::New => b <= program.classes.items().len(),
        Opcode::Call => b < program.texts.items().len(),
        Opcode::Direct => b < program.functions.items().len(),
        Opcode::Builtin => instr.b < BUILTIN_FUNCTIONS,
        Opcode::SizeArr | Opcode::SizeDict => instr.b <= 1,
        _ => true,
    }
}

// Whether what a Push with this tag takes is there.
fn is_operand_right(program: &Program, tag: u32, b: usize) -> bool
    ensures { result ≡ spec.is_operand_right program.now tag b }
{
    match tag {
        3 => b < program.ints.items().len(),
        4 => b < program.texts.items().len(),
        5 => b < program.constants.items().len(),
        _ => true,
    }
}

fn is_typed_dict(program: &Program, ty: usize) -> bool
    ensures { result ≡ spec.is_typed_dict program.now ty }
{
    match program.types.items().get(ty) {
        Some(ty) => matches!(ty, Ty::DictOf(_, _)),
        None => false,
    }
}
