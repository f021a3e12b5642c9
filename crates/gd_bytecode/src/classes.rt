//! The fields of classes.
ghost use Rattle.std.specs.Prelude.{◌≡◌, ◌||◌, ◌++◌, ◌∷◌, ℕ, [], nat_eq, not, IfNone, IfOk, OnOk};
ghost use Rattle.std.specs.HashSet.{contains};
ghost use Rattle.gd_bytecode.specs.ClassFields as spec;
ghost use Rattle.gd_bytecode.specs.Numbering.{AreNumbers, HasNames, Names, ProgramOf};

use crate::field::ClassField;
use crate::first::{unless, within};
use crate::numbers::Numbers;
use crate::{ClassCode, Field, Function, Method, Program, VarCode};
use no_memory::NoMemory;
use std::alloc::Global;
use std::collections::HashSet;

/// What a function is used for in a class.
#[derive(Clone, Copy)]
pub enum Use {
    Setter,
    Getter,
    /// The initial values of variables.
    Initial,
    /// The initial values of static variables, and `_static_init`.
    StaticInitial,
}

/// The first field of the classes that is wrong.
pub fn class_fault(
    alloc: Global,
    program: &Program,
    numbers: &Numbers,
) -> Result<Option<Field>, NoMemory>
    requires { AreNumbers program.now numbers.now }
    ensures { IfOk result (λ fault. fault ≡ spec.class_fault program.now) }
{
    let classes = program.classes.items();
    for (i, class) in classes.iter().enumerate() {
        if let Some(field) = entry_fault(alloc, program, numbers, i, class)? {
            return Ok(Some(field));
        }
    }
    Ok(None)
}

fn entry_fault(
    alloc: Global,
    program: &Program,
    numbers: &Numbers,
    i: usize,
    class: &ClassCode,
) -> Result<Option<Field>, NoMemory>
    requires { AreNumbers program.now numbers.now }
    ensures { IfOk result (λ fault. fault ≡ spec.entry_fault program.now i class.now) }
{
    if let Some(field) = head_fault(program, i, class) {
        return Ok(Some(field));
    }
    if let Some(field) = names_fault(alloc, program, numbers, i, class)? {
        return Ok(Some(field));
    }
    Ok(tail_fault(program, i, class))
}

// The variables, methods and signals, which all have names of their own.
fn names_fault(
    alloc: Global,
    program: &Program,
    numbers: &Numbers,
    i: usize,
    class: &ClassCode,
) -> Result<Option<Field>, NoMemory>
    requires { AreNumbers program.now numbers.now }
    ensures { IfOk result (λ fault. fault ≡ spec.names_fault program.now i class.now) }
{
    let mut met = HashSet::new(alloc);
    if let Some(field) = variables_fault(program, numbers, &mut met, i, class)? {
        return Ok(Some(field));
    }
    if let Some(field) = methods_fault(program, numbers, &mut met, i, class)? {
        return Ok(Some(field));
    }
    signals_fault(program, numbers, &mut met, i, class)
}

fn head_fault(program: &Program, i: usize, class: &ClassCode) -> Option<Field>
    ensures { result ≡ spec.head_fault program.now i class.now }
{
    within(
        class.name,
        program.texts.items().len(),
        Field::InClass(i, ClassField::Name),
    )
    .or(within(
        class.path,
        program.paths.items().len(),
        Field::InClass(i, ClassField::Path),
    ))
    .or(unless(
        is_earlier(class.base, i),
        Field::InClass(i, ClassField::Base),
    ))
}

// Whether a base, if there is one, is an earlier class.
fn is_earlier(base: Option<u32>, i: usize) -> bool
    ensures { result ≡ spec.is_earlier base i }
{
    match base {
        Some(base) => (base as usize) < i,
        None => true,
    }
}

fn variables_fault(
    program: &Program,
    numbers: &Numbers,
    met: &mut HashSet<usize>,
    i: usize,
    class: &ClassCode,
) -> Result<Option<Field>, NoMemory>
    requires numbers { AreNumbers program.now numbers.now }
    requires met { HasNames numbers.now met.old [] }
    ensures fault { IfOk result (λ fault. fault ≡ spec.variables_fault program.now i class.now) }
    ensures met { IfOk result (λ fault. IfNone fault (HasNames numbers.now met.new (spec.variable_names class.now.variables))) }
{
    let variables = class.variables.items();
    for (j, variable) in variables.iter().enumerate() {
        let name = Field::InClass(i, ClassField::Variable(j));
        if let Some(field) = name_fault(numbers, met, variable.name, name)? {
            return Ok(Some(field));
        }
        if let Some(field) = variable_fault(program, i, j, *variable) {
            return Ok(Some(field));
        }
    }
    Ok(None)
}

// The type and the accessors of a variable.
fn variable_fault(program: &Program, i: usize, j: usize, variable: VarCode) -> Option<Field>
    ensures { result ≡ spec.variable_fault program.now i j variable }
{
    within(
        variable.typed,
        program.types.items().len(),
        Field::InClass(i, ClassField::VariableType(j)),
    )
    .or(accessor_fault(
        program,
        i,
        variable,
        Use::Setter,
        Field::InClass(i, ClassField::Setter(j)),
    ))
    .or(accessor_fault(
        program,
        i,
        variable,
        Use::Getter,
        Field::InClass(i, ClassField::Getter(j)),
    ))
}

fn accessor_fault(
    program: &Program,
    i: usize,
    variable: VarCode,
    used: Use,
    field: Field,
) -> Option<Field>
    ensures { result ≡ spec.accessor_fault program.now i variable used field }
{
    let accessor = the_accessor(variable, used);
    if variable.is_static {
        return unless(accessor.is_none(), field);
    }
    use_fault(program, i, accessor, used, field)
}

fn the_accessor(variable: VarCode, used: Use) -> Option<u32>
    ensures { result ≡ spec.the_accessor variable used }
{
    match used {
        Use::Setter => variable.setter,
        _ => variable.getter,
    }
}

fn methods_fault(
    program: &Program,
    numbers: &Numbers,
    met: &mut HashSet<usize>,
    i: usize,
    class: &ClassCode,
) -> Result<Option<Field>, NoMemory>
    requires numbers { AreNumbers program.now numbers.now }
    requires met { HasNames numbers.now met.old (spec.variable_names class.now.variables) }
    ensures fault { IfOk result (λ fault. fault ≡ spec.methods_fault program.now i class.now) }
    ensures met { IfOk result (λ fault. IfNone fault (HasNames numbers.now met.new (spec.method_names class.now class.now.methods))) }
{
    let methods = class.methods.items();
    for (j, method) in methods.iter().enumerate() {
        let name = Field::InClass(i, ClassField::Method(j));
        if let Some(field) = name_fault(numbers, met, method.name, name)? {
            return Ok(Some(field));
        }
        if let Some(field) = function_fault(program, i, j, *method) {
            return Ok(Some(field));
        }
    }
    Ok(None)
}

fn function_fault(program: &Program, i: usize, j: usize, method: Method) -> Option<Field>
    ensures { result ≡ spec.function_fault program.now i j method }
{
    within(
        method.function,
        program.functions.items().len(),
        Field::InClass(i, ClassField::MethodFunction(j)),
    )
}

fn signals_fault(
    program: &Program,
    numbers: &Numbers,
    met: &mut HashSet<usize>,
    i: usize,
    class: &ClassCode,
) -> Result<Option<Field>, NoMemory>
    requires numbers { AreNumbers program.now numbers.now }
    requires met { HasNames numbers.now met.old (spec.method_names class.now class.now.methods) }
    ensures { IfOk result (λ fault. fault ≡ spec.signals_fault program.now i class.now) }
{
    let signals = class.signals.items();
    for (j, signal) in signals.iter().enumerate() {
        let name = Field::InClass(i, ClassField::Signal(j));
        if let Some(field) = name_fault(numbers, met, *signal, name)? {
            return Ok(Some(field));
        }
    }
    Ok(None)
}

// A name is a text, and none that the class had before.
fn name_fault(
    numbers: &Numbers,
    met: &mut HashSet<usize>,
    name: u32,
    field: Field,
) -> Result<Option<Field>, NoMemory>
    ensures fault { (p : ProgramOf) (earlier : Names) → AreNumbers p numbers.now → HasNames numbers.now met.old earlier
        → IfOk result (λ fault. fault ≡ spec.name_fault p earlier name field) }
    ensures met { (earlier : Names) → HasNames numbers.now met.old earlier
        → IfOk result (λ fault. IfNone fault (HasNames numbers.now met.new (earlier ++ name ∷ []))) }
{
    match numbers.text(name) {
        Some(number) => Ok(unless(add(met, number)?, field)),
        None => Ok(Some(field)),
    }
}

// Adds a number, and tells whether it was new.
fn add(met: &mut HashSet<usize>, number: usize) -> Result<bool, NoMemory>
    ensures new { IfOk result (λ is_new. is_new ≡ not (contains nat_eq met.old number)) }
    ensures added { OnOk result ((n : ℕ) → contains nat_eq met.new n ≡ (nat_eq number n || contains nat_eq met.old n)) }
{
    Ok(met.insert(number)?)
}

fn tail_fault(program: &Program, i: usize, class: &ClassCode) -> Option<Field>
    ensures { result ≡ spec.tail_fault program.now i class.now }
{
    let initial = Field::InClass(i, ClassField::Initial);
    let static_initial = Field::InClass(i, ClassField::StaticInitial);
    let static_init = Field::InClass(i, ClassField::StaticInit);
    use_fault(program, i, class.initial, Use::Initial, initial)
        .or(use_fault(
            program,
            i,
            class.static_initial,
            Use::StaticInitial,
            static_initial,
        ))
        .or(use_fault(
            program,
            i,
            class.static_init,
            Use::StaticInitial,
            static_init,
        ))
}

// The function that a field of class `i` names, if it names one, fits its use there.
fn use_fault(
    program: &Program,
    i: usize,
    number: Option<u32>,
    used: Use,
    field: Field,
) -> Option<Field>
    ensures { result ≡ spec.use_fault program.now i number used field }
{
    let Some(number) = number else {
        return None;
    };
    match program.functions.items().get(number as usize) {
        Some(function) => unless(serves(function, i, used), field),
        None => Some(field),
    }
}

// Whether a function may be used so in class `i`.
fn serves(function: &Function, i: usize, used: Use) -> bool
    ensures { result ≡ spec.serves function.now i used }
{
    function.class as usize == i
        && match used {
            Use::Setter => takes(function, 1),
            Use::Getter => takes(function, 0),
            Use::Initial => !function.is_static && takes(function, 0),
            Use::StaticInitial => function.is_static && takes(function, 0),
        }
}

/// Whether a function can be called with so many arguments.
pub fn takes(function: &Function, arguments: u32) -> bool
    ensures { result ≡ spec.takes function.now arguments }
{
    function.required <= arguments && arguments <= function.params
}
