//! The limits of a program's counts that the machine relies on.
ghost use Rattle.std.specs.Prelude.{◌≡◌, ℕ, length};
ghost use Rattle.gd_bytecode.specs.Limits as spec;

use crate::unverified::Limit;
use crate::{ClassCode, Function, Program, VarCode};

/// The most locals of a function.
pub const MAX_LOCALS: usize = 65_536;

/// The most instructions of a function.
pub const MAX_CODE: usize = 8_388_608;

/// The most constants and static variables of a program together.
pub const MAX_HELD: usize = 16_777_216;

/// There are fewer variables than this in all classes of a program together.
pub const VARIABLES_END: usize = 4_294_967_296;

/// The first limit that is passed: those of the functions in order, and then those of the whole program.
pub fn limit_fault(program: &Program) -> Option<Limit>
    ensures { result ≡ spec.limit_fault program.now }
{
    let functions = program.functions.items();
    for (i, function) in functions.iter().enumerate() {
        if let Some(limit) = function_limit(i, function) {
            return Some(limit);
        }
    }
    program_limit(program)
}

fn function_limit(i: usize, function: &Function) -> Option<Limit>
    ensures { result ≡ spec.function_limit i function.now }
{
    let locals = function.types.items().len();
    if function.params < function.required {
        return Some(Limit::Required(i));
    }
    if locals < function.params as usize || locals > MAX_LOCALS {
        return Some(Limit::Locals(i));
    }
    if function.code.items().len() > MAX_CODE {
        return Some(Limit::Code(i));
    }
    None
}

fn program_limit(program: &Program) -> Option<Limit>
    ensures { result ≡ spec.program_limit program.now }
{
    let classes = program.classes.items();
    if !is_room(classes, program.constants.items().len()) {
        return Some(Limit::Held);
    }
    if !are_few(classes) {
        return Some(Limit::Variables);
    }
    None
}

// Whether so many constants and the static variables are not too many.
fn is_room(classes: &[ClassCode], constants: usize) -> bool
    ensures { result ≡ spec.is_room classes.now constants }
{
    let mut held = constants;
    for class in classes {
        let statics = count_statics(class.variables.items());
        if held > MAX_HELD || statics > MAX_HELD - held {
            return false;
        }
        held += statics;
    }
    held <= MAX_HELD
}

fn count_statics(variables: &[VarCode]) -> usize
    ensures { result ≡ spec.count_statics variables.now }
{
    variables.iter().filter(|v| v.is_static).count()
}

// Whether the classes have fewer variables than 2^32.
fn are_few(classes: &[ClassCode]) -> bool
    ensures { result ≡ spec.are_few classes.now }
{
    let mut count = 0usize;
    for class in classes {
        let more = class.variables.items().len();
        if more >= VARIABLES_END - count {
            return false;
        }
        count += more;
    }
    true
}
