//! The main class.
ghost use Rattle.std.specs.Prelude.{◌≡◌};
ghost use Rattle.std.specs.Option.{option_copied};
ghost use Rattle.gd_bytecode.specs.MainClass as spec;

use crate::classes::takes;
use crate::first::unless;
use crate::{ClassCode, Field, Program};

/// The name of the method that a run calls.
const TEST: [char; 4] = ['t', 'e', 's', 't'];

/// The main class is one that has along its bases a method `test` which can be called with no argument.
pub fn main_fault(program: &Program) -> Option<Field>
    ensures { result ≡ spec.main_fault program.now }
{
    match test_of(program) {
        Some(function) => unless(can_run(program, function), Field::Main),
        None => Some(Field::Main),
    }
}

fn can_run(program: &Program, function: u32) -> bool
    ensures { result ≡ spec.can_run program.now function }
{
    match program.functions.items().get(function as usize) {
        Some(function) => takes(function, 0),
        None => false,
    }
}

// The function of the nearest `test` along the bases of the main class.
#[tactic(auto, using(crate::proofs::Nearest::nearest_more, crate::proofs::Nearest::nearest_end))]
fn test_of(program: &Program) -> Option<u32>
    ensures { result ≡ spec.test_of program.now }
{
    let mut at = Some(program.main);
    let count = program.classes.items().len();
    for step in 0..count {
        let class = class_at(program, at)?;
        if let Some(function) = own_test(program, class) {
            return Some(function);
        }
        at = class.base;
    }
    None
}

fn class_at(program: &Program, at: Option<u32>) -> Option<&ClassCode>
    ensures { option_copied result ≡ spec.class_at program.now at }
{
    program.classes.items().get(at? as usize)
}

fn own_test(program: &Program, class: &ClassCode) -> Option<u32>
    ensures { result ≡ spec.own_test program.now class.now }
{
    let methods = class.methods.items();
    for method in methods {
        if is_test(program, method.name) {
            return Some(method.function);
        }
    }
    None
}

fn is_test(program: &Program, name: u32) -> bool
    ensures { result ≡ spec.is_test program.now name }
{
    match program.texts.items().get(name as usize) {
        Some(text) => text.chars() == TEST.as_slice(),
        None => false,
    }
}
