//! Which functions are methods of their class under their own name.
ghost use Rattle.std.specs.Prelude.{◌≡◌, ◌<◌, ℕ, false, true, ◌||◌, length, slice_index_or, IfOk};
ghost use Rattle.std.specs.List.{list_any};
ghost use Rattle.gd_bytecode.specs.FunctionFields.{names_own, names_so, AreNamed};
ghost use Rattle.gd_bytecode.specs.Numbering.{AreNumbers};

use crate::numbers::Numbers;
use crate::{ClassCode, Function, Method, Program};
use no_memory::NoMemory;
use std::alloc::Global;

/// For each function whether it stands among the methods of its class under the text of its name.
pub fn named_functions(
    alloc: Global,
    program: &Program,
    numbers: &Numbers,
) -> Result<Vec<bool>, NoMemory>
    requires { AreNumbers program.now numbers.now }
    ensures { IfOk result (λ named. AreNamed program.now named.items) }
{
    let mut named = unmarked(alloc, program.functions.items())?;
    let classes = program.classes.items();
    for (i, class) in classes.iter().enumerate() {
        mark_class(program, numbers, &mut named, i, class);
    }
    Ok(named)
}

#[tactic(auto, using(crate::proofs::Marked::unmarked))]
fn unmarked(alloc: Global, functions: &[Function]) -> Result<Vec<bool>, NoMemory>
    ensures count { IfOk result (λ named. length named.items ≡ length functions.now) }
    ensures none { IfOk result (λ named. (n : ℕ) → slice_index_or named.items n false ≡ false) }
{
    let mut named = Vec::new(alloc);
    named.resize(functions.len(), false)?;
    Ok(named)
}

// Marks the functions of class `i` that are its methods.
fn mark_class(
    program: &Program,
    numbers: &Numbers,
    named: &mut Vec<bool>,
    i: usize,
    class: &ClassCode,
)
    requires numbers { AreNumbers program.now numbers.now }
    requires count { length named.old.items ≡ length program.now.functions }
    ensures count { length named.new.items ≡ length program.now.functions }
    ensures marked { (n : ℕ) → slice_index_or named.new.items n false
        ≡ (list_any (names_so program.now n i) class.now.methods || slice_index_or named.old.items n false) }
{
    let methods = class.methods.items();
    for method in methods {
        mark(program, numbers, named, i, *method);
    }
}

// Marks the function of a method of class `i`, where it is the class's own.
fn mark(program: &Program, numbers: &Numbers, named: &mut Vec<bool>, i: usize, method: Method)
    requires numbers { AreNumbers program.now numbers.now }
    requires count { length named.old.items ≡ length program.now.functions }
    ensures count { length named.new.items ≡ length program.now.functions }
    ensures marked { (n : ℕ) → slice_index_or named.new.items n false
        ≡ (names_so program.now n i method || slice_index_or named.old.items n false) }
{
    let number = method.function as usize;
    if is_named(program, numbers, i, method) {
        named[number] = true;
    }
}

// Whether a method of class `i` is a function of that class under the function's own name.
fn is_named(program: &Program, numbers: &Numbers, i: usize, method: Method) -> bool
    requires { AreNumbers program.now numbers.now }
    ensures own { result ≡ names_own program.now i method }
    ensures within { result ≡ true → method.function < length program.now.functions }
{
    match program.functions.items().get(method.function as usize) {
        Some(function) => {
            function.class as usize == i && numbers.is_one_text(function.name, method.name)
        }
        None => false,
    }
}
