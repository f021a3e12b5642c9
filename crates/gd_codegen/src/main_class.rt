//! Which script can be run.
ghost use Rattle.std.specs.Prelude.{◌≡◌};
ghost use Rattle.gd_codegen.specs.MainClass as spec;
ghost use Rattle.gd_typing.specs.Members.{function_at};

use gd_infer::Typed;
use gd_members::{Found, MemberId};
use gd_outside::Path;
use gd_syntax::Text;
use gd_typing::Declared;
use no_memory::NoMemory;
use std::alloc::Global;

/// The name of the function that a run calls.
const TEST: [char; 4] = ['t', 'e', 's', 't'];

/// The class of the file with this path. None where there is none, where it has no function `test` that can be called
/// without arguments, along its bases, or where its `_init` needs an argument.
pub fn main_class(alloc: Global, typed: &Typed, main: &Path) -> Result<Option<u32>, NoMemory> {
    let Some(class) = typed.table().file_class(main) else {
        return Ok(None);
    };
    let test = test_name(alloc)?;
    let declared = typed.declared();
    if is_callable(declared, typed.table().member(class, &test))
        && makes_instance(declared, class)
    {
        Ok(Some(class))
    } else {
        Ok(None)
    }
}

fn test_name(alloc: Global) -> Result<Text, NoMemory> {
    match Text::of_slice(alloc, &TEST) {
        Ok(name) => Ok(name),
        Err(_) => Err(NoMemory),
    }
}

// Whether it is a function that needs no arguments.
fn is_callable(declared: &Declared, found: Option<Found>) -> bool
    ensures { result ≡ spec.is_callable declared.now found }
{
    match found {
        Some(Found::Member(member)) => needs_no_argument(declared, member),
        _ => false,
    }
}

// Whether an instance is made without arguments.
fn makes_instance(declared: &Declared, class: u32) -> bool
    ensures { result ≡ spec.makes_instance declared.now class }
{
    match declared.constructor(class) {
        Some(init) => needs_no_argument(declared, init),
        None => true,
    }
}

fn needs_no_argument(declared: &Declared, function: MemberId) -> bool
    ensures { result ≡ spec.needs_none (function_at declared.now function) }
{
    match declared.function(function) {
        Some(signature) => signature.required == 0,
        None => false,
    }
}
