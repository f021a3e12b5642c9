ghost use Rattle.std.specs.Prelude.{◌≡◌, map};
ghost use Rattle.gd_model.specs.Meant.{datum};
ghost use Rattle.gd_answers.specs.Answers.{exact};
ghost use Rattle.value_semantics.specs.Methods as spec;

use gd_answers::refused;
use gd_containers::ThingFault;
use gd_model::{RunFault, Value};

/// The refusal of arguments that fit no form of a call: their number, or else the kind of one.
pub fn misfit<T>(args: &[Value], least: usize, most: usize) -> Result<T, ThingFault>
    ensures { result ≡ exact (spec.misfit least most (map datum args.now)) }
{
    if args.len() < least || args.len() > most {
        refused(RunFault::WrongNumberOfArguments)
    } else {
        refused(RunFault::ValueOfAnotherType)
    }
}
