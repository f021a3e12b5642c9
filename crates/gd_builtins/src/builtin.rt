//! The builtins: the functions of the language, and the methods that do not write.
ghost use Rattle.std.specs.Prelude.{map};
ghost use Rattle.gd_model.specs.Meant.{datum};
ghost use Rattle.gd_model.specs.Whole.{AllWhole};
ghost use Rattle.gd_answers.specs.Answers.{Gives};
ghost use Rattle.value_semantics.specs.Builtins.{called};

use crate::functions::{call_on_ints, call_on_values};
use crate::makers::{call_char, call_range};
use crate::methods::call_method;
use gd_answers::Fresh;
use gd_containers::{Look, ThingFault};
use gd_model::Value;
use gd_printing::joined;
use std::alloc::Global;
use value_semantics::Builtin;

/// What the builtin gives with these arguments, the receiver of a method being the first. `WrongNumberOfArguments`,
/// then `ValueOfAnotherType`, then the faults of the builtin itself. The methods that write, and those of Callable
/// and Signal, are refused with `NoSuchMethod`: the machine has them.
/// The calls that the builtin's row does not take are refused as the row says, and no others as such: the laws
/// `misfits_are_refused` and `fitting_calls_are_taken`.
pub fn call_builtin<K: Look>(
    alloc: Global,
    builtin: Builtin,
    args: &[Value],
    look: &K,
) -> Result<Fresh, ThingFault>
    requires whole { AllWhole (K.things look.now) (K.names look.now) args.now }
    ensures { Gives (called (K.store look.now) (K.names look.now) builtin (map datum args.now)) result }
{
    match builtin {
        Builtin::Print | Builtin::Str => joined(alloc, args, &[], look),
        Builtin::Prints => joined(alloc, args, &[' '], look),
        Builtin::Printt => joined(alloc, args, &['\t'], look),
        Builtin::Range => call_range(alloc, args),
        Builtin::Char => call_char(alloc, args),
        Builtin::Len | Builtin::Typeof | Builtin::IsSame | Builtin::Int | Builtin::Bool => {
            call_on_values(builtin, args, look)
        }
        Builtin::Abs
        | Builtin::Absi
        | Builtin::Min
        | Builtin::Max
        | Builtin::Mini
        | Builtin::Maxi
        | Builtin::Clamp
        | Builtin::Clampi
        | Builtin::Sign
        | Builtin::Signi
        | Builtin::Posmod => call_on_ints(builtin, args),
        _ => call_method(alloc, builtin, args, look),
    }
}
