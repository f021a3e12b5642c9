//! The methods that do not write, by their receivers.
ghost use Rattle.std.specs.Prelude.{map};
ghost use Rattle.gd_model.specs.Meant.{datum};
ghost use Rattle.gd_model.specs.Whole.{AllWhole, Whole};
ghost use Rattle.gd_answers.specs.Answers.{Gives};
ghost use Rattle.value_semantics.specs.Methods as spec;

use crate::array_methods::call_on_array;
use crate::dict_methods::call_on_dict;
use crate::text_methods::call_on_text;
use gd_answers::{Fresh, refused};
use gd_containers::{Look, ThingFault, array_of, dict_of};
use gd_model::{RunFault, Value};
use std::alloc::Global;
use value_semantics::Builtin;

/// A method, its receiver being the first argument.
pub fn call_method<K: Look>(
    alloc: Global,
    method: Builtin,
    args: &[Value],
    look: &K,
) -> Result<Fresh, ThingFault>
    requires whole { AllWhole (K.things look.now) (K.names look.now) args.now }
    ensures { Gives (spec.method_gives (K.store look.now) (K.names look.now) method (map datum args.now)) result }
{
    match args {
        [] => refused(RunFault::WrongNumberOfArguments),
        [receiver, rest @ ..] => call_on(alloc, method, receiver, rest, look),
    }
}

/// `NullReceiver` for null, and `NoSuchMethod` for another value that has no methods here.
fn call_on<K: Look>(
    alloc: Global,
    method: Builtin,
    receiver: &Value,
    args: &[Value],
    look: &K,
) -> Result<Fresh, ThingFault>
    requires called { Whole (K.things look.now) (K.names look.now) receiver.now }
    requires whole { AllWhole (K.things look.now) (K.names look.now) args.now }
    ensures { Gives (spec.receiver_gives (K.store look.now) (K.names look.now) method (datum receiver.now) (map datum args.now)) result }
{
    match receiver {
        Value::Str(a) => call_on_text(alloc, method, a, args, look),
        Value::Array(h) => call_on_array(alloc, method, array_of(look, *h), args, look),
        Value::Dict(h) => call_on_dict(alloc, method, dict_of(look, *h), args, look),
        Value::Nil => refused(RunFault::NullReceiver),
        _ => refused(RunFault::NoSuchMethod),
    }
}
