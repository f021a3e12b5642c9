//! What each call of a method that writes is asked first.
ghost use Rattle.std.specs.Prelude.{◌≡◌, Ok, map};
ghost use Rattle.gd_model.specs.Meant.{datum};
ghost use Rattle.gd_answers.specs.Answers.{exact};
ghost use Rattle.store_semantics.specs.Writes as spec;

use gd_answers::refused;
use gd_containers::ThingFault;
use gd_model::{RunFault, Value};
use value_semantics::Builtin;

/// How many values the method takes, at least and at most.
fn takes(method: Builtin) -> (usize, usize)
    ensures { result ≡ spec.takes method }
{
    match method {
        Builtin::ArrayAppend => (1, 1),
        Builtin::ArrayPushBack => (1, 1),
        Builtin::ArrayPushFront => (1, 1),
        Builtin::ArrayInsert => (2, 2),
        Builtin::ArrayRemoveAt => (1, 1),
        Builtin::ArrayErase => (1, 1),
        Builtin::ArrayAppendArray => (1, 1),
        Builtin::ArrayResize => (1, 1),
        Builtin::ArrayFill => (1, 1),
        Builtin::DictionaryGetOrAdd => (1, 2),
        Builtin::DictionaryErase => (1, 1),
        Builtin::DictionaryMerge => (1, 2),
        _ => (0, 0),
    }
}

/// Whether the call goes on: `WrongNumberOfArguments`, then `ReadOnly` of a container that is `fixed`.
pub fn opened(method: Builtin, fixed: bool, args: &[Value]) -> Result<(), ThingFault>
    ensures { result ≡ exact (spec.call method fixed (map datum args.now) (Ok tt)) }
{
    let (least, most) = takes(method);
    if args.len() < least || args.len() > most {
        return refused(RunFault::WrongNumberOfArguments);
    }
    if fixed {
        return refused(RunFault::ReadOnly);
    }
    Ok(())
}
