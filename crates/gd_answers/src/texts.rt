//! Answers that are texts.
ghost use Rattle.std.specs.Prelude.{◌≡◌, List, ℕ, Option, Err};
ghost use Rattle.gd_text.specs.Text.{Gives as GivesText};
ghost use Rattle.value_semantics.specs.Made.{text_in_range};
ghost use Rattle.gd_answers.specs.Answers.{Gives, text_fault};

use crate::fresh::Fresh;
use gd_containers::ThingFault;
use gd_model::{RunFault, Value};
use gd_syntax::{Text, TextFault};

/// The refusal that a fault of a text call is which reads no bytes.
pub fn text_refusal(fault: TextFault) -> ThingFault
    requires { ¬ (fault ≡ TextFault.NotUtf8) }
    ensures { result ≡ text_fault fault }
{
    match fault {
        TextFault::TooLong => ThingFault::Run(RunFault::TooLong),
        TextFault::OutOfRange => ThingFault::Run(RunFault::OutOfRange),
        TextFault::NotUtf8 => unreachable!(),
        TextFault::NoMemory => ThingFault::NoMemory,
    }
}

/// The text as what a call gives which reads no bytes.
pub fn text(made: Result<Text, TextFault>) -> Result<Fresh, ThingFault>
    requires { ¬ (made ≡ Err TextFault.NotUtf8) }
    ensures { (want : Option (List ℕ)) → GivesText want made → Gives (text_in_range want) result }
{
    match made {
        Ok(text) => Ok(Fresh::Value(Value::Str(text))),
        Err(fault) => Err(text_refusal(fault)),
    }
}
