ghost use Rattle.gd_containers.specs.Answers.{RefusedBy};
ghost use Rattle.gd_containers.specs.Keys.{key_fault};
ghost use Rattle.gd_model.specs.KeyDatum.{key_datum};
ghost use Rattle.gd_model.specs.Meant.{datum};
ghost use Rattle.gd_model.specs.Whole.{key_value};
ghost use Rattle.std.specs.Prelude.{◌≡◌, IfOk};

use crate::ThingFault;
use gd_model::{Key, RunFault, Value};

/// The key that the value is. `BadKey` exactly where its kind is none of null, bool, int, String and objects.
pub fn key_of(v: &Value) -> Result<Key, ThingFault>
    ensures key { IfOk result (λ k. key_value k ≡ v.now) }
    ensures meant { IfOk result (λ k. key_datum k ≡ datum v.now) }
    ensures faults { RefusedBy (key_fault v.now) result }
{
    match v {
        Value::Nil => Ok(Key::Nil),
        Value::Bool(b) => Ok(Key::Bool(*b)),
        Value::Int(n) => Ok(Key::Int(*n)),
        Value::Str(text) => Ok(Key::Str(text.share()?)),
        Value::Object(handle) => Ok(Key::Object(*handle)),
        Value::Array(_) | Value::Dict(_) | Value::Callable(_) | Value::Signal(_) => {
            Err(ThingFault::Run(RunFault::BadKey))
        }
    }
}
