//! A value or a new thing, and the answers that take no memory.
ghost use Rattle.std.specs.Prelude.{◌≡◌, Err, Ok};
ghost use Rattle.gd_model.specs.declared.value.Value.TheVariants as v;

use gd_containers::{OrderedDict, ThingFault, TypedArray};
use gd_model::{RunFault, Value};

/// What an operator or a builtin gives: a value, or a thing that is not yet among the things of a run.
#[derive(Drop)]
pub enum Fresh {
    Value(Value),
    Array(TypedArray),
    Dict(OrderedDict),
}

/// The refusal with a fault that ends a run.
pub fn refused<T>(fault: RunFault) -> Result<T, ThingFault>
    ensures { result ≡ Err (ThingFault.Run fault) }
{
    Err(ThingFault::Run(fault))
}

pub fn int(n: i64) -> Result<Fresh, ThingFault>
    ensures { result ≡ Ok (Fresh.Value (v.Int n)) }
{
    Ok(Fresh::Value(Value::Int(n)))
}

pub fn boolean(b: bool) -> Result<Fresh, ThingFault>
    ensures { result ≡ Ok (Fresh.Value (v.Bool b)) }
{
    Ok(Fresh::Value(Value::Bool(b)))
}
