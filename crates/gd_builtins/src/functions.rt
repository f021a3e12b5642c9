//! The functions of ints and of single values (docs/runtime.md, "Builtins").
ghost use Rattle.std.specs.Prelude.{◌≡◌, ◌∷◌, [], map};
ghost use Rattle.std.specs.Int.{int_min, int_max};
ghost use Rattle.gd_model.specs.Meant.{datum};
ghost use Rattle.gd_model.specs.Whole.{Whole, AllWhole};
ghost use Rattle.gd_answers.specs.Answers.{exact, meant};
ghost use Rattle.value_semantics.specs.Answer.{and_then, in_form};
ghost use Rattle.value_semantics.specs.Functions as spec;
ghost use Rattle.value_semantics.specs.Made.{int_made};

use gd_answers::{Fresh, boolean, int, refused};
use gd_containers::{Look, ThingFault, array_of, dict_of};
use gd_model::{RunFault, Value};
use gd_operators::is_same;
use gd_text::to_int;
use value_semantics::Builtin;

/// A function of ints. `WrongNumberOfArguments`, then `ValueOfAnotherType`, then `ZeroDivisorOrStep`.
pub fn call_on_ints(builtin: Builtin, args: &[Value]) -> Result<Fresh, ThingFault>
    ensures { meant result ≡ exact (in_form int_made (spec.ints_call builtin (map datum args.now))) }
{
    int(int_of_ints(builtin, args)?)
}

fn int_of_ints(builtin: Builtin, args: &[Value]) -> Result<i64, ThingFault>
    ensures { result ≡ exact (spec.ints_call builtin (map datum args.now)) }
{
    match builtin {
        Builtin::Abs | Builtin::Absi | Builtin::Sign | Builtin::Signi => {
            call_on_one(builtin, args)
        }
        Builtin::Mini | Builtin::Maxi | Builtin::Posmod => call_on_two(builtin, args),
        Builtin::Clamp | Builtin::Clampi => clamp(args),
        Builtin::Min => least(args),
        Builtin::Max => greatest(args),
        _ => refused(RunFault::NoSuchMethod),
    }
}

fn call_on_one(builtin: Builtin, args: &[Value]) -> Result<i64, ThingFault>
    ensures { result ≡ exact (in_form (spec.of_int builtin) (spec.one_int (map datum args.now))) }
{
    Ok(of_int(builtin, one_int(args)?))
}

fn of_int(builtin: Builtin, n: i64) -> i64
    ensures { result ≡ spec.of_int builtin n }
{
    match builtin {
        Builtin::Abs | Builtin::Absi => n.wrapping_abs(),
        _ => n.signum(),
    }
}

fn call_on_two(builtin: Builtin, args: &[Value]) -> Result<i64, ThingFault>
    ensures { result ≡ exact (and_then (spec.two_ints (map datum args.now)) (spec.of_pair builtin)) }
{
    let (x, y) = two_ints(args)?;
    of_pair(builtin, x, y)
}

fn of_pair(builtin: Builtin, x: i64, y: i64) -> Result<i64, ThingFault>
    ensures { result ≡ exact (spec.of_pair builtin (x, y)) }
{
    match builtin {
        Builtin::Mini => Ok(smaller(x, y)),
        Builtin::Maxi => Ok(larger(x, y)),
        _ => posmod(x, y),
    }
}

fn clamp(args: &[Value]) -> Result<i64, ThingFault>
    ensures { result ≡ exact (in_form spec.clamped (spec.three_ints (map datum args.now))) }
{
    Ok(clamped(three_ints(args)?))
}

/// The one argument, an int.
pub fn one_int(args: &[Value]) -> Result<i64, ThingFault>
    ensures { result ≡ exact (spec.one_int (map datum args.now)) }
{
    match args {
        [Value::Int(n)] => Ok(*n),
        [_] => refused(RunFault::ValueOfAnotherType),
        _ => refused(RunFault::WrongNumberOfArguments),
    }
}

fn two_ints(args: &[Value]) -> Result<(i64, i64), ThingFault>
    ensures { result ≡ exact (spec.two_ints (map datum args.now)) }
{
    match args {
        [x, y] => pair_of(x, y),
        _ => refused(RunFault::WrongNumberOfArguments),
    }
}

fn pair_of(x: &Value, y: &Value) -> Result<(i64, i64), ThingFault>
    ensures { result ≡ exact (spec.two_ints (datum x.now ∷ datum y.now ∷ [])) }
{
    match (x, y) {
        (Value::Int(x), Value::Int(y)) => Ok((*x, *y)),
        _ => refused(RunFault::ValueOfAnotherType),
    }
}

fn three_ints(args: &[Value]) -> Result<(i64, i64, i64), ThingFault>
    ensures { result ≡ exact (spec.three_ints (map datum args.now)) }
{
    match args {
        [x, y, z] => triple_of(x, y, z),
        _ => refused(RunFault::WrongNumberOfArguments),
    }
}

fn triple_of(x: &Value, y: &Value, z: &Value) -> Result<(i64, i64, i64), ThingFault>
    ensures { result ≡ exact (spec.three_ints (datum x.now ∷ datum y.now ∷ datum z.now ∷ [])) }
{
    match (x, y, z) {
        (Value::Int(x), Value::Int(y), Value::Int(z)) => Ok((*x, *y, *z)),
        _ => refused(RunFault::ValueOfAnotherType),
    }
}

fn smaller(x: i64, y: i64) -> i64
    ensures { result ≡ int_min x y }
{
    if y < x { y } else { x }
}

fn larger(x: i64, y: i64) -> i64
    ensures { result ≡ int_max x y }
{
    if y < x { x } else { y }
}

/// The least of two or more ints.
fn least(args: &[Value]) -> Result<i64, ThingFault>
    ensures { result ≡ exact (spec.many_picked int_min (map datum args.now)) }
{
    match args {
        [] | [_] => refused(RunFault::WrongNumberOfArguments),
        [first, rest @ ..] => least_of(first, rest),
    }
}

fn least_of(first: &Value, rest: &[Value]) -> Result<i64, ThingFault>
    ensures { result ≡ exact (spec.picked_from int_min (datum first.now) (map datum rest.now)) }
{
    match first {
        Value::Int(n) => least_from(*n, rest),
        _ => refused(RunFault::ValueOfAnotherType),
    }
}

fn least_from(first: i64, rest: &[Value]) -> Result<i64, ThingFault>
    ensures { result ≡ exact (spec.picked int_min first (map datum rest.now)) }
{
    let mut best = first;
    for arg in rest {
        let Value::Int(n) = arg else {
            return refused(RunFault::ValueOfAnotherType);
        };
        best = smaller(best, *n);
    }
    Ok(best)
}

/// The greatest of two or more ints.
fn greatest(args: &[Value]) -> Result<i64, ThingFault>
    ensures { result ≡ exact (spec.many_picked int_max (map datum args.now)) }
{
    match args {
        [] | [_] => refused(RunFault::WrongNumberOfArguments),
        [first, rest @ ..] => greatest_of(first, rest),
    }
}

fn greatest_of(first: &Value, rest: &[Value]) -> Result<i64, ThingFault>
    ensures { result ≡ exact (spec.picked_from int_max (datum first.now) (map datum rest.now)) }
{
    match first {
        Value::Int(n) => greatest_from(*n, rest),
        _ => refused(RunFault::ValueOfAnotherType),
    }
}

fn greatest_from(first: i64, rest: &[Value]) -> Result<i64, ThingFault>
    ensures { result ≡ exact (spec.picked int_max first (map datum rest.now)) }
{
    let mut best = first;
    for arg in rest {
        let Value::Int(n) = arg else {
            return refused(RunFault::ValueOfAnotherType);
        };
        best = larger(best, *n);
    }
    Ok(best)
}

/// Of n, low and high: low where n is below it, else high where n is above it, else n.
fn clamped(ints: (i64, i64, i64)) -> i64
    ensures { result ≡ spec.clamped ints }
{
    let (n, low, high) = ints;
    if n < low {
        low
    } else if n > high {
        high
    } else {
        n
    }
}

/// The rest that has the sign of the divisor. `ZeroDivisorOrStep` for 0.
fn posmod(x: i64, y: i64) -> Result<i64, ThingFault>
    ensures { result ≡ exact (spec.posmod x y) }
{
    if y == 0 {
        return refused(RunFault::ZeroDivisorOrStep);
    }
    let rest = x.wrapping_rem(y);
    if (rest < 0 && y > 0) || (rest > 0 && y < 0) {
        Ok(rest.wrapping_add(y))
    } else {
        Ok(rest)
    }
}

/// A function of one value, or `is_same`. `WrongNumberOfArguments`, then `ValueOfAnotherType`.
pub fn call_on_values<K: Look>(
    builtin: Builtin,
    args: &[Value],
    look: &K,
) -> Result<Fresh, ThingFault>
    requires whole { AllWhole (K.things look.now) (K.names look.now) args.now }
    ensures { meant result ≡ exact (spec.values_call (K.store look.now) builtin (map datum args.now)) }
{
    match (builtin, args) {
        (Builtin::Len, [v]) => int(length_of(v, look)?),
        (Builtin::Typeof, [v]) => int(type_number(v)),
        (Builtin::Int, [v]) => int(as_int(v)?),
        (Builtin::Bool, [v]) => boolean(as_bool(v)?),
        (Builtin::IsSame, [a, b]) => boolean(is_same(a, b)),
        _ => refused(RunFault::WrongNumberOfArguments),
    }
}

fn length_of<K: Look>(v: &Value, look: &K) -> Result<i64, ThingFault>
    requires whole { Whole (K.things look.now) (K.names look.now) v.now }
    ensures { result ≡ exact (spec.length_of (K.store look.now) (datum v.now)) }
{
    match v {
        Value::Str(text) => Ok(i64::from(text.length())),
        Value::Array(h) => Ok(i64::from(array_of(look, *h).size())),
        Value::Dict(h) => Ok(i64::from(dict_of(look, *h).size())),
        _ => refused(RunFault::ValueOfAnotherType),
    }
}

/// The number of the kind of a value.
fn type_number(v: &Value) -> i64
    ensures { result ≡ spec.type_number (datum v.now) }
{
    match v {
        Value::Nil => 0,
        Value::Bool(_) => 1,
        Value::Int(_) => 2,
        Value::Str(_) => 4,
        Value::Object(_) => 24,
        Value::Callable(_) => 25,
        Value::Signal(_) => 26,
        Value::Dict(_) => 27,
        Value::Array(_) => 28,
    }
}

fn as_int(v: &Value) -> Result<i64, ThingFault>
    ensures { result ≡ exact (spec.as_int (datum v.now)) }
{
    match v {
        Value::Bool(b) => Ok(i64::from(*b)),
        Value::Int(n) => Ok(*n),
        Value::Str(text) => Ok(to_int(text)),
        _ => refused(RunFault::ValueOfAnotherType),
    }
}

fn as_bool(v: &Value) -> Result<bool, ThingFault>
    ensures { result ≡ exact (spec.as_bool (datum v.now)) }
{
    match v {
        Value::Bool(b) => Ok(*b),
        Value::Int(n) => Ok(*n != 0),
        _ => refused(RunFault::ValueOfAnotherType),
    }
}
