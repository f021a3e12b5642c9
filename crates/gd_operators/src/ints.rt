//! The operators on ints, which wrap at 64 bits.
ghost use Rattle.std.specs.Prelude.{◌≡◌, ◌^◌, ◌%◌, ◌<◌};
ghost use Rattle.gd_operators.specs.Plain.{plain};
ghost use Rattle.value_semantics.specs.Answer.{in_form};
ghost use Rattle.value_semantics.specs.Ints as spec;

use gd_model::RunFault;
use gd_syntax::Operator;

/// What the operators on ints give.
#[derive(Clone, Copy, Debug, PartialEq, Eq)]
pub enum Plain {
    Int(i64),
    Bool(bool),
}

/// An operator between two ints. It takes no memory. `ZeroDivisorOrStep` for a divisor or a negative power of 0, `BadShift` for a
/// negative shift, and `BadOperands` where there is no operator between ints.
pub fn apply_ints(op: Operator, x: i64, y: i64) -> Result<Plain, RunFault>
    ensures { in_form plain result ≡ spec.ints_give op x y }
{
    match op {
        Operator::Power => power(x, y),
        Operator::Multiply => int(x.wrapping_mul(y)),
        Operator::Divide => divide(x, y),
        Operator::Remainder => remainder(x, y),
        Operator::Add => int(x.wrapping_add(y)),
        Operator::Subtract => int(x.wrapping_sub(y)),
        Operator::ShiftLeft => shift_left(x, y),
        Operator::ShiftRight => shift_right(x, y),
        Operator::BitAnd => int(x & y),
        Operator::BitXor => int(x ^ y),
        Operator::BitOr => int(x | y),
        Operator::Equal => boolean(x == y),
        Operator::NotEqual => boolean(x != y),
        Operator::Less => boolean(x < y),
        Operator::LessEqual => boolean(x <= y),
        Operator::Greater => boolean(x > y),
        Operator::GreaterEqual => boolean(x >= y),
        Operator::In
        | Operator::NotIn
        | Operator::Negate
        | Operator::Plus
        | Operator::Complement
        | Operator::Not => Err(RunFault::BadOperands),
    }
}

/// An operator before one int, likewise.
pub fn apply_int(op: Operator, x: i64) -> Result<Plain, RunFault>
    ensures { in_form plain result ≡ spec.int_gives op x }
{
    match op {
        Operator::Negate => int(x.wrapping_neg()),
        Operator::Plus => int(x),
        Operator::Complement => int(x ^ -1),
        _ => Err(RunFault::BadOperands),
    }
}

fn divide(x: i64, y: i64) -> Result<Plain, RunFault>
    ensures { in_form plain result ≡ spec.quotient x y }
{
    if y == 0 {
        return Err(RunFault::ZeroDivisorOrStep);
    }
    int(x.wrapping_div(y))
}

fn remainder(x: i64, y: i64) -> Result<Plain, RunFault>
    ensures { in_form plain result ≡ spec.rest x y }
{
    if y == 0 {
        return Err(RunFault::ZeroDivisorOrStep);
    }
    int(x.wrapping_rem(y))
}

fn shift_left(x: i64, y: i64) -> Result<Plain, RunFault>
    ensures { in_form plain result ≡ spec.shifted_left x y }
{
    if y < 0 {
        return Err(RunFault::BadShift);
    }
    if y >= 64 {
        return int(0);
    }
    int(x.wrapping_shl(y as u32))
}

fn shift_right(x: i64, y: i64) -> Result<Plain, RunFault>
    ensures { in_form plain result ≡ spec.shifted_right x y }
{
    if y < 0 {
        return Err(RunFault::BadShift);
    }
    if y >= 64 {
        return int(if x < 0 { -1 } else { 0 });
    }
    int(x.wrapping_shr(y as u32))
}

fn power(x: i64, y: i64) -> Result<Plain, RunFault>
    ensures { in_form plain result ≡ spec.power x y }
{
    if y >= 0 {
        return int(raised(x.cast_unsigned(), y.cast_unsigned()).cast_signed());
    }
    match x {
        0 => Err(RunFault::ZeroDivisorOrStep),
        1 => int(1),
        -1 => int(if y % 2 == 0 { 1 } else { -1 }),
        _ => int(0),
    }
}

/// The power modulo 2^64, in two parts of the exponent.
fn raised(base: u64, exponent: u64) -> u64
    requires { exponent < 2 ^ 63 }
    ensures { result ≡ (base ^ exponent) % 2 ^ 64 }
{
    let high = (exponent / 0x8000_0000) as u32;
    let low = (exponent % 0x8000_0000) as u32;
    base.wrapping_pow(0x8000_0000)
        .wrapping_pow(high)
        .wrapping_mul(base.wrapping_pow(low))
}

fn int(n: i64) -> Result<Plain, RunFault>
    ensures { result ≡ Ok (Plain.Int n) }
{
    Ok(Plain::Int(n))
}

fn boolean(b: bool) -> Result<Plain, RunFault>
    ensures { result ≡ Ok (Plain.Bool b) }
{
    Ok(Plain::Bool(b))
}
