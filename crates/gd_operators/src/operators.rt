//! The operators on values.
ghost use Rattle.std.specs.Prelude.{◌≡◌, Bool, not, Result};
ghost use Rattle.gd_model.specs.declared.fault.RunFault.{RunFault};
ghost use Rattle.gd_model.specs.Meant.{datum};
ghost use Rattle.gd_model.specs.Whole.{Whole};
ghost use Rattle.gd_answers.specs.Answers.{Answers, Gives, exact};
ghost use Rattle.gd_operators.specs.Plain.{plain};
ghost use Rattle.value_semantics.specs.Answer.{in_form};
ghost use Rattle.value_semantics.specs.Made.{bool_made, value};
ghost use Rattle.value_semantics.specs.Operators as spec;

use crate::equality::same;
use crate::ints::{Plain, apply_int, apply_ints};
use crate::joining::joined;
use crate::membership::is_inside;
use crate::texts::apply_texts;
use crate::truthiness::truth;
use gd_answers::{Fresh, boolean, int, refused};
use gd_containers::{Look, ThingFault};
use gd_model::{RunFault, Value};
use gd_printing::format_with;
use gd_syntax::Operator;
use std::alloc::Global;
use value_semantics::{alike, kind_of};

/// What the operator gives on the values; `b` counts for nothing where the operator takes one. `BadOperands` where
/// there is no operator for their kinds, and otherwise the faults of docs/runtime.md, "Operators".
pub fn apply<K: Look>(
    alloc: Global,
    op: Operator,
    a: &Value,
    b: &Value,
    look: &K,
) -> Result<Fresh, ThingFault>
    requires left { Whole (K.things look.now) (K.names look.now) a.now }
    requires right { Whole (K.things look.now) (K.names look.now) b.now }
    ensures { Gives (spec.applied (K.store look.now) (K.names look.now) op (datum a.now) (datum b.now)) result }
{
    match (a, b) {
        (Value::Int(x), Value::Int(y)) => given(apply_ints(op, *x, *y)),
        (Value::Str(x), Value::Str(y)) => apply_texts(alloc, op, x, y),
        _ => apply_others(alloc, op, a, b, look),
    }
}

/// What an operator on ints gives, as a value.
fn given(made: Result<Plain, RunFault>) -> Result<Fresh, ThingFault>
    ensures { Gives (in_form value (in_form plain made)) result }
{
    match made {
        Ok(Plain::Int(n)) => int(n),
        Ok(Plain::Bool(b)) => boolean(b),
        Err(fault) => refused(fault),
    }
}

/// An operator on values that are neither two ints nor two Strings.
fn apply_others<K: Look>(
    alloc: Global,
    op: Operator,
    a: &Value,
    b: &Value,
    look: &K,
) -> Result<Fresh, ThingFault>
    requires left { Whole (K.things look.now) (K.names look.now) a.now }
    requires right { Whole (K.things look.now) (K.names look.now) b.now }
    ensures { Gives (spec.others_give (K.store look.now) (K.names look.now) op (datum a.now) (datum b.now)) result }
{
    match op {
        Operator::Add => add(alloc, a, b, look),
        Operator::Remainder => rest(alloc, a, b, look),
        _ => apply_test(op, a, b, look),
    }
}

fn add<K: Look>(alloc: Global, a: &Value, b: &Value, look: &K) -> Result<Fresh, ThingFault>
    requires left { Whole (K.things look.now) (K.names look.now) a.now }
    requires right { Whole (K.things look.now) (K.names look.now) b.now }
    ensures { Gives (spec.sum_gives (K.store look.now) (datum a.now) (datum b.now)) result }
{
    match (a, b) {
        (Value::Array(h), Value::Array(i)) => joined(alloc, *h, *i, look),
        _ => refused(RunFault::BadOperands),
    }
}

fn rest<K: Look>(alloc: Global, a: &Value, b: &Value, look: &K) -> Result<Fresh, ThingFault>
    requires right { Whole (K.things look.now) (K.names look.now) b.now }
    ensures { Gives (spec.rest_gives (K.store look.now) (K.names look.now) (datum a.now) (datum b.now)) result }
{
    match a {
        Value::Str(pattern) => format_with(alloc, pattern, b, look),
        _ => refused(RunFault::BadOperands),
    }
}

/// The tests, and the operators before one operand.
fn apply_test<K: Look>(op: Operator, a: &Value, b: &Value, look: &K) -> Result<Fresh, ThingFault>
    requires left { Whole (K.things look.now) (K.names look.now) a.now }
    requires right { Whole (K.things look.now) (K.names look.now) b.now }
    ensures { Gives (spec.tests_give (K.store look.now) op (datum a.now) (datum b.now)) result }
{
    match op {
        Operator::Equal => verdict(equal(a, b, look)),
        Operator::NotEqual => opposite(equal(a, b, look)),
        Operator::Not => boolean(!truth(a, look)),
        Operator::In => verdict(is_inside(a, b, look)),
        Operator::NotIn => opposite(is_inside(a, b, look)),
        Operator::Negate | Operator::Plus | Operator::Complement => one_int(op, a),
        _ => refused(RunFault::BadOperands),
    }
}

fn one_int(op: Operator, a: &Value) -> Result<Fresh, ThingFault>
    ensures { Gives (spec.one_int op (datum a.now)) result }
{
    match a {
        Value::Int(x) => given(apply_int(op, *x)),
        _ => refused(RunFault::BadOperands),
    }
}

fn verdict(made: Result<bool, ThingFault>) -> Result<Fresh, ThingFault>
    ensures { (want : Result Bool RunFault) → Answers want made → Gives (in_form bool_made want) result }
{
    match made {
        Ok(yes) => boolean(yes),
        Err(fault) => Err(fault),
    }
}

fn opposite(made: Result<bool, ThingFault>) -> Result<Fresh, ThingFault>
    ensures { (want : Result Bool RunFault) → Answers want made → Gives (in_form (λ yes. bool_made (not yes)) want) result }
{
    match made {
        Ok(yes) => boolean(!yes),
        Err(fault) => Err(fault),
    }
}

/// Whether the two are equal. `BadOperands` where they are of different kinds and neither is null.
fn equal<K: Look>(a: &Value, b: &Value, look: &K) -> Result<bool, ThingFault>
    requires left { Whole (K.things look.now) (K.names look.now) a.now }
    requires right { Whole (K.things look.now) (K.names look.now) b.now }
    ensures { result ≡ exact (spec.equal (K.store look.now) (datum a.now) (datum b.now)) }
{
    if alike(kind_of(a), kind_of(b)) {
        same(a, b, look)
    } else {
        refused(RunFault::BadOperands)
    }
}
