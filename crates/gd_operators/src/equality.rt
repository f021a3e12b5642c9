//! When two values are equal.
ghost use Rattle.std.specs.Prelude.{◌≡◌, length, map};
ghost use Rattle.gd_model.specs.declared.value.Value.TheVariants as v;
ghost use Rattle.gd_model.specs.Meant.{callee, datum, pair_datum};
ghost use Rattle.gd_model.specs.Same as meant;
ghost use Rattle.gd_model.specs.Whole.{AllWhole, Whole, pair_values};
ghost use Rattle.gd_answers.specs.Answers.{exact};
ghost use Rattle.value_semantics.specs.Equality as spec;

use gd_answers::refused;
use gd_containers::{Look, OrderedDict, ThingFault, array_of, dict_of};
use gd_model::{RunFault, SignalSource, Target, Value};
use slot_arena::Handle;

/// How many containers deep two values are compared.
pub const DEEPEST: u32 = 64;

/// Whether the two values are of one kind and equal: arrays element by element, dictionaries by their keys, in the
/// order of `a`. `TooDeepToCompare` where a pair of containers that are not one thing lies more than 64 levels deep.
pub fn same<K: Look>(a: &Value, b: &Value, look: &K) -> Result<bool, ThingFault>
    requires left { Whole (K.things look.now) (K.names look.now) a.now }
    requires right { Whole (K.things look.now) (K.names look.now) b.now }
    ensures { result ≡ exact (spec.same (K.store look.now) (datum a.now) (datum b.now)) }
{
    same_within(a, b, look, DEEPEST)
}

/// `room` is how many containers may still lie inside one another.
#[cycle(same)]
fn same_within<K: Look>(a: &Value, b: &Value, look: &K, room: u32) -> Result<bool, ThingFault>
    requires left { Whole (K.things look.now) (K.names look.now) a.now }
    requires right { Whole (K.things look.now) (K.names look.now) b.now }
    ensures { result ≡ exact (spec.same_by (K.store look.now) (spec.inside (K.store look.now) room) (datum a.now) (datum b.now)) }
{
    match (a, b) {
        (Value::Array(h), Value::Array(i)) if h.serial != i.serial => {
            same_arrays(*h, *i, look, room)
        }
        (Value::Dict(h), Value::Dict(i)) if h.serial != i.serial => {
            same_dicts(*h, *i, look, room)
        }
        _ => Ok(is_same(a, b)),
    }
}

#[cycle(same)]
fn same_arrays<K: Look>(h: Handle, i: Handle, look: &K, room: u32) -> Result<bool, ThingFault>
    requires left { Whole (K.things look.now) (K.names look.now) (v.Array h) }
    requires right { Whole (K.things look.now) (K.names look.now) (v.Array i) }
    ensures { result ≡ exact (spec.arrays_by (K.store look.now) (spec.inside (K.store look.now) room) h.serial i.serial) }
{
    if room == 0 {
        return refused(RunFault::TooDeepToCompare);
    }
    let x = array_of(look, h);
    let y = array_of(look, i);
    if x.size() != y.size() {
        return Ok(false);
    }
    same_items(x.items(), y.items(), look, room - 1)
}

#[cycle(same)]
fn same_items<K: Look>(x: &[Value], y: &[Value], look: &K, room: u32) -> Result<bool, ThingFault>
    requires left { AllWhole (K.things look.now) (K.names look.now) x.now }
    requires right { AllWhole (K.things look.now) (K.names look.now) y.now }
    requires sizes { length x.now ≡ length y.now }
    ensures { result ≡ exact (spec.same_items (spec.same_by (K.store look.now) (spec.inside (K.store look.now) room)) (map datum x.now) (map datum y.now)) }
{
    for i in 0..x.len() {
        if !same_within(&x[i], &y[i], look, room)? {
            return Ok(false);
        }
    }
    Ok(true)
}

#[cycle(same)]
fn same_dicts<K: Look>(h: Handle, i: Handle, look: &K, room: u32) -> Result<bool, ThingFault>
    requires left { Whole (K.things look.now) (K.names look.now) (v.Dict h) }
    requires right { Whole (K.things look.now) (K.names look.now) (v.Dict i) }
    ensures { result ≡ exact (spec.dicts_by (K.store look.now) (spec.inside (K.store look.now) room) h.serial i.serial) }
{
    if room == 0 {
        return refused(RunFault::TooDeepToCompare);
    }
    let x = dict_of(look, h);
    let y = dict_of(look, i);
    if x.size() != y.size() {
        return Ok(false);
    }
    same_pairs(x, y, look, room - 1)
}

#[cycle(same)]
fn same_pairs<K: Look>(
    x: &OrderedDict,
    y: &OrderedDict,
    look: &K,
    room: u32,
) -> Result<bool, ThingFault>
    requires left { AllWhole (K.things look.now) (K.names look.now) (pair_values x.now.pairs) }
    requires right { AllWhole (K.things look.now) (K.names look.now) (pair_values y.now.pairs) }
    ensures { result ≡ exact (spec.same_pairs (spec.same_by (K.store look.now) (spec.inside (K.store look.now) room)) (map pair_datum x.now.pairs) (map pair_datum y.now.pairs)) }
{
    for i in 0..x.size() {
        let Some((key, a)) = x.at(i) else {
            unreachable!();
        };
        let Some(b) = y.get(key) else {
            return Ok(false);
        };
        if !same_within(a, b, look, room)? {
            return Ok(false);
        }
    }
    Ok(true)
}

/// Whether the two are of one kind and equal, things being equal where they are one thing.
pub fn is_same(a: &Value, b: &Value) -> bool
    ensures { result ≡ meant.is_same (datum a.now) (datum b.now) }
{
    match (a, b) {
        (Value::Nil, Value::Nil) => true,
        (Value::Bool(x), Value::Bool(y)) => *x == *y,
        (Value::Int(x), Value::Int(y)) => *x == *y,
        (Value::Str(x), Value::Str(y)) => *x == *y,
        (Value::Object(h), Value::Object(i)) => h.serial == i.serial,
        (Value::Array(h), Value::Array(i)) => h.serial == i.serial,
        (Value::Dict(h), Value::Dict(i)) => h.serial == i.serial,
        (Value::Callable(s), Value::Callable(t)) => same_target(s.get(), t.get()),
        (Value::Signal(s), Value::Signal(t)) => same_source(s.get(), t.get()),
        _ => false,
    }
}

/// Two Callables are equal where their object, or else their class, and their name are.
fn same_target(s: &Target, t: &Target) -> bool
    ensures { result ≡ meant.same_target (callee s.now) (callee t.now) }
{
    same_receiver(s, t) && s.name == t.name
}

fn same_receiver(s: &Target, t: &Target) -> bool
    ensures { result ≡ meant.same_receiver (callee s.now).object (callee t.now).object s.now.class t.now.class }
{
    match (s.object, t.object) {
        (Some(h), Some(i)) => h.serial == i.serial,
        (None, None) => s.class == t.class,
        _ => false,
    }
}

/// Two signals are equal where they are of one object and under one name.
fn same_source(s: &SignalSource, t: &SignalSource) -> bool
    ensures { result ≡ meant.is_same (datum (v.Signal s.now)) (datum (v.Signal t.now)) }
{
    s.emitter.serial == t.emitter.serial && s.name == t.name
}
