//! Values of constants: what operators, readings, tests of types and literals give, and with which faults.
use constant_store::{ConstantStore, LiteralFault, same_key};
use gd_containers::ThingFault;
use gd_model::{Fixed, FixedThing, RunFault, Ty, Value};
use gd_operators::is_same;
use gd_syntax::{Operator, Text};
use std::alloc::Global;
use std::test::Fail;

/// A value as a table writes it: a thing by its place among those of the store.
#[derive(Clone, Copy)]
enum Short {
    Nil,
    Bool(bool),
    Int(i64),
    Str(&'static str),
    Thing(u32),
}

/// What a call is to give.
#[derive(Clone, Copy)]
enum Want {
    Value(Short),
    Fault(RunFault),
}

fn text(alloc: Global, chars: &str) -> Result<Text, Fail> {
    Ok(Text::from_utf8(alloc, chars.as_bytes())?)
}

fn value(alloc: Global, store: &ConstantStore, short: Short) -> Result<Value, Fail> {
    Ok(match short {
        Short::Nil => Value::Nil,
        Short::Bool(b) => Value::Bool(b),
        Short::Int(n) => Value::Int(n),
        Short::Str(chars) => Value::Str(text(alloc, chars)?),
        Short::Thing(place) => store.value(&Fixed::Thing(place))?.ok_or("no such thing")?,
    })
}

/// Whether the call gave what was wanted; want of memory never is.
fn gave(
    alloc: Global,
    store: &ConstantStore,
    made: &Result<Value, ThingFault>,
    want: Want,
) -> Result<bool, Fail> {
    match (made, want) {
        (Ok(v), Want::Value(short)) => Ok(is_same(v, &value(alloc, store, short)?)),
        (Err(ThingFault::Run(fault)), Want::Fault(wanted)) => Ok(*fault == wanted),
        _ => Ok(false),
    }
}

/// The array of these values as the literal makes it.
fn array(
    alloc: Global,
    store: &mut ConstantStore,
    element: Ty,
    items: &[Short],
) -> Result<Result<Value, LiteralFault>, Fail> {
    let mut all = Vec::new(alloc);
    for item in items {
        all.push(value(alloc, store, *item)?)?;
    }
    if !store.holds_all(all.as_slice()) {
        return Ok(Err(LiteralFault::NoMemory));
    }
    Ok(store.array(element, all))
}

/// The dictionary of these pairs as the literal makes it.
fn dictionary(
    alloc: Global,
    store: &mut ConstantStore,
    key: Ty,
    of: Ty,
    pairs: &[(Short, Short)],
) -> Result<Result<Value, LiteralFault>, Fail> {
    let mut all = Vec::new(alloc);
    for (k, v) in pairs {
        all.push((value(alloc, store, *k)?, value(alloc, store, *v)?))?;
    }
    if !store.holds_pairs(all.as_slice()) {
        return Ok(Err(LiteralFault::NoMemory));
    }
    Ok(store.dictionary(key, of, all.as_slice()))
}

/// The array `[1, 2]` of ints is thing 0, `{"a": 3, 2: null}` thing 1.
fn things(alloc: Global) -> Result<ConstantStore, Fail> {
    let mut store = ConstantStore::new(alloc);
    let ints = [Short::Int(1), Short::Int(2)];
    let pairs = [
        (Short::Str("a"), Short::Bool(true)),
        (Short::Int(2), Short::Nil),
        (Short::Str("a"), Short::Int(3)),
    ];
    array(alloc, &mut store, Ty::Int, &ints)??;
    dictionary(alloc, &mut store, Ty::Variant, Ty::Variant, &pairs)??;
    Ok(store)
}

fn operated(
    store: &mut ConstantStore,
    op: Operator,
    a: &Value,
    b: &Value,
) -> Result<Value, ThingFault> {
    if !store.holds(a) || !store.holds(b) {
        return Err(ThingFault::NoMemory);
    }
    store.operator(op, a, b)
}

#[test]
fn operators_give(rt: HostRuntime) -> Result<(), Fail> {
    let alloc = rt.alloc();
    let mut store = things(alloc)?;
    let rows = [
        (
            Operator::Add,
            Short::Int(i64::MAX),
            Short::Int(1),
            Want::Value(Short::Int(i64::MIN)),
        ),
        (
            Operator::Add,
            Short::Str("a"),
            Short::Str("b"),
            Want::Value(Short::Str("ab")),
        ),
        (
            Operator::Add,
            Short::Thing(0),
            Short::Thing(0),
            Want::Value(Short::Thing(2)),
        ),
        (
            Operator::Remainder,
            Short::Str("%d, %d"),
            Short::Thing(0),
            Want::Value(Short::Str("1, 2")),
        ),
        (
            Operator::In,
            Short::Int(2),
            Short::Thing(1),
            Want::Value(Short::Bool(true)),
        ),
        (
            Operator::Equal,
            Short::Thing(0),
            Short::Thing(2),
            Want::Value(Short::Bool(false)),
        ),
        (
            Operator::Not,
            Short::Thing(2),
            Short::Nil,
            Want::Value(Short::Bool(false)),
        ),
        (
            Operator::Divide,
            Short::Int(1),
            Short::Int(0),
            Want::Fault(RunFault::ZeroDivisorOrStep),
        ),
        (
            Operator::Add,
            Short::Int(1),
            Short::Str("a"),
            Want::Fault(RunFault::BadOperands),
        ),
        (
            Operator::ShiftLeft,
            Short::Int(1),
            Short::Int(-1),
            Want::Fault(RunFault::BadShift),
        ),
        (
            Operator::In,
            Short::Thing(0),
            Short::Thing(1),
            Want::Fault(RunFault::BadKey),
        ),
        (
            Operator::Remainder,
            Short::Str("%d"),
            Short::Nil,
            Want::Fault(RunFault::BadFormat),
        ),
    ];
    for (op, a, b, want) in rows {
        let a = value(alloc, &store, a)?;
        let b = value(alloc, &store, b)?;
        let made = operated(&mut store, op, &a, &b);
        assert!(rt; gave(alloc, &store, &made, want)?, "{op:?}");
    }
    let all = store.things(alloc)?;
    assert_eq!(rt; all.len(), 3);
    Ok(())
}

fn read(store: &ConstantStore, base: &Value, index: &Value) -> Result<Value, ThingFault> {
    if !store.holds(base) {
        return Err(ThingFault::NoMemory);
    }
    store.subscript(base, index)
}

#[test]
fn subscripts_give(rt: HostRuntime) -> Result<(), Fail> {
    let alloc = rt.alloc();
    let store = things(alloc)?;
    let rows = [
        (Short::Thing(0), Short::Int(-1), Want::Value(Short::Int(2))),
        (
            Short::Str("abc"),
            Short::Int(1),
            Want::Value(Short::Str("b")),
        ),
        (Short::Thing(1), Short::Str("a"), Want::Value(Short::Int(3))),
        (
            Short::Thing(0),
            Short::Int(2),
            Want::Fault(RunFault::OutOfRange),
        ),
        (
            Short::Str("abc"),
            Short::Int(-4),
            Want::Fault(RunFault::OutOfRange),
        ),
        (
            Short::Thing(1),
            Short::Str("b"),
            Want::Fault(RunFault::NoSuchKey),
        ),
        (
            Short::Thing(1),
            Short::Thing(0),
            Want::Fault(RunFault::BadKey),
        ),
        (
            Short::Nil,
            Short::Int(0),
            Want::Fault(RunFault::BadOperands),
        ),
    ];
    for (base, index, want) in rows {
        let base = value(alloc, &store, base)?;
        let index = value(alloc, &store, index)?;
        let made = read(&store, &base, &index);
        assert!(rt; gave(alloc, &store, &made, want)?);
    }
    Ok(())
}

fn member(store: &ConstantStore, base: &Value, name: &Text) -> Result<Value, ThingFault> {
    if !store.holds(base) {
        return Err(ThingFault::NoMemory);
    }
    store.attribute(base, name)
}

#[test]
fn attributes_give(rt: HostRuntime) -> Result<(), Fail> {
    let alloc = rt.alloc();
    let store = things(alloc)?;
    let rows = [
        (Short::Thing(1), "a", Want::Value(Short::Int(3))),
        (Short::Thing(1), "b", Want::Fault(RunFault::NoSuchKey)),
        (Short::Nil, "a", Want::Fault(RunFault::NullReceiver)),
        (Short::Thing(0), "a", Want::Fault(RunFault::NoSuchMember)),
    ];
    for (base, name, want) in rows {
        let base = value(alloc, &store, base)?;
        let made = member(&store, &base, &text(alloc, name)?);
        assert!(rt; gave(alloc, &store, &made, want)?);
    }
    Ok(())
}

#[test]
fn literals_are_refused(rt: HostRuntime) -> Result<(), Fail> {
    let alloc = rt.alloc();
    let mut store = things(alloc)?;
    let mixed = array(alloc, &mut store, Ty::Int, &[Short::Int(1), Short::Nil])?;
    assert!(rt; matches!(mixed, Err(LiteralFault::Element(1))));
    let a = (Short::Str("a"), Short::Int(1));
    let by_thing = (Short::Thing(0), Short::Nil);
    let no_key = dictionary(alloc, &mut store, Ty::Variant, Ty::Variant, &[a, by_thing])?;
    assert!(rt; matches!(no_key, Err(LiteralFault::BadKey(1))));
    let key = dictionary(alloc, &mut store, Ty::Int, Ty::Int, &[a])?;
    assert!(rt; matches!(key, Err(LiteralFault::Key(0))));
    let of = dictionary(alloc, &mut store, Ty::Str, Ty::Bool, &[a])?;
    assert!(rt; matches!(of, Err(LiteralFault::Value(0))));
    Ok(())
}

/// What a thing of constants is, and how many elements or pairs it has.
fn is_kept(thing: &FixedThing, pairs: bool, size: usize) -> bool {
    match thing {
        FixedThing::Items(_, items) => !pairs && items.items().len() == size,
        FixedThing::Pairs(Ty::Dict, all) => pairs && all.items().len() == size,
        FixedThing::Pairs(_, _) => false,
    }
}

#[test]
fn things_are_kept_in_order(rt: HostRuntime) -> Result<(), Fail> {
    let alloc = rt.alloc();
    let mut store = things(alloc)?;
    array(alloc, &mut store, Ty::Variant, &[Short::Thing(1)])??;
    store.enumeration(&[(text(alloc, "A")?, 4), (text(alloc, "B")?, 5)])?;
    let all = store.things(alloc)?;
    assert_eq!(rt; all.len(), 4);
    assert!(rt; is_kept(&all[0], false, 2));
    assert!(rt; is_kept(&all[1], true, 2));
    assert!(rt; is_kept(&all[2], false, 1));
    assert!(rt; is_kept(&all[3], true, 2));
    Ok(())
}

fn cast(store: &ConstantStore, t: &Ty, v: Value) -> Result<Value, ThingFault> {
    if !store.holds(&v) {
        return Err(ThingFault::NoMemory);
    }
    match store.cast(t, v) {
        Ok(made) => Ok(made),
        Err(fault) => Err(ThingFault::Run(fault)),
    }
}

#[test]
fn casts_give(rt: HostRuntime) -> Result<(), Fail> {
    let alloc = rt.alloc();
    let store = things(alloc)?;
    let rows = [
        (Ty::Int, Short::Bool(true), Want::Value(Short::Int(1))),
        (Ty::Bool, Short::Int(2), Want::Value(Short::Bool(true))),
        (Ty::Class(1), Short::Int(2), Want::Value(Short::Nil)),
        (Ty::Array, Short::Thing(0), Want::Value(Short::Thing(0))),
        (Ty::Str, Short::Int(2), Want::Fault(RunFault::BadCast)),
    ];
    for (t, v, want) in rows {
        let made = cast(&store, &t, value(alloc, &store, v)?);
        assert!(rt; gave(alloc, &store, &made, want)?);
    }
    Ok(())
}

#[test]
fn keys_are_one(rt: HostRuntime) {
    assert!(rt; same_key(&Value::Int(1), &Value::Int(1)));
    assert!(rt; !same_key(&Value::Int(1), &Value::Bool(true)));
}
