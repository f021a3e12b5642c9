use gd_containers::{OnHeap, OrderedDict, ThingFault, TypedArray, key_of};
use gd_model::{Key, RunFault, Ty, Value};
use gd_syntax::Text;
use std::alloc::Global;
use std::test::Fail;

fn is_int(v: &Value, n: i64) -> bool {
    match v {
        Value::Int(m) => *m == n,
        _ => false,
    }
}

fn are_ints(items: &[Value], wanted: &[i64]) -> bool {
    items.len() == wanted.len() && items.iter().zip(wanted).all(|(v, n)| is_int(v, *n))
}

fn holds(a: &TypedArray, wanted: &[i64]) -> bool {
    are_ints(a.items(), wanted)
}

/// Whether the pair has this String as its key, and this int.
fn is_pair(alloc: Global, key: &Key, v: &Value, name: &str, n: i64) -> Result<bool, Fail> {
    Ok(*key == word(alloc, name)? && is_int(v, n))
}

/// An array of these ints.
fn array_of(alloc: Global, numbers: &[i64]) -> Result<TypedArray, Fail> {
    let mut array = TypedArray::new(alloc, Ty::Int, false);
    for n in numbers {
        array.push(Value::Int(*n), true)?;
    }
    Ok(array)
}

/// A dictionary to which these pairs were put in turn.
fn dict_of(alloc: Global, pairs: &[(&str, i64)]) -> Result<OrderedDict, Fail> {
    let mut dict = OrderedDict::new(alloc, false);
    for (name, n) in pairs {
        dict.put(word(alloc, name)?, Value::Int(*n), true)?;
    }
    Ok(dict)
}

fn word(alloc: Global, s: &str) -> Result<Key, Fail> {
    Ok(Key::Str(Text::from_utf8(alloc, s.as_bytes())?))
}

#[test]
fn an_element_is_inserted(rt: HostRuntime) -> Result<(), Fail> {
    let mut array = array_of(rt.alloc(), &[1, 2, 3])?;
    array.insert(0, Value::Int(9), true)?;
    assert!(rt; holds(&array, &[9, 1, 2, 3]));
    Ok(())
}

#[test]
fn the_last_element_is_removed(rt: HostRuntime) -> Result<(), Fail> {
    let mut array = array_of(rt.alloc(), &[9, 1, 2, 3])?;
    let last = array.remove_at(-1)?;
    assert!(rt; is_int(&last, 3));
    assert!(rt; holds(&array, &[9, 1, 2]));
    Ok(())
}

#[test]
fn a_part_is_cut(rt: HostRuntime) -> Result<(), Fail> {
    let array = array_of(rt.alloc(), &[9, 1, 2])?;
    let part = array.slice(rt.alloc(), 1, 3)?;
    assert!(rt; holds(&part, &[1, 2]));
    Ok(())
}

#[test]
fn a_refusal_changes_nothing(rt: HostRuntime) -> Result<(), Fail> {
    let mut array = array_of(rt.alloc(), &[7])?;
    let unfit = array.set(0, Value::Nil, false);
    assert!(rt; matches!(unfit, Err(ThingFault::Run(RunFault::ValueOfAnotherType))));
    let outside = array.set(1, Value::Nil, false);
    assert!(rt; matches!(outside, Err(ThingFault::Run(RunFault::OutOfRange))));
    assert!(rt; holds(&array, &[7]));
    Ok(())
}

#[test]
fn a_read_only_array_is_not_written(rt: HostRuntime) -> Result<(), Fail> {
    let mut array = array_of(rt.alloc(), &[9, 1, 2])?;
    let old = array.clear()?;
    assert!(rt; are_ints(old.as_slice(), &[9, 1, 2]));
    assert!(rt; holds(&array, &[]));
    array.fix();
    let fixed = array.push(Value::Int(1), true);
    assert!(rt; matches!(fixed, Err(ThingFault::Run(RunFault::ReadOnly))));
    Ok(())
}

#[test]
fn an_overwritten_key_keeps_its_place(rt: HostRuntime) -> Result<(), Fail> {
    let alloc = rt.alloc();
    let mut dict = dict_of(alloc, &[("a", 1), ("b", 2), ("a", 3)])?;
    let pairs = dict.clear()?;
    assert_eq!(rt; pairs.len(), 2);
    assert!(rt; is_pair(alloc, &pairs[0].0, &pairs[0].1, "a", 3)?);
    assert!(rt; is_pair(alloc, &pairs[1].0, &pairs[1].1, "b", 2)?);
    Ok(())
}

#[test]
fn an_erased_key_goes_to_the_end(rt: HostRuntime) -> Result<(), Fail> {
    let alloc = rt.alloc();
    let mut dict = dict_of(alloc, &[("a", 3), ("b", 2)])?;
    let erased = dict.erase(&word(alloc, "a")?)?;
    assert!(rt; erased.is_some());
    dict.put(word(alloc, "a")?, Value::Int(4), true)?;
    assert!(rt; dict.at(0).is_some_and(|pair| is_int(pair.1, 2)));
    assert!(rt; dict.at(1).is_some_and(|pair| is_int(pair.1, 4)));
    Ok(())
}

#[test]
fn a_cleared_dictionary_answers_its_pairs(rt: HostRuntime) -> Result<(), Fail> {
    let alloc = rt.alloc();
    let mut dict = dict_of(alloc, &[("b", 2), ("a", 4)])?;
    let pairs = dict.clear()?;
    assert_eq!(rt; dict.size(), 0);
    assert_eq!(rt; pairs.len(), 2);
    assert!(rt; is_pair(alloc, &pairs[0].0, &pairs[0].1, "b", 2)?);
    assert!(rt; is_pair(alloc, &pairs[1].0, &pairs[1].1, "a", 4)?);
    Ok(())
}

#[test]
fn an_int_is_a_key(rt: HostRuntime) -> Result<(), Fail> {
    let key = key_of(&Value::Int(1))?;
    assert!(rt; matches!(key, Key::Int(1)));
    Ok(())
}

#[test]
fn an_array_is_written_in_place(rt: HostRuntime) -> Result<(), Fail> {
    let alloc = rt.alloc();
    let mut array = array_of(alloc, &[1, 2, 3])?;
    array.reserve(2)?;
    let more = array_of(alloc, &[4, 5])?.share_items(alloc)?;
    array.extend(more, true)?;
    assert!(rt; holds(&array, &[1, 2, 3, 4, 5]));
    array.reverse()?;
    let cut = array.truncate(3)?;
    assert!(rt; are_ints(cut.as_slice(), &[2, 1]));
    assert!(rt; holds(&array, &[5, 4, 3]));
    let cut = array.resize(4, &Value::Int(7))?;
    assert!(rt; cut.is_empty());
    assert!(rt; holds(&array, &[5, 4, 3, 7]));
    let cut = array.resize(1, &Value::Nil)?;
    assert!(rt; are_ints(cut.as_slice(), &[4, 3, 7]));
    let old = array.fill(&Value::Int(9), true)?;
    assert!(rt; are_ints(old.as_slice(), &[5]));
    assert!(rt; holds(&array, &[9]));
    Ok(())
}

#[test]
fn a_write_in_place_is_refused(rt: HostRuntime) -> Result<(), Fail> {
    let mut array = array_of(rt.alloc(), &[1, 2])?;
    let below = array.resize(-1, &Value::Nil);
    assert!(rt; matches!(below, Err(ThingFault::Run(RunFault::OutOfRange))));
    let long = array.resize(16_777_217, &Value::Nil);
    assert!(rt; matches!(long, Err(ThingFault::Run(RunFault::TooLong))));
    let unfit = array.fill(&Value::Nil, false);
    assert!(rt; matches!(unfit, Err(ThingFault::Run(RunFault::ValueOfAnotherType))));
    array.fix();
    assert!(rt; matches!(array.reverse(), Err(ThingFault::Run(RunFault::ReadOnly))));
    assert!(rt; matches!(array.truncate(0), Err(ThingFault::Run(RunFault::ReadOnly))));
    assert!(rt; holds(&array, &[1, 2]));
    Ok(())
}

#[test]
fn a_dictionary_on_the_heap_is_written(rt: HostRuntime) -> Result<(), Fail> {
    let alloc = rt.alloc();
    let mut dict = OnHeap::new(alloc, dict_of(alloc, &[("a", 1)])?)?;
    dict.get_mut().put(word(alloc, "b")?, Value::Int(2), true)?;
    assert_eq!(rt; dict.get().size(), 2);
    for ((_, value), n) in dict.into_inner().iter().zip([1, 2]) {
        assert!(rt; is_int(value, n));
    }
    Ok(())
}

#[test]
fn things_are_small(rt: HostRuntime) {
    assert!(rt; size_of::<TypedArray>() <= 56);
    assert_eq!(rt; size_of::<OnHeap<OrderedDict>>(), 8);
}
