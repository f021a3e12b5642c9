//! The elements of an array in order: ints by their values, Strings by their code points.
ghost use Rattle.std.specs.Prelude.{◌≡◌, false, length, map, IfNone, IfOk, IfSome};
ghost use Rattle.std.specs.List.{list_all};
ghost use Rattle.std.specs.Option.{option_copied};
ghost use Rattle.gd_model.specs.declared.value.Value.TheVariants as v;
ghost use Rattle.gd_model.specs.Datum as d;
ghost use Rattle.gd_model.specs.Meant.{datum};
ghost use Rattle.gd_answers.specs.Answers.{AnswersAs};
ghost use Rattle.store_semantics.specs.Writes as spec;
ghost use Rattle.container_methods.specs.Arrays.{int_in, sorted_items, text_in};

use crate::growing::push;
use gd_answers::refused;
use gd_containers::{ThingFault, TypedArray};
use gd_model::{RunFault, Value};
use gd_syntax::Text;
use no_memory::NoMemory;
use std::alloc::Global;

/// The elements in order. `BadOperands` where they are neither all ints nor all Strings.
pub fn sorted(alloc: Global, a: &TypedArray) -> Result<Vec<Value>, ThingFault>
    ensures meant { AnswersAs (λ all. map datum all.items) (sorted_items (map datum a.now.items)) result }
    ensures size { IfOk result (λ all. length all.items ≡ length a.now.items) }
{
    if let Some(found) = numbers(alloc, a.items())? {
        return Ok(sorted_numbers(alloc, found)?);
    }
    if let Some(found) = words(alloc, a.items())? {
        return Ok(sorted_words(alloc, found)?);
    }
    refused(RunFault::BadOperands)
}

/// The ints that the elements are, where all are ints.
fn numbers(alloc: Global, items: &[Value]) -> Result<Option<Vec<i64>>, NoMemory>
    ensures some { IfOk result (λ found. IfSome found (λ ns. items.now ≡ map (λ n. v.Int n) ns.items)) }
    ensures none { IfOk result (λ found. IfNone found (list_all spec.is_int (map datum items.now) ≡ false)) }
{
    let mut all = Vec::new(alloc);
    for item in items {
        match int_of(item) {
            Some(n) => push(&mut all, n)?,
            None => return Ok(None),
        }
    }
    Ok(Some(all))
}

fn int_of(v: &Value) -> Option<i64>
    ensures { result ≡ int_in v.now }
{
    match v {
        Value::Int(n) => Some(*n),
        _ => None,
    }
}

/// The Strings that the elements are, where all are Strings.
fn words(alloc: Global, items: &[Value]) -> Result<Option<Vec<Text>>, NoMemory>
    ensures some { IfOk result (λ found. IfSome found (λ ts. items.now ≡ map (λ t. v.Str t) ts.items)) }
    ensures none { IfOk result (λ found. IfNone found (list_all spec.is_text (map datum items.now) ≡ false)) }
{
    let mut all = Vec::new(alloc);
    for item in items {
        match text_of(item) {
            Some(text) => push(&mut all, text.share()?)?,
            None => return Ok(None),
        }
    }
    Ok(Some(all))
}

fn text_of(v: &Value) -> Option<&Text>
    ensures { option_copied result ≡ text_in v.now }
{
    match v {
        Value::Str(text) => Some(text),
        _ => None,
    }
}

fn sorted_numbers(alloc: Global, mut numbers: Vec<i64>) -> Result<Vec<Value>, NoMemory>
    ensures meant { IfOk result (λ all. map datum all.items ≡ spec.sorted (map (λ n. d.int n) numbers.items)) }
    ensures size { IfOk result (λ all. length all.items ≡ length numbers.items) }
{
    numbers.sort_unstable();
    let all = int_values(alloc, numbers.as_slice())?;
    Ok(all)
}

fn int_values(alloc: Global, numbers: &[i64]) -> Result<Vec<Value>, NoMemory>
    ensures { IfOk result (λ all. all.items ≡ map (λ n. v.Int n) numbers.now) }
{
    let mut all = Vec::with_capacity(alloc, numbers.len())?;
    for n in numbers {
        push(&mut all, Value::Int(*n))?;
    }
    Ok(all)
}

fn sorted_words(alloc: Global, mut words: Vec<Text>) -> Result<Vec<Value>, NoMemory>
    ensures meant { IfOk result (λ all. map datum all.items ≡ spec.sorted (map (λ t. d.text t) words.items)) }
    ensures size { IfOk result (λ all. length all.items ≡ length words.items) }
{
    words.sort_unstable();
    let all = text_values(alloc, words.as_slice())?;
    Ok(all)
}

fn text_values(alloc: Global, words: &[Text]) -> Result<Vec<Value>, NoMemory>
    ensures { IfOk result (λ all. all.items ≡ map (λ t. v.Str t) words.now) }
{
    let mut all = Vec::with_capacity(alloc, words.len())?;
    for word in words {
        push(&mut all, Value::Str(word.share()?))?;
    }
    Ok(all)
}
