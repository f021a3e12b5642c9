//! The methods of Strings (docs/runtime.md, "Texts").
ghost use Rattle.std.specs.Prelude.{◌≡◌, ◌≤◌, ◌∷◌, [], Ok, true, length, map, negsuc};
ghost use Rattle.gd_answers.specs.Answers.{Gives, exact, meant};
ghost use Rattle.gd_model.specs.Meant.{datum};
ghost use Rattle.gd_model.specs.Whole.{AllWhole, Whole};
ghost use Rattle.gd_text.specs.Search as search;
ghost use Rattle.gd_text.specs.Text.{substr};
ghost use Rattle.value_semantics.specs.Answer.{and_then, in_form};
ghost use Rattle.value_semantics.specs.Functions.{one_int};
ghost use Rattle.value_semantics.specs.Made.{array, array_made, bool_made, place_made, text_in_range, text_made};
ghost use Rattle.value_semantics.specs.Methods as spec;

use crate::functions::one_int;
use crate::misfit::misfit;
use gd_answers::{Fresh, boolean, int, refused, text, text_refusal};
use gd_containers::{Look, MAX_ITEMS, ThingFault, TypedArray, array_of};
use gd_model::{RunFault, Ty, Value};
use gd_operators::push;
use gd_printing::joined;
use gd_syntax::Text;
use gd_text::{find, is_valid_int, left, repeat, replace, right, split, strip, substr, to_int};
use std::alloc::Global;
use value_semantics::Builtin;

/// A method of the String `a`. `WrongNumberOfArguments`, then `ValueOfAnotherType`, then `OutOfRange`, then `TooLong`;
/// `NoSuchMethod` where it is no method of Strings.
pub fn call_on_text<K: Look>(
    alloc: Global,
    method: Builtin,
    a: &Text,
    args: &[Value],
    look: &K,
) -> Result<Fresh, ThingFault>
    requires whole { AllWhole (K.things look.now) (K.names look.now) args.now }
    ensures { Gives (spec.text_call (K.store look.now) (K.names look.now) method a.now (map datum args.now)) result }
{
    match method {
        Builtin::StringJoin => join(alloc, a, args, look),
        _ => call_without_things(alloc, method, a, args),
    }
}

fn join<K: Look>(alloc: Global, a: &Text, args: &[Value], look: &K) -> Result<Fresh, ThingFault>
    requires whole { AllWhole (K.things look.now) (K.names look.now) args.now }
    ensures { Gives (spec.join_gives (K.store look.now) (K.names look.now) a.now (map datum args.now)) result }
{
    match args {
        [list] => join_list(alloc, a, list, look),
        _ => misfit(args, 1, 1),
    }
}

/// The printed elements of the array with the text between them.
fn join_list<K: Look>(alloc: Global, a: &Text, list: &Value, look: &K) -> Result<Fresh, ThingFault>
    requires whole { Whole (K.things look.now) (K.names look.now) list.now }
    ensures { Gives (spec.join_gives (K.store look.now) (K.names look.now) a.now (datum list.now ∷ [])) result }
{
    match list {
        Value::Array(h) => joined(alloc, array_of(look, *h).items(), a.chars(), look),
        _ => refused(RunFault::ValueOfAnotherType),
    }
}

fn call_without_things(
    alloc: Global,
    method: Builtin,
    a: &Text,
    args: &[Value],
) -> Result<Fresh, ThingFault>
    ensures { Gives (spec.texts_call method a.now (map datum args.now)) result }
{
    match method {
        Builtin::StringLength
        | Builtin::StringIsEmpty
        | Builtin::StringIsValidInt
        | Builtin::StringToInt
        | Builtin::StringStripEdges => call_alone(alloc, method, a, args),
        Builtin::StringLeft
        | Builtin::StringRight
        | Builtin::StringRepeat
        | Builtin::StringUnicodeAt => call_with_int(alloc, method, a, args),
        Builtin::StringContains | Builtin::StringBeginsWith | Builtin::StringEndsWith => {
            call_test(method, a, args)
        }
        Builtin::StringSubstr => call_substr(alloc, a, args),
        Builtin::StringFind => call_find(a, args),
        Builtin::StringReplace => call_replace(alloc, a, args),
        Builtin::StringSplit => call_split(alloc, a, args),
        _ => refused(RunFault::NoSuchMethod),
    }
}

fn call_alone(alloc: Global, method: Builtin, a: &Text, args: &[Value]) -> Result<Fresh, ThingFault>
    ensures { Gives (spec.alone (spec.text_alone method a.now) (map datum args.now)) result }
{
    match args {
        [] => alone(alloc, method, a),
        _ => refused(RunFault::WrongNumberOfArguments),
    }
}

fn alone(alloc: Global, method: Builtin, a: &Text) -> Result<Fresh, ThingFault>
    ensures { Gives (spec.text_alone method a.now) result }
{
    match method {
        Builtin::StringLength => int(i64::from(a.length())),
        Builtin::StringIsEmpty => boolean(a.length() == 0),
        Builtin::StringIsValidInt => boolean(is_valid_int(a)),
        Builtin::StringToInt => int(to_int(a)),
        Builtin::StringStripEdges => text(strip(alloc, a)),
        _ => refused(RunFault::NoSuchMethod),
    }
}

fn call_with_int(
    alloc: Global,
    method: Builtin,
    a: &Text,
    args: &[Value],
) -> Result<Fresh, ThingFault>
    ensures { Gives (and_then (one_int (map datum args.now)) (spec.text_with_int method a.now)) result }
{
    let n = one_int(args)?;
    with_int(alloc, method, a, n)
}

fn with_int(alloc: Global, method: Builtin, a: &Text, n: i64) -> Result<Fresh, ThingFault>
    ensures { Gives (spec.text_with_int method a.now n) result }
{
    match method {
        Builtin::StringLeft => text(left(alloc, a, n)),
        Builtin::StringRight => text(right(alloc, a, n)),
        Builtin::StringRepeat => text(repeat(alloc, a, n)),
        Builtin::StringUnicodeAt => unicode_at(a, n),
        _ => refused(RunFault::NoSuchMethod),
    }
}

/// The code point at a place. `OutOfRange` where there is none; a negative place is none.
fn unicode_at(a: &Text, i: i64) -> Result<Fresh, ThingFault>
    ensures { meant result ≡ exact (spec.unicode_at a.now i) }
{
    if i < 0 || i >= i64::from(a.length()) {
        return refused(RunFault::OutOfRange);
    }
    match a.at(i as u32) {
        Some(c) => int(i64::from(c)),
        None => refused(RunFault::OutOfRange),
    }
}

fn call_test(method: Builtin, a: &Text, args: &[Value]) -> Result<Fresh, ThingFault>
    ensures { meant result ≡ exact (in_form (λ w. bool_made (spec.text_test method a.now w)) (spec.one_text (map datum args.now))) }
{
    match args {
        [Value::Str(w)] => boolean(test(method, a, w)),
        _ => misfit(args, 1, 1),
    }
}

fn test(method: Builtin, a: &Text, w: &Text) -> bool
    ensures { result ≡ spec.text_test method a.now w.now }
{
    match method {
        Builtin::StringContains => find(a, w, 0).is_some(),
        Builtin::StringBeginsWith => a.chars().starts_with(w.chars()),
        _ => a.chars().ends_with(w.chars()),
    }
}

fn call_substr(alloc: Global, a: &Text, args: &[Value]) -> Result<Fresh, ThingFault>
    ensures { Gives (and_then (spec.int_and_maybe (negsuc 0) (map datum args.now)) (λ p. text_in_range (substr a.now p.0 p.1))) result }
{
    match args {
        [Value::Int(from)] => part(alloc, a, *from, -1),
        [Value::Int(from), Value::Int(len)] => part(alloc, a, *from, *len),
        _ => misfit(args, 1, 2),
    }
}

fn part(alloc: Global, a: &Text, from: i64, len: i64) -> Result<Fresh, ThingFault>
    ensures { Gives (text_in_range (substr a.now from len)) result }
{
    text(substr(alloc, a, from, len))
}

fn call_find(a: &Text, args: &[Value]) -> Result<Fresh, ThingFault>
    ensures { meant result ≡ exact (in_form (λ p. place_made (search.find a.now p.0 p.1)) (spec.text_and_maybe (map datum args.now))) }
{
    match args {
        [Value::Str(what)] => found(find(a, what, 0)),
        [Value::Str(what), Value::Int(from)] => found(find(a, what, *from)),
        _ => misfit(args, 1, 2),
    }
}

/// The place as an int, -1 standing for none.
pub fn found(at: Option<u32>) -> Result<Fresh, ThingFault>
    ensures { meant result ≡ Ok (place_made at) }
{
    match at {
        Some(i) => int(i64::from(i)),
        None => int(-1),
    }
}

fn call_replace(alloc: Global, a: &Text, args: &[Value]) -> Result<Fresh, ThingFault>
    ensures { Gives (and_then (spec.two_texts (map datum args.now)) (λ p. text_made (search.replaced a.now p.0 p.1))) result }
{
    match args {
        [Value::Str(what), Value::Str(with)] => replaced(alloc, a, what, with),
        _ => misfit(args, 2, 2),
    }
}

fn replaced(alloc: Global, a: &Text, what: &Text, with: &Text) -> Result<Fresh, ThingFault>
    ensures { Gives (text_made (search.replaced a.now what.now with.now)) result }
{
    text(replace(alloc, a, what, with))
}

fn call_split(alloc: Global, a: &Text, args: &[Value]) -> Result<Fresh, ThingFault>
    ensures { Gives (and_then (spec.split_args (map datum args.now)) (λ p. array_made (spec.parts_array a.now p.0 p.1))) result }
{
    match args {
        [] => characters(alloc, a),
        [Value::Str(by)] => parts(alloc, a, by, true),
        [Value::Str(by), Value::Bool(empty)] => parts(alloc, a, by, *empty),
        _ => misfit(args, 0, 2),
    }
}

/// The characters of the text as an array of Strings.
fn characters(alloc: Global, a: &Text) -> Result<Fresh, ThingFault>
    ensures { Gives (array_made (spec.parts_array a.now [] true)) result }
{
    match Text::of(Vec::new(alloc)) {
        Ok(nothing) => parts(alloc, a, &nothing, true),
        Err(fault) => Err(text_refusal(fault)),
    }
}

/// The parts of the text as an array of Strings. `TooLong` exactly where they are too many.
fn parts(alloc: Global, a: &Text, by: &Text, empty: bool) -> Result<Fresh, ThingFault>
    ensures { Gives (array_made (spec.parts_array a.now by.now empty)) result }
{
    match split(alloc, a, by, empty) {
        Ok(texts) => strings(alloc, texts),
        Err(fault) => Err(text_refusal(fault)),
    }
}

fn strings(alloc: Global, texts: Vec<Text>) -> Result<Fresh, ThingFault>
    requires { length texts.items ≤ MAX_ITEMS }
    ensures { Gives (Ok (array (spec.array_of_texts texts.items))) result }
{
    let mut all = TypedArray::new(alloc, Ty::Str, false);
    for text in texts {
        push(&mut all, Value::Str(text))?;
    }
    Ok(Fresh::Array(all))
}
