//! The printed forms of values.
ghost use Rattle.std.specs.Prelude.{◌≡◌, ◌∷◌, [], codes, map, List, Option, ℕ};
ghost use Rattle.std.specs.Fmt.{decimal, signed_decimal};
ghost use Rattle.gd_model.specs.declared.value.Value.TheVariants as v;
ghost use Rattle.gd_model.specs.Datum.{Datum};
ghost use Rattle.gd_model.specs.Meant.{datum, pair_datum};
ghost use Rattle.gd_model.specs.KeyDatum.{key_datum};
ghost use Rattle.gd_model.specs.Store.{array_at, dict_at, class_name_at};
ghost use Rattle.gd_model.specs.Whole.{Whole, AllWhole, key_value, pair_values};
ghost use Rattle.gd_answers.specs.Answers.{Answers, Gives};
ghost use Rattle.value_semantics.specs.Made.{limited, text_made};
ghost use Rattle.value_semantics.specs.Printed as spec;
ghost use Rattle.gd_printing.specs.Puts.{Puts};

use gd_answers::Fresh;
use gd_containers::{Look, OrderedDict, ThingFault, TypedArray, array_of, class_name_of, dict_of};
use gd_model::{Key, RunFault, Value};
use gd_syntax::{MAX_TEXT, Text, TextFault};
use itoa::Buffer;
use slot_arena::Handle;
use std::alloc::Global;

/// How many containers deep a value is printed.
const DEEPEST: u32 = 16;

/// The printed form of the value. `TooLong` exactly where it passes the limit of a text.
pub fn text_of<K: Look>(alloc: Global, v: &Value, look: &K) -> Result<Text, ThingFault>
    requires whole { Whole (K.things look.now) (K.names look.now) v.now }
    ensures { Answers (limited (spec.printed (K.store look.now) (K.names look.now) (datum v.now))) result }
{
    match v {
        Value::Str(text) => Ok(text.share()?),
        _ => {
            let mut out = Vec::new(alloc);
            put_printed(&mut out, v, look)?;
            made(out)
        }
    }
}

fn made(chars: Vec<char>) -> Result<Text, ThingFault>
    ensures { Answers (limited chars.items) result }
{
    match Text::of(chars) {
        Ok(text) => Ok(text),
        Err(TextFault::TooLong) => Err(ThingFault::Run(RunFault::TooLong)),
        Err(TextFault::NoMemory) => Err(ThingFault::NoMemory),
        Err(TextFault::NotUtf8 | TextFault::OutOfRange) => unreachable!(),
    }
}

/// Puts the characters at the end. `TooLong` exactly where the whole would pass the limit of a text.
fn put_chars(out: &mut Vec<char>, more: &[char]) -> Result<(), ThingFault>
    ensures { Puts more.now out.old.items out.new.items result }
{
    if more.len() > MAX_TEXT.saturating_sub(out.len()) {
        return Err(ThingFault::Run(RunFault::TooLong));
    }
    match out.extend_from_slice(more) {
        Ok(()) => Ok(()),
        Err(_) => Err(ThingFault::NoMemory),
    }
}

fn put(out: &mut Vec<char>, c: char) -> Result<(), ThingFault>
    ensures { Puts (c ∷ []) out.old.items out.new.items result }
{
    put_chars(out, &[c])
}

fn put_text(out: &mut Vec<char>, text: &Text) -> Result<(), ThingFault>
    ensures { Puts text.now out.old.items out.new.items result }
{
    put_chars(out, text.chars())
}

/// Puts a word of ASCII characters at the end.
fn put_word(out: &mut Vec<char>, word: &str) -> Result<(), ThingFault>
    ensures { Puts word.now out.old.items out.new.items result }
{
    if word.len() > MAX_TEXT.saturating_sub(out.len()) {
        return Err(ThingFault::Run(RunFault::TooLong));
    }
    for byte in word.as_bytes() {
        if out.push(char::from(*byte)).is_err() {
            return Err(ThingFault::NoMemory);
        }
    }
    Ok(())
}

/// A String inside a container: in double quotes, with a backslash before what needs one.
fn put_quoted(out: &mut Vec<char>, text: &Text) -> Result<(), ThingFault>
    ensures { Puts (spec.quoted text.now) out.old.items out.new.items result }
{
    put(out, '"')?;
    put_escaped(out, text.chars())?;
    put(out, '"')
}

fn put_escaped(out: &mut Vec<char>, text: &[char]) -> Result<(), ThingFault>
    ensures { Puts (spec.escaped text.now) out.old.items out.new.items result }
{
    for c in text {
        put_escape(out, *c)?;
    }
    Ok(())
}

fn put_escape(out: &mut Vec<char>, c: char) -> Result<(), ThingFault>
    ensures { Puts (spec.behind_backslash c (spec.escape_letter c)) out.old.items out.new.items result }
{
    match escape_letter(c) {
        Some(letter) => {
            put(out, '\\')?;
            put(out, letter)
        }
        None => put(out, c),
    }
}

/// The letter that stands behind a backslash for the character, where one does.
fn escape_letter(c: char) -> Option<char>
    ensures { result ≡ spec.escape_letter c }
{
    match c {
        '"' | '\'' | '\\' => Some(c),
        '\u{7}' => Some('a'),
        '\u{8}' => Some('b'),
        '\t' => Some('t'),
        '\n' => Some('n'),
        '\u{b}' => Some('v'),
        '\u{c}' => Some('f'),
        '\r' => Some('r'),
        _ => None,
    }
}

fn put_int(out: &mut Vec<char>, n: i64) -> Result<(), ThingFault>
    ensures { Puts (signed_decimal n) out.old.items out.new.items result }
{
    let mut buffer = Buffer::new();
    put_word(out, buffer.format(n))
}

fn put_serial(out: &mut Vec<char>, n: u64) -> Result<(), ThingFault>
    ensures { Puts (decimal n) out.old.items out.new.items result }
{
    let mut buffer = Buffer::new();
    put_word(out, buffer.format(n))
}

fn put_object<K: Look>(out: &mut Vec<char>, h: Handle, look: &K) -> Result<(), ThingFault>
    requires whole { Whole (K.things look.now) (K.names look.now) (v.Object h) }
    ensures { Puts (spec.object_form h.serial (class_name_at (K.store look.now) (K.names look.now) h.serial)) out.old.items out.new.items result }
{
    put(out, '<')?;
    put_text(out, class_name_of(look, h))?;
    put(out, '#')?;
    put_serial(out, h.serial)?;
    put(out, '>')
}

fn put_named(out: &mut Vec<char>, word: &str, name: &Text) -> Result<(), ThingFault>
    ensures { Puts (spec.named word.now name.now) out.old.items out.new.items result }
{
    put_word(out, word)?;
    put_text(out, name)?;
    put(out, '>')
}

fn put_key<K: Look>(out: &mut Vec<char>, key: &Key, look: &K) -> Result<(), ThingFault>
    requires whole { Whole (K.things look.now) (K.names look.now) (key_value key.now) }
    ensures { (inside : Option (Datum → List ℕ)) → Puts (spec.form_by (K.store look.now) (K.names look.now) inside (key_datum key.now)) out.old.items out.new.items result }
{
    match key {
        Key::Nil => put_word(out, "<null>"),
        Key::Bool(true) => put_word(out, "true"),
        Key::Bool(false) => put_word(out, "false"),
        Key::Int(n) => put_int(out, *n),
        Key::Str(text) => put_quoted(out, text),
        Key::Object(h) => put_object(out, *h, look),
    }
}

/// A value inside of a container; `room` is how many containers may still lie inside one another.
#[cycle(print)]
fn put_value<K: Look>(out: &mut Vec<char>, v: &Value, look: &K, room: u32) -> Result<(), ThingFault>
    requires whole { Whole (K.things look.now) (K.names look.now) v.now }
    ensures { Puts (spec.form_by (K.store look.now) (K.names look.now) (spec.inside (K.store look.now) (K.names look.now) room) (datum v.now)) out.old.items out.new.items result }
{
    match v {
        Value::Nil => put_word(out, "<null>"),
        Value::Bool(true) => put_word(out, "true"),
        Value::Bool(false) => put_word(out, "false"),
        Value::Int(n) => put_int(out, *n),
        Value::Str(text) => put_quoted(out, text),
        Value::Object(h) => put_object(out, *h, look),
        Value::Array(h) => put_array(out, *h, look, room),
        Value::Dict(h) => put_dict(out, *h, look, room),
        Value::Callable(target) => put_named(out, "<callable ", &target.get().name),
        Value::Signal(source) => put_named(out, "<signal ", &source.get().name),
    }
}

#[cycle(print)]
fn put_array<K: Look>(out: &mut Vec<char>, h: Handle, look: &K, room: u32) -> Result<(), ThingFault>
    requires whole { Whole (K.things look.now) (K.names look.now) (v.Array h) }
    ensures { Puts (spec.array_form (spec.inside (K.store look.now) (K.names look.now) room) (array_at (K.store look.now) h.serial)) out.old.items out.new.items result }
{
    if room == 0 {
        return put_word(out, "[...]");
    }
    put(out, '[')?;
    put_items(out, array_of(look, h).items(), look, room - 1)?;
    put(out, ']')
}

#[cycle(print)]
fn put_items<K: Look>(
    out: &mut Vec<char>,
    items: &[Value],
    look: &K,
    room: u32,
) -> Result<(), ThingFault>
    requires whole { AllWhole (K.things look.now) (K.names look.now) items.now }
    ensures { Puts (spec.all_forms (codes ", ") (map (spec.form_by (K.store look.now) (K.names look.now) (spec.inside (K.store look.now) (K.names look.now) room)) (map datum items.now))) out.old.items out.new.items result }
{
    let [first, rest @ ..] = items else {
        return Ok(());
    };
    put_value(out, first, look, room)?;
    for item in rest {
        put_word(out, ", ")?;
        put_value(out, item, look, room)?;
    }
    Ok(())
}

#[cycle(print)]
fn put_dict<K: Look>(out: &mut Vec<char>, h: Handle, look: &K, room: u32) -> Result<(), ThingFault>
    requires whole { Whole (K.things look.now) (K.names look.now) (v.Dict h) }
    ensures { Puts (spec.dict_form (spec.inside (K.store look.now) (K.names look.now) room) (dict_at (K.store look.now) h.serial)) out.old.items out.new.items result }
{
    if room == 0 {
        return put_word(out, "{...}");
    }
    let dict = dict_of(look, h);
    if dict.size() == 0 {
        return put_word(out, "{  }");
    }
    put_word(out, "{ ")?;
    put_pairs(out, dict, look, room - 1)?;
    put_word(out, " }")
}

#[cycle(print)]
fn put_pairs<K: Look>(
    out: &mut Vec<char>,
    dict: &OrderedDict,
    look: &K,
    room: u32,
) -> Result<(), ThingFault>
    requires whole { AllWhole (K.things look.now) (K.names look.now) (pair_values dict.now.pairs) }
    ensures { Puts (spec.all_forms (codes ", ") (map (spec.pair_form (spec.form_by (K.store look.now) (K.names look.now) (spec.inside (K.store look.now) (K.names look.now) room))) (map pair_datum dict.now.pairs))) out.old.items out.new.items result }
{
    let Some((key, value)) = dict.at(0) else {
        return Ok(());
    };
    put_pair(out, key, value, look, room)?;
    for i in 1..dict.size() {
        let Some((key, value)) = dict.at(i) else {
            unreachable!();
        };
        put_word(out, ", ")?;
        put_pair(out, key, value, look, room)?;
    }
    Ok(())
}

#[cycle(print)]
fn put_pair<K: Look>(
    out: &mut Vec<char>,
    key: &Key,
    value: &Value,
    look: &K,
    room: u32,
) -> Result<(), ThingFault>
    requires whole_key { Whole (K.things look.now) (K.names look.now) (key_value key.now) }
    requires whole_value { Whole (K.things look.now) (K.names look.now) value.now }
    ensures { Puts (spec.pair_form (spec.form_by (K.store look.now) (K.names look.now) (spec.inside (K.store look.now) (K.names look.now) room)) (pair_datum (key.now, value.now))) out.old.items out.new.items result }
{
    put_key(out, key, look)?;
    put_word(out, ": ")?;
    put_value(out, value, look, room)
}

fn put_printed<K: Look>(out: &mut Vec<char>, v: &Value, look: &K) -> Result<(), ThingFault>
    requires whole { Whole (K.things look.now) (K.names look.now) v.now }
    ensures { Puts (spec.printed (K.store look.now) (K.names look.now) (datum v.now)) out.old.items out.new.items result }
{
    match v {
        Value::Str(text) => put_text(out, text),
        _ => put_value(out, v, look, DEEPEST),
    }
}

fn put_all_printed<K: Look>(
    out: &mut Vec<char>,
    values: &[Value],
    between: &[char],
    look: &K,
) -> Result<(), ThingFault>
    requires whole { AllWhole (K.things look.now) (K.names look.now) values.now }
    ensures { Puts (spec.all_printed (K.store look.now) (K.names look.now) between.now (map datum values.now)) out.old.items out.new.items result }
{
    let [first, rest @ ..] = values else {
        return Ok(());
    };
    put_printed(out, first, look)?;
    for v in rest {
        put_chars(out, between)?;
        put_printed(out, v, look)?;
    }
    Ok(())
}

/// The printed forms of the values, with the characters `between` them. `TooLong` exactly where all pass the limit.
pub fn joined<K: Look>(
    alloc: Global,
    values: &[Value],
    between: &[char],
    look: &K,
) -> Result<Fresh, ThingFault>
    requires whole { AllWhole (K.things look.now) (K.names look.now) values.now }
    ensures { Gives (text_made (spec.all_printed (K.store look.now) (K.names look.now) between.now (map datum values.now))) result }
{
    let mut out = Vec::new(alloc);
    put_all_printed(&mut out, values, between, look)?;
    Ok(Fresh::Value(Value::Str(made(out)?)))
}
