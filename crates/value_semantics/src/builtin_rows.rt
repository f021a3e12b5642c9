//! The rows of the builtins: the name, the receiver, the parameters and the result of each (docs/runtime.md, "Builtins").
ghost use Rattle.std.specs.Prelude.{◌≡◌, map, option_map, slice_get};
ghost use Rattle.value_semantics.specs.BuiltinRows as spec;

use crate::builtin::Builtin;
use crate::kind::Kind;
use crate::written::is_written;
use gd_syntax::Text;

/// What a parameter of a builtin takes.
#[derive(Clone, Copy, Debug, PartialEq, Eq)]
pub enum Param {
    /// any value
    Any,
    /// a value that fits the element type of the receiver
    Element,
    /// a key of the receiver
    Key,
    /// a value that fits the value type of the receiver
    Value,
    Bool,
    Int,
    Str,
    Array,
    Dict,
    /// a Callable or null
    Callable,
    /// a String, an Array or a Dictionary
    Sized,
    /// a bool, an int or a String
    ToInt,
    /// a bool or an int
    ToBool,
}

/// The type of what a builtin gives.
#[derive(Clone, Copy, Debug, PartialEq, Eq)]
pub enum Returned {
    Void,
    Variant,
    Bool,
    Int,
    Str,
    Array,
    /// Array[String]
    Strings,
    /// the type of the receiver
    Receiver,
}

/// The row of a builtin.
#[derive(Clone, Copy)]
pub struct BuiltinRow {
    pub builtin: Builtin,
    /// the kind of the receiver, of a method
    pub receiver: Option<Kind>,
    pub name: &'static str,
    /// the parameters that a call has to give
    pub required: &'static [Param],
    /// those behind them, which may be left out
    pub optional: &'static [Param],
    /// what each argument behind them is, where there may be any number
    pub rest: Option<Param>,
    pub result: Returned,
}

/// The rows of N builtins, in the order of their numbers.
#[derive(Clone, Copy)]
struct Builtins<const N: usize> {
    rows: &'static [BuiltinRow; N],
}

const FUNCTION: Option<Kind> = None;

const STRING: Option<Kind> = Some(Kind::Str);

const ARRAY: Option<Kind> = Some(Kind::Array);

const DICTIONARY: Option<Kind> = Some(Kind::Dict);

const CALLABLE: Option<Kind> = Some(Kind::Callable);

const SIGNAL: Option<Kind> = Some(Kind::Signal);

/// A row: the parameters, then those that may be left out or what the rest of the arguments are, then the result.
macro_rules! row {
    ($receiver:expr, $builtin:ident, $name:literal, [$($param:ident),*] => $result:ident) => {
        row!($receiver, $builtin, $name, [$($param),*], [] => $result)
    };
    ($receiver:expr, $builtin:ident, $name:literal, [$($param:ident),*], [$($other:ident),*] => $result:ident) => {
        BuiltinRow {
            builtin: Builtin::$builtin,
            receiver: $receiver,
            name: $name,
            required: &[$(Param::$param),*],
            optional: &[$(Param::$other),*],
            rest: None,
            result: Returned::$result,
        }
    };
    ($receiver:expr, $builtin:ident, $name:literal, [$($param:ident),*], ..$rest:ident => $result:ident) => {
        BuiltinRow {
            builtin: Builtin::$builtin,
            receiver: $receiver,
            name: $name,
            required: &[$(Param::$param),*],
            optional: &[],
            rest: Some(Param::$rest),
            result: Returned::$result,
        }
    };
}

static BUILTINS: Builtins<82> = Builtins {
    rows: &[
        row!(FUNCTION, Print, "print", [], ..Any => Void),
        row!(FUNCTION, Prints, "prints", [], ..Any => Void),
        row!(FUNCTION, Printt, "printt", [], ..Any => Void),
        row!(FUNCTION, Str, "str", [], ..Any => Str),
        row!(FUNCTION, Len, "len", [Sized] => Int),
        row!(FUNCTION, Range, "range", [Int], [Int, Int] => Array),
        row!(FUNCTION, Typeof, "typeof", [Any] => Int),
        row!(FUNCTION, Abs, "abs", [Int] => Int),
        row!(FUNCTION, Absi, "absi", [Int] => Int),
        row!(FUNCTION, Min, "min", [Int, Int], ..Int => Int),
        row!(FUNCTION, Max, "max", [Int, Int], ..Int => Int),
        row!(FUNCTION, Mini, "mini", [Int, Int] => Int),
        row!(FUNCTION, Maxi, "maxi", [Int, Int] => Int),
        row!(FUNCTION, Clamp, "clamp", [Int, Int, Int] => Int),
        row!(FUNCTION, Clampi, "clampi", [Int, Int, Int] => Int),
        row!(FUNCTION, Sign, "sign", [Int] => Int),
        row!(FUNCTION, Signi, "signi", [Int] => Int),
        row!(FUNCTION, Posmod, "posmod", [Int, Int] => Int),
        row!(FUNCTION, Char, "char", [Int] => Str),
        row!(FUNCTION, IsSame, "is_same", [Any, Any] => Bool),
        row!(FUNCTION, Int, "int", [ToInt] => Int),
        row!(FUNCTION, Bool, "bool", [ToBool] => Bool),
        row!(STRING, StringLength, "length", [] => Int),
        row!(STRING, StringIsEmpty, "is_empty", [] => Bool),
        row!(STRING, StringSubstr, "substr", [Int], [Int] => Str),
        row!(STRING, StringLeft, "left", [Int] => Str),
        row!(STRING, StringRight, "right", [Int] => Str),
        row!(STRING, StringFind, "find", [Str], [Int] => Int),
        row!(STRING, StringContains, "contains", [Str] => Bool),
        row!(STRING, StringBeginsWith, "begins_with", [Str] => Bool),
        row!(STRING, StringEndsWith, "ends_with", [Str] => Bool),
        row!(STRING, StringSplit, "split", [], [Str, Bool] => Strings),
        row!(STRING, StringReplace, "replace", [Str, Str] => Str),
        row!(STRING, StringStripEdges, "strip_edges", [] => Str),
        row!(STRING, StringIsValidInt, "is_valid_int", [] => Bool),
        row!(STRING, StringToInt, "to_int", [] => Int),
        row!(STRING, StringRepeat, "repeat", [Int] => Str),
        row!(STRING, StringUnicodeAt, "unicode_at", [Int] => Int),
        row!(STRING, StringJoin, "join", [Array] => Str),
        row!(ARRAY, ArraySize, "size", [] => Int),
        row!(ARRAY, ArrayIsEmpty, "is_empty", [] => Bool),
        row!(ARRAY, ArrayAppend, "append", [Element] => Void),
        row!(ARRAY, ArrayPushBack, "push_back", [Element] => Void),
        row!(ARRAY, ArrayPushFront, "push_front", [Element] => Void),
        row!(ARRAY, ArrayPopBack, "pop_back", [] => Variant),
        row!(ARRAY, ArrayPopFront, "pop_front", [] => Variant),
        row!(ARRAY, ArrayFront, "front", [] => Variant),
        row!(ARRAY, ArrayBack, "back", [] => Variant),
        row!(ARRAY, ArrayInsert, "insert", [Int, Element] => Void),
        row!(ARRAY, ArrayRemoveAt, "remove_at", [Int] => Void),
        row!(ARRAY, ArrayErase, "erase", [Any] => Void),
        row!(ARRAY, ArrayClear, "clear", [] => Void),
        row!(ARRAY, ArrayHas, "has", [Any] => Bool),
        row!(ARRAY, ArrayFind, "find", [Any], [Int] => Int),
        row!(ARRAY, ArrayCount, "count", [Any] => Int),
        row!(ARRAY, ArrayReverse, "reverse", [] => Void),
        row!(ARRAY, ArraySort, "sort", [] => Void),
        row!(ARRAY, ArraySlice, "slice", [Int], [Int] => Receiver),
        row!(ARRAY, ArrayDuplicate, "duplicate", [] => Receiver),
        row!(ARRAY, ArrayAppendArray, "append_array", [Array] => Void),
        row!(ARRAY, ArrayResize, "resize", [Int] => Void),
        row!(ARRAY, ArrayFill, "fill", [Element] => Void),
        row!(ARRAY, ArrayIsReadOnly, "is_read_only", [] => Bool),
        row!(DICTIONARY, DictionarySize, "size", [] => Int),
        row!(DICTIONARY, DictionaryIsEmpty, "is_empty", [] => Bool),
        row!(DICTIONARY, DictionaryHas, "has", [Key] => Bool),
        row!(DICTIONARY, DictionaryGet, "get", [Key], [Any] => Variant),
        row!(DICTIONARY, DictionaryGetOrAdd, "get_or_add", [Key], [Value] => Variant),
        row!(DICTIONARY, DictionaryKeys, "keys", [] => Array),
        row!(DICTIONARY, DictionaryValues, "values", [] => Array),
        row!(DICTIONARY, DictionaryErase, "erase", [Key] => Bool),
        row!(DICTIONARY, DictionaryClear, "clear", [] => Void),
        row!(DICTIONARY, DictionaryMerge, "merge", [Dict], [Bool] => Void),
        row!(DICTIONARY, DictionaryDuplicate, "duplicate", [] => Receiver),
        row!(DICTIONARY, DictionaryFindKey, "find_key", [Any] => Variant),
        row!(DICTIONARY, DictionaryIsReadOnly, "is_read_only", [] => Bool),
        row!(CALLABLE, CallableCall, "call", [], ..Any => Variant),
        row!(CALLABLE, CallableIsValid, "is_valid", [] => Bool),
        row!(SIGNAL, SignalConnect, "connect", [Callable], [Int] => Int),
        row!(SIGNAL, SignalDisconnect, "disconnect", [Callable] => Void),
        row!(SIGNAL, SignalIsConnected, "is_connected", [Callable] => Bool),
        row!(SIGNAL, SignalEmit, "emit", [], ..Any => Void),
    ],
};

/// The row of a builtin.
pub fn builtin_row(builtin: Builtin) -> &'static BuiltinRow
    ensures { spec.seen result.now ≡ spec.row_of builtin }
{
    &BUILTINS.rows[builtin as usize]
}

/// The row of the builtin with this number: the functions and the methods are numbered from 0 in the order of `Builtin`.
/// None from 82 on.
pub fn builtin_numbered(number: u16) -> Option<&'static BuiltinRow>
    ensures { option_map (λ r. spec.seen r.now) result ≡ slice_get (map spec.row_of spec.all) number }
{
    let rows = BUILTINS.rows;
    row_at(rows, number as usize)
}

#[tactic(auto, using(crate::proofs::BuiltinTable::seen_at, crate::proofs::BuiltinTable::none_at))]
fn row_at(rows: &'static [BuiltinRow], place: usize) -> Option<&'static BuiltinRow>
    ensures { option_map (λ r. spec.seen r.now) result ≡ slice_get (map spec.seen rows.now) place }
{
    if place < rows.len() {
        Some(&rows[place])
    } else {
        None
    }
}

/// The builtin with this receiver and this name, a function having no receiver.
pub fn builtin_named(receiver: Option<Kind>, name: &Text) -> Option<Builtin>
    ensures { result ≡ spec.named receiver name.now }
{
    first_named(rows_of(receiver), name.chars())
}

/// The rows of the builtins with this receiver.
fn rows_of(receiver: Option<Kind>) -> &'static [BuiltinRow]
    ensures { map spec.seen result.now ≡ map spec.row_of (spec.builtins_of receiver) }
{
    let rows = BUILTINS.rows;
    match receiver {
        None => &rows[..22],
        Some(Kind::Str) => &rows[22..39],
        Some(Kind::Array) => &rows[39..63],
        Some(Kind::Dict) => &rows[63..76],
        Some(Kind::Callable) => &rows[76..78],
        Some(Kind::Signal) => &rows[78..],
        Some(_) => &rows[82..],
    }
}

fn first_named(rows: &[BuiltinRow], name: &[char]) -> Option<Builtin>
    ensures { result ≡ spec.first_named name.now (map spec.seen rows.now) }
{
    for row in rows {
        if is_written(row.name, name) {
            return Some(row.builtin);
        }
    }
    None
}
