//! The builtin constants: the name of each and the int that it is (docs/runtime.md, "Builtins").
ghost use Rattle.std.specs.Prelude.{◌≡◌, ◌+◌, ◌≤◌, length, map, option_map, slice_get};
ghost use Rattle.value_semantics.specs.Constants as spec;

use crate::written::is_written;
use gd_syntax::Text;

/// The number of the first constant. The others follow in their order.
const FIRST_NUMBER: u16 = 1_000;

/// The row of a constant.
#[derive(Clone, Copy)]
struct ConstantRow {
    name: &'static str,
    value: i64,
}

/// The rows of N constants, in the order of their numbers.
#[derive(Clone, Copy)]
struct Constants<const N: usize> {
    rows: &'static [ConstantRow; N],
}

macro_rules! row {
    ($name:literal, $value:literal) => {
        ConstantRow {
            name: $name,
            value: $value,
        }
    };
}

static CONSTANTS: Constants<10> = Constants {
    rows: &[
        row!("TYPE_NIL", 0),
        row!("TYPE_BOOL", 1),
        row!("TYPE_INT", 2),
        row!("TYPE_STRING", 4),
        row!("TYPE_OBJECT", 24),
        row!("TYPE_CALLABLE", 25),
        row!("TYPE_SIGNAL", 26),
        row!("TYPE_DICTIONARY", 27),
        row!("TYPE_ARRAY", 28),
        row!("CONNECT_ONE_SHOT", 4),
    ],
};

/// The number of the builtin constant with this name: 1,000 to 1,009 in the order of the rows. None
/// where no constant has the name.
pub fn builtin_constant(name: &Text) -> Option<u16>
    ensures { result ≡ spec.number_of name.now }
{
    numbered(all(), name.chars())
}

/// The int that the builtin constant with this number is. None where no constant has the number.
pub fn constant_value(number: u16) -> Option<i64>
    ensures { result ≡ spec.value_of number }
{
    if number < FIRST_NUMBER {
        return None;
    }
    value_at(all(), (number - FIRST_NUMBER) as usize)
}

fn all() -> &'static [ConstantRow]
    ensures { map spec.seen result.now ≡ spec.all }
{
    let rows = CONSTANTS.rows;
    rows
}

fn numbered(rows: &[ConstantRow], name: &[char]) -> Option<u16>
    requires { length rows.now ≤ 1000 }
    ensures { result ≡ spec.numbered_from FIRST_NUMBER name.now (map spec.seen rows.now) }
{
    let mut number = FIRST_NUMBER;
    for row in rows {
        if is_written(row.name, name) {
            return Some(number);
        }
        number += 1;
    }
    None
}

fn value_at(rows: &[ConstantRow], place: usize) -> Option<i64>
    ensures { result ≡ option_map (λ c. c.value) (slice_get (map spec.seen rows.now) place) }
{
    if place < rows.len() {
        Some(rows[place].value)
    } else {
        None
    }
}
