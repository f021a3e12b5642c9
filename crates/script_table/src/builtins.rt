//! The names of builtins.
ghost use Rattle.std.specs.Prelude.{◌≡◌, ◌+◌, ◌<◌, length, map, bytes_eq, codes};
ghost use Rattle.gd_names.specs.Builtins as spec;

// The functions, whose numbers begin with 0.
const FUNCTIONS: [&[char]; 22] = [
    &['p', 'r', 'i', 'n', 't'],
    &['p', 'r', 'i', 'n', 't', 's'],
    &['p', 'r', 'i', 'n', 't', 't'],
    &['s', 't', 'r'],
    &['l', 'e', 'n'],
    &['r', 'a', 'n', 'g', 'e'],
    &['t', 'y', 'p', 'e', 'o', 'f'],
    &['a', 'b', 's'],
    &['a', 'b', 's', 'i'],
    &['m', 'i', 'n'],
    &['m', 'a', 'x'],
    &['m', 'i', 'n', 'i'],
    &['m', 'a', 'x', 'i'],
    &['c', 'l', 'a', 'm', 'p'],
    &['c', 'l', 'a', 'm', 'p', 'i'],
    &['s', 'i', 'g', 'n'],
    &['s', 'i', 'g', 'n', 'i'],
    &['p', 'o', 's', 'm', 'o', 'd'],
    &['c', 'h', 'a', 'r'],
    &['i', 's', '_', 's', 'a', 'm', 'e'],
    &['i', 'n', 't'],
    &['b', 'o', 'o', 'l'],
];

// The constants, whose numbers begin with 1,000.
const CONSTANTS: [&[char]; 10] = [
    &['T', 'Y', 'P', 'E', '_', 'N', 'I', 'L'],
    &['T', 'Y', 'P', 'E', '_', 'B', 'O', 'O', 'L'],
    &['T', 'Y', 'P', 'E', '_', 'I', 'N', 'T'],
    &['T', 'Y', 'P', 'E', '_', 'S', 'T', 'R', 'I', 'N', 'G'],
    &['T', 'Y', 'P', 'E', '_', 'O', 'B', 'J', 'E', 'C', 'T'],
    &[
        'T', 'Y', 'P', 'E', '_', 'C', 'A', 'L', 'L', 'A', 'B', 'L', 'E',
    ],
    &['T', 'Y', 'P', 'E', '_', 'S', 'I', 'G', 'N', 'A', 'L'],
    &[
        'T', 'Y', 'P', 'E', '_', 'D', 'I', 'C', 'T', 'I', 'O', 'N', 'A', 'R', 'Y',
    ],
    &['T', 'Y', 'P', 'E', '_', 'A', 'R', 'R', 'A', 'Y'],
    &[
        'C', 'O', 'N', 'N', 'E', 'C', 'T', '_', 'O', 'N', 'E', '_', 'S', 'H', 'O', 'T',
    ],
];

// The names of types that are no functions, whose numbers begin with 1,100.
const TYPES: [&[char]; 6] = [
    &['V', 'a', 'r', 'i', 'a', 'n', 't'],
    &['S', 't', 'r', 'i', 'n', 'g'],
    &['C', 'a', 'l', 'l', 'a', 'b', 'l', 'e'],
    &['S', 'i', 'g', 'n', 'a', 'l'],
    &['D', 'i', 'c', 't', 'i', 'o', 'n', 'a', 'r', 'y'],
    &['A', 'r', 'r', 'a', 'y'],
];

const REF_COUNTED: [char; 10] = ['R', 'e', 'f', 'C', 'o', 'u', 'n', 't', 'e', 'd'];

/// The number of the builtin with this name.
pub fn builtin_number(name: &[char]) -> Option<u16>
    ensures { result ≡ spec.builtin_number name.now }
{
    match function_number(name) {
        Some(number) => Some(number),
        None => match constant_number(name) {
            Some(number) => Some(number),
            None => type_number(name),
        },
    }
}

/// Whether the name is that of the class which the language has.
pub fn is_ref_counted(name: &[char]) -> bool
    ensures { result ≡ bytes_eq name.now (codes "RefCounted") }
{
    name == REF_COUNTED.as_slice()
}

fn function_number(name: &[char]) -> Option<u16>
    ensures { result ≡ spec.number_in 0 spec.functions name.now }
{
    number_in(0, &FUNCTIONS, name)
}

fn constant_number(name: &[char]) -> Option<u16>
    ensures { result ≡ spec.number_in 1000 spec.constants name.now }
{
    number_in(1000, &CONSTANTS, name)
}

fn type_number(name: &[char]) -> Option<u16>
    ensures { result ≡ spec.number_in 1100 spec.types name.now }
{
    number_in(1100, &TYPES, name)
}

// The number of the name among these words, which are numbered from the first one's number on.
fn number_in(first: u16, mut words: &[&[char]], name: &[char]) -> Option<u16>
    requires { first + length words.now < 65536 }
    ensures { result ≡ spec.number_in first (map (λ w. w.now) words.entry.now) name.now }
{
    let mut number = first;
    while let [word, rest @ ..] = words {
        if *word == name {
            return Some(number);
        }
        number += 1;
        words = rest;
    }
    None
}
