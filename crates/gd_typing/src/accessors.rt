//! Whether a named accessor fits its variable.

use crate::arguments::parameter_of;
use crate::declared::Declared;
use crate::known::Known;
use crate::overriding::goes_surely;
use gd_members::{Found, MemberId};
use gd_model::Ty;
use gd_syntax::Text;
use script_table::Table;

/// Whether the name is that of a function of the class with one parameter that a value of the variable's type surely goes to:
/// A37 holds of `set = NAME` where it is not.
pub fn fits_setter<K: Known>(
    table: &Table,
    declared: &Declared,
    known: &K,
    class: u32,
    name: &Text,
    variable: &Ty,
) -> bool {
    match own_function(table, class, name) {
        Some(member) => {
            parameter_count(declared, member) == Some(1)
                && goes_surely(
                    table,
                    Some(variable),
                    parameter_of(declared, known, member, 0).place(),
                )
        }
        None => false,
    }
}

/// Whether the name is that of a function of the class without a parameter whose result surely goes to the variable's type:
/// A37 holds of `get = NAME` where it is not.
pub fn fits_getter(
    table: &Table,
    declared: &Declared,
    class: u32,
    name: &Text,
    variable: &Ty,
) -> bool {
    match own_function(table, class, name) {
        Some(member) => match declared.function(member) {
            Some(signature) => {
                signature.parameters.is_empty()
                    && goes_surely(table, signature.result.as_ref(), Some(variable))
            }
            None => false,
        },
        None => false,
    }
}

fn own_function(table: &Table, class: u32, name: &Text) -> Option<MemberId> {
    match table.own(class, name) {
        Some(Found::Member(member)) => Some(member),
        _ => None,
    }
}

fn parameter_count(declared: &Declared, member: MemberId) -> Option<usize> {
    match declared.function(member) {
        Some(signature) => Some(signature.parameters.len()),
        None => None,
    }
}
