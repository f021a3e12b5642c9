//! The rule of overriding functions.
use crate::facts::Facts;
use crate::words::is_text;
use gd_members::MemberId;
use gd_syntax::FuncDecl;
use gd_typing::{base_function, overrides_badly};

/// A26: whether a function, other than `_init`, does not conform to the nearest function of its name among the bases.
pub fn bad_override(facts: &Facts<'_>, member: MemberId, function: &FuncDecl) -> bool {
    if is_text(&function.name, "_init") {
        return false;
    }
    let (table, declared) = (facts.table(), facts.declared());
    match base_function(table, declared, member.class, &function.name) {
        Some(base) => overrides_badly(table, declared, facts.typed, base, member),
        None => false,
    }
}
