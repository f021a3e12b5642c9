//! The keys, the expression patterns and the bindings of a `match`, by their numbers.

use gd_syntax::{Branch, Expr, Pattern, PatternKind};
use no_memory::NoMemory;
use std::alloc::Global;

/// The parts of the patterns of a `match`, through all branches in order of place.
#[derive(Drop)]
pub struct Parts<'a> {
    /// The keys of dictionary patterns.
    pub keys: Vec<&'a Expr>,
    /// The expression patterns.
    pub expressions: Vec<&'a Expr>,
    /// The patterns that bind.
    pub bindings: Vec<&'a Pattern>,
}

/// The numbered parts of these branches.
pub fn parts_of<'a>(alloc: Global, branches: &'a [Branch]) -> Result<Parts<'a>, NoMemory> {
    let mut parts = Parts {
        keys: Vec::new(alloc),
        expressions: Vec::new(alloc),
        bindings: Vec::new(alloc),
    };
    for branch in branches {
        for pattern in branch.patterns.items() {
            add_parts(&mut parts, pattern)?;
        }
    }
    Ok(parts)
}

fn add_parts<'a>(parts: &mut Parts<'a>, pattern: &'a Pattern) -> Result<(), NoMemory> {
    match &pattern.kind {
        PatternKind::Value(expression) => parts.expressions.push(expression)?,
        PatternKind::Bind(_) => parts.bindings.push(pattern)?,
        PatternKind::Items(items) => {
            for item in items.as_slice() {
                add_parts(parts, item)?;
            }
        }
        PatternKind::Pairs(pairs, _) => {
            for (key, value) in pairs.as_slice() {
                parts.keys.push(key)?;
                if let Some(value) = value {
                    add_parts(parts, value)?;
                }
            }
        }
        PatternKind::Any | PatternKind::Rest => {}
    }
    Ok(())
}
