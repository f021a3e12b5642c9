//! The patterns of a branch in one list.
use gd_syntax::{Expr, Pattern, PatternKind};
use no_memory::NoMemory;
use std::alloc::Global;

/// The parts of patterns, those inside others too.
#[derive(Drop)]
pub struct PatternParts<'a> {
    pub patterns: Vec<&'a Pattern>,
    /// The keys of dictionary patterns.
    pub keys: Vec<&'a Expr>,
}

impl<'a> PatternParts<'a> {
    /// No parts.
    pub fn new(alloc: Global) -> PatternParts<'a> {
        PatternParts {
            patterns: Vec::new(alloc),
            keys: Vec::new(alloc),
        }
    }
}

/// Adds a pattern and the parts inside it.
pub fn flatten<'a>(pattern: &'a Pattern, found: &mut PatternParts<'a>) -> Result<(), NoMemory> {
    found.patterns.push(pattern)?;
    match &pattern.kind {
        PatternKind::Items(items) => {
            for item in items.as_slice() {
                flatten(item, found)?;
            }
        }
        PatternKind::Pairs(pairs, _) => {
            for (key, value) in pairs.as_slice() {
                found.keys.push(key)?;
                if let Some(value) = value {
                    flatten(value, found)?;
                }
            }
        }
        _ => {}
    }
    Ok(())
}
