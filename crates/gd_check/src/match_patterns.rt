//! The rules of patterns.
use crate::constants::is_no_constant_key;
use crate::expressions::Role;
use crate::findings::Findings;
use crate::patterns::{PatternParts, flatten};
use crate::scene::Scene;
use crate::values::{examine, examine_optional};
use gd_rules::Rule;
use gd_syntax::{Branch, Pattern, PatternKind, Pos};
use no_memory::NoMemory;

/// Looks at the patterns and the guard of a branch.
pub fn examine_branch(
    scene: &Scene<'_>,
    branch: &Branch,
    found: &mut Findings,
) -> Result<(), NoMemory> {
    let mut parts = PatternParts::new(scene.alloc);
    for pattern in branch.patterns.items() {
        flatten(pattern, &mut parts)?;
    }
    let has_alternatives = branch.patterns.items().len() > 1;
    for pattern in &parts.patterns {
        examine_pattern(scene, pattern, has_alternatives, found)?;
    }
    for key in &parts.keys {
        examine(scene, key, Role::Value, found)?;
        let is_bad = is_no_constant_key(scene, key)?;
        found.error_if(is_bad, Rule::PatternKeyNotConstant, key.pos)?;
    }
    examine_optional(scene, branch.guard.as_ref(), found)
}

/// Looks at one pattern, those inside it aside. A32 of a binding where the branch has several patterns.
fn examine_pattern(
    scene: &Scene<'_>,
    pattern: &Pattern,
    has_alternatives: bool,
    found: &mut Findings,
) -> Result<(), NoMemory> {
    match &pattern.kind {
        PatternKind::Value(value) => examine(scene, value, Role::Value, found),
        PatternKind::Bind(_) => {
            found.error_if(
                has_alternatives,
                Rule::BindingAmongAlternatives,
                pattern.pos,
            )
        }
        PatternKind::Items(items) => rest_not_last(items.as_slice(), found),
        PatternKind::Pairs(pairs, rests) => pair_rest_not_last(pairs.len(), rests.items(), found),
        PatternKind::Any | PatternKind::Rest => Ok(()),
    }
}

/// A34 of an array pattern: something stands behind a `..`.
fn rest_not_last(items: &[Pattern], found: &mut Findings) -> Result<(), NoMemory> {
    let Some((_, before)) = items.split_last() else {
        return Ok(());
    };
    for item in before {
        let is_rest = matches!(&item.kind, PatternKind::Rest);
        found.error_if(is_rest, Rule::RestNotLast, item.pos)?;
    }
    Ok(())
}

/// A34 of a dictionary pattern with this number of pairs: another `..` or a pair stands behind a `..`.
fn pair_rest_not_last(
    pairs: usize,
    rests: &[(u32, Pos)],
    found: &mut Findings,
) -> Result<(), NoMemory> {
    let Some((last, before)) = rests.split_last() else {
        return Ok(());
    };
    for rest in before {
        found.error(Rule::RestNotLast, rest.1)?;
    }
    found.error_if((last.0 as usize) < pairs, Rule::RestNotLast, last.1)
}
