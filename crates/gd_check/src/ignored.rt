//! Warnings that `@warning_ignore` takes away.
use crate::words::is_text;
use gd_rules::{Diag, Rule};
use gd_syntax::{Expr, ExprKind, Note, Pos};
use no_memory::NoMemory;
use std::alloc::Global;

/// A stretch of tokens, from the first to the last, in which a warning is ignored.
#[derive(Clone, Copy)]
pub struct Ignored {
    pub first: Pos,
    pub last: Pos,
    pub rule: Rule,
}

/// Adds what the annotations of a statement or declaration with this first and last token ignore.
pub fn ignore(
    notes: &[Note],
    first: Pos,
    last: Pos,
    found: &mut Vec<Ignored>,
) -> Result<(), NoMemory> {
    for note in notes {
        if is_text(&note.name, "warning_ignore") {
            for name in note.args.items() {
                if let Some(rule) = warning_named(name) {
                    found.push(Ignored { first, last, rule })?;
                }
            }
        }
    }
    Ok(())
}

/// The warning that a string names; other names have no effect.
fn warning_named(name: &Expr) -> Option<Rule> {
    let ExprKind::Str(name) = &name.kind else {
        return None;
    };
    if is_text(name, "unsafe_property_access") {
        Some(Rule::UnsafePropertyAccess)
    } else if is_text(name, "unsafe_method_access") {
        Some(Rule::UnsafeMethodAccess)
    } else if is_text(name, "unsafe_cast") {
        Some(Rule::UnsafeCast)
    } else if is_text(name, "unsafe_call_argument") {
        Some(Rule::UnsafeCallArgument)
    } else if is_text(name, "integer_division") {
        Some(Rule::IntegerDivision)
    } else {
        None
    }
}

/// The warnings that no stretch takes away, by rule and place.
///
/// Both lists are gone through once: a stretch of the warning's rule covers it exactly where the last of the last tokens
/// of those that begin before it is not before it.
pub fn without_ignored(
    alloc: Global,
    mut warnings: Vec<Diag>,
    mut ignored: Vec<Ignored>,
) -> Result<Vec<Diag>, NoMemory> {
    warnings.sort_unstable_by_key(|warning| (warning.rule, warning.pos));
    ignored.sort_unstable_by_key(|stretch| (stretch.rule, stretch.first));
    let mut left = Vec::new(alloc);
    let mut waiting = ignored.as_slice();
    let mut covered = None;
    for warning in &warnings {
        let place = (warning.rule, warning.pos);
        (covered, waiting) = cover(covered, waiting, place);
        if covered < Some(place) {
            left.push(*warning)?;
        }
    }
    Ok(left)
}

/// The end of all stretches that begin up to this place, and those that begin behind it.
fn cover(
    covered: Option<(Rule, Pos)>,
    waiting: &[Ignored],
    place: (Rule, Pos),
) -> (Option<(Rule, Pos)>, &[Ignored]) {
    let mut covered = covered;
    let mut waiting = waiting;
    while let [next, others @ ..] = waiting {
        if (next.rule, next.first) > place {
            break;
        }
        covered = covered.max(Some((next.rule, next.last)));
        waiting = others;
    }
    (covered, waiting)
}
