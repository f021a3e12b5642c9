//! The rule of annotations, and what they ignore.
use crate::findings::Findings;
use crate::words::is_text;
use gd_rules::Rule;
use gd_syntax::{Expr, ExprKind, Note, Pos};
use no_memory::NoMemory;

/// Looks at the annotations of a statement or declaration with this first and last token.
pub fn examine(
    notes: &[Note],
    first: Pos,
    last: Pos,
    found: &mut Findings,
) -> Result<(), NoMemory> {
    for note in notes {
        found.error_if(is_left_out(note), Rule::AnnotationLeftOut, note.pos)?;
    }
    found.ignore(notes, first, last)
}

/// Whether an annotation is another than `@warning_ignore` with string literals.
fn is_left_out(note: &Note) -> bool {
    !is_text(&note.name, "warning_ignore") || !are_strings(note.args.items())
}

/// Whether these are one or more string literals.
fn are_strings(arguments: &[Expr]) -> bool {
    !arguments.is_empty() && arguments.iter().all(is_string)
}

fn is_string(argument: &Expr) -> bool {
    matches!(&argument.kind, ExprKind::Str(_))
}
