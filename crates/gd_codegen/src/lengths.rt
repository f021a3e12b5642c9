//! The limit on the tokens of functions.
ghost use Rattle.std.specs.Prelude.{◌≡◌};
ghost use Rattle.gd_codegen.specs.Lengths as spec;

use gd_syntax::{Accessor, ClassDecl, DeclKind, Pos, VarDecl};
use script_table::Table;
use sqlite_items::Boxed;

/// The most tokens of a function, and of all initial values of a class.
const MAX_TOKENS: u32 = 65_536;

/// The name of the first function, or of the first class with its initial values, that has too many tokens, by place.
/// That of an accessor is its word `set` or `get`.
pub fn first_too_long(table: &Table) -> Option<Pos> {
    let mut first = None;
    for place in 0..table.class_count() {
        if let Some(class) = table.class(place.saturating_add(1)) {
            first = earlier(first, too_long_in(class));
        }
    }
    first
}

fn too_long_in(class: &ClassDecl) -> Option<Pos> {
    let mut first = too_long(class.initial_tokens, class.pos);
    for member in class.members.as_slice() {
        let found = match &member.kind {
            DeclKind::Func(function) => too_long(function.tokens, function.pos),
            DeclKind::Var(variable) => too_long_accessor(variable),
            _ => None,
        };
        first = earlier(first, found);
    }
    first
}

fn too_long_accessor(variable: &VarDecl) -> Option<Pos> {
    earlier(
        too_long_body(variable.setter.as_ref()),
        too_long_body(variable.getter.as_ref()),
    )
}

fn too_long_body(accessor: Option<&Boxed<Accessor>>) -> Option<Pos> {
    match accessor?.get() {
        Accessor::Body(_, _, pos, tokens) => too_long(*tokens, *pos),
        Accessor::Named(_, _) => None,
    }
}

fn too_long(tokens: u32, pos: Pos) -> Option<Pos>
    ensures { result ≡ spec.too_long tokens pos }
{
    if tokens > MAX_TOKENS { Some(pos) } else { None }
}

fn earlier(one: Option<Pos>, other: Option<Pos>) -> Option<Pos> {
    match (one, other) {
        (Some(a), Some(b)) => Some(if b < a { b } else { a }),
        (Some(a), None) => Some(a),
        (None, b) => b,
    }
}
