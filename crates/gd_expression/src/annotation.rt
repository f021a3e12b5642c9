//! Annotations.
ghost use Rattle.std.specs.Prelude.{◌<◌};
ghost use Rattle.gd_cursor.specs.Cursor.{left, Keeps, Takes};

use crate::expr::expressions;
use gd_cursor::{Cursor, Edge, Stop};
use gd_syntax::{Expr, Mark, Note, Seq};

/// `{note}`
pub fn notes(cursor: &mut Cursor<'_>) -> Result<Seq<Note>, Stop>
    ensures { Keeps cursor.old cursor.new }
{
    let mut found = Vec::new(cursor.alloc);
    'notes: while cursor.sees(Mark::At) {
        found.push(note(cursor)?)?;
    }
    Ok(Seq::of(found))
}

/// `note = "@" NAME ["(" [list(expr)] ")"] [NL]`
fn note(cursor: &mut Cursor<'_>) -> Result<Note, Stop>
    ensures { Takes cursor.old cursor.new result }
{
    let pos = cursor.expect(Mark::At)?;
    let (name, _) = cursor.name()?;
    let args = arguments(cursor)?;
    cursor.eat_edge(Edge::Newline);
    Ok(Note { pos, name, args })
}

/// `["(" [list(expr)] ")"]`
fn arguments(cursor: &mut Cursor<'_>) -> Result<Seq<Expr>, Stop>
    ensures { Keeps cursor.old cursor.new }
{
    if cursor.eat(Mark::LeftParen) {
        Ok(Seq::of(expressions(cursor, Mark::RightParen)?))
    } else {
        Ok(Seq::of(Vec::new(cursor.alloc)))
    }
}
