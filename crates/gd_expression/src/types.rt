//! Written types.

ghost use Rattle.gd_cursor.specs.Cursor.{Keeps, Takes};

use gd_cursor::{Cursor, Stop};
use gd_syntax::{BaseName, Mark, Pos, Seq, Text, TypeName};
use sqlite_items::Items;
use std::alloc::Global;

/// `type = NAME {"." NAME} ["[" type ["," type] "]"]`
#[cycle(types)]
pub fn type_name(cursor: &mut Cursor<'_>) -> Result<TypeName, Stop>
    ensures { Takes cursor.old cursor.new result }
{
    let pos = cursor.here();
    let names = dotted(cursor)?;
    let elements = elements(cursor)?;
    Ok(TypeName {
        pos,
        names,
        is_void: false,
        elements,
    })
}

/// `NAME {"." NAME}`
fn dotted(cursor: &mut Cursor<'_>) -> Result<Seq<Text>, Stop>
    ensures { Takes cursor.old cursor.new result }
{
    let (first, _) = cursor.name()?;
    let mut names = Vec::with_capacity(cursor.alloc, 1)?;
    names.push(first)?;
    'names: while cursor.eat(Mark::Dot) {
        let (name, _) = cursor.name()?;
        names.push(name)?;
    }
    Ok(Seq::of(names))
}

/// The types in brackets after a type's names, or none where no `[` stands next.
#[cycle(types)]
fn elements(cursor: &mut Cursor<'_>) -> Result<Items<TypeName>, Stop>
    ensures { Keeps cursor.old cursor.new }
{
    let mut found = Items::new(cursor.alloc);
    if cursor.eat(Mark::LeftBracket) {
        found.push(type_name(cursor)?)?;
        if cursor.eat(Mark::Comma) {
            found.push(type_name(cursor)?)?;
        }
        cursor.expect(Mark::RightBracket)?;
    }
    Ok(found)
}

/// `void` at this place.
pub fn void(alloc: Global, pos: Pos) -> TypeName {
    TypeName {
        pos,
        names: Seq::of(Vec::new(alloc)),
        is_void: true,
        elements: Items::new(alloc),
    }
}

/// `base = STRING {"." NAME} | NAME {"." NAME}`
pub fn base(cursor: &mut Cursor<'_>) -> Result<BaseName, Stop>
    ensures { Takes cursor.old cursor.new result }
{
    let pos = cursor.here();
    if !cursor.sees_text() {
        let names = dotted(cursor)?;
        return Ok(BaseName {
            pos,
            path: None,
            names,
        });
    }
    let path = cursor.text()?;
    let mut names = Vec::new(cursor.alloc);
    'names: while cursor.eat(Mark::Dot) {
        let (name, _) = cursor.name()?;
        names.push(name)?;
    }
    Ok(BaseName {
        pos,
        path: Some(path),
        names: Seq::of(names),
    })
}
