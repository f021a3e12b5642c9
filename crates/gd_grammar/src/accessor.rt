//! The accessors of a variable.
ghost use Rattle.std.specs.Prelude.{◌<◌, IsTrue};
ghost use Rattle.gd_cursor.specs.Cursor.{left, Keeps, Takes};

use gd_cursor::{Cursor, Edge, Stop};
use gd_statement::block;
use gd_syntax::{Accessor, Mark};
use sqlite_items::{Boxed, Items};

/// The accessors found so far.
#[derive(Drop)]
pub struct Accessors {
    pub setter: Option<Boxed<Accessor>>,
    pub getter: Option<Boxed<Accessor>>,
}

impl Accessors {
    pub fn none() -> Accessors {
        Accessors {
            setter: None,
            getter: None,
        }
    }
}

/// `props = ":" link ["," link] end | ":" NL Indent acc {acc} Dedent`
pub fn props(cursor: &mut Cursor<'_>) -> Result<Accessors, Stop>
    ensures { Takes cursor.old cursor.new result }
{
    let mut found = Accessors::none();
    cursor.expect(Mark::Colon)?;
    if !cursor.eat_edge(Edge::Newline) {
        links(cursor, &mut found)?;
        return Ok(found);
    }
    cursor.expect_edge(Edge::Indent)?;
    accessor(cursor, &mut found)?;
    'accessors: while !cursor.eat_edge(Edge::Dedent) {
        accessor(cursor, &mut found)?;
    }
    Ok(found)
}

/// `link ["," link] end`, where `link = "set" "=" NAME | "get" "=" NAME`.
fn links(cursor: &mut Cursor<'_>, found: &mut Accessors) -> Result<(), Stop>
    ensures { Takes cursor.old cursor.new result }
{
    link(cursor, found)?;
    if cursor.eat(Mark::Comma) {
        link(cursor, found)?;
    }
    cursor.end()
}

fn link(cursor: &mut Cursor<'_>, found: &mut Accessors) -> Result<(), Stop>
    ensures { Takes cursor.old cursor.new result }
{
    if sees_setter(cursor, found) {
        cursor.take();
        found.setter = Some(function(cursor)?);
    } else if sees_getter(cursor, found) {
        cursor.take();
        found.getter = Some(function(cursor)?);
    } else {
        return Err(Stop::Here);
    }
    Ok(())
}

/// `acc = link [","] {NL} | "set" "(" NAME ")" ":" block | "get" ":" block`
fn accessor(cursor: &mut Cursor<'_>, found: &mut Accessors) -> Result<(), Stop>
    ensures { Takes cursor.old cursor.new result }
{
    if sees_setter(cursor, found) {
        found.setter = Some(setter(cursor)?);
    } else if sees_getter(cursor, found) {
        found.getter = Some(getter(cursor)?);
    } else {
        return Err(Stop::Here);
    }
    Ok(())
}

/// Whether the word `set` stands next, and no setter before it.
fn sees_setter(cursor: &Cursor<'_>, found: &Accessors) -> bool
    ensures { IsTrue result → 0 < left cursor.now }
{
    found.setter.is_none() && cursor.sees_setter()
}

/// Whether the word `get` stands next, and no getter before it.
fn sees_getter(cursor: &Cursor<'_>, found: &Accessors) -> bool
    ensures { IsTrue result → 0 < left cursor.now }
{
    found.getter.is_none() && cursor.sees_getter()
}

/// A setter of a block of accessors, from the word `set` on.
fn setter(cursor: &mut Cursor<'_>) -> Result<Boxed<Accessor>, Stop>
    requires { 0 < left cursor.old }
    ensures { Takes cursor.old cursor.new result }
{
    let place = cursor.here();
    let before = cursor.left();
    cursor.take();
    if cursor.sees(Mark::Equal) {
        return listed(cursor);
    }
    cursor.expect(Mark::LeftParen)?;
    let (name, _) = cursor.name()?;
    cursor.expect(Mark::RightParen)?;
    cursor.expect(Mark::Colon)?;
    let body = Items::from_vec(block(cursor)?);
    let tokens = cursor.taken_since(before);
    let accessor = Accessor::Body(Some(name), body, place, tokens);
    Ok(Boxed::new(cursor.alloc, accessor)?)
}

/// A getter of a block of accessors, from the word `get` on.
fn getter(cursor: &mut Cursor<'_>) -> Result<Boxed<Accessor>, Stop>
    requires { 0 < left cursor.old }
    ensures { Takes cursor.old cursor.new result }
{
    let place = cursor.here();
    let before = cursor.left();
    cursor.take();
    if cursor.sees(Mark::Equal) {
        return listed(cursor);
    }
    cursor.expect(Mark::Colon)?;
    let body = Items::from_vec(block(cursor)?);
    let tokens = cursor.taken_since(before);
    let accessor = Accessor::Body(None, body, place, tokens);
    Ok(Boxed::new(cursor.alloc, accessor)?)
}

/// `"=" NAME [","] {NL}`, after the word.
fn listed(cursor: &mut Cursor<'_>) -> Result<Boxed<Accessor>, Stop>
    ensures { Takes cursor.old cursor.new result }
{
    let accessor = function(cursor)?;
    cursor.eat(Mark::Comma);
    'lines: while cursor.eat_edge(Edge::Newline) {}
    Ok(accessor)
}

/// `"=" NAME`, after the word.
fn function(cursor: &mut Cursor<'_>) -> Result<Boxed<Accessor>, Stop>
    ensures { Takes cursor.old cursor.new result }
{
    cursor.expect(Mark::Equal)?;
    let (name, pos) = cursor.name()?;
    Ok(Boxed::new(cursor.alloc, Accessor::Named(name, pos))?)
}
