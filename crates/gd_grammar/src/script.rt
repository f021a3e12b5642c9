//! The tree of a file.
ghost use Rattle.std.specs.Prelude.{◌≡◌, ◌<◌, ◌≤◌, ◌-◌, length, max, IfErr};
ghost use Rattle.gd_cursor.specs.Cursor.{left, Keeps, Takes};
ghost use Rattle.gd_grammar.specs.Fault as spec;
ghost use Rattle.gd_grammar.specs.Fault.{IsFaultAmong, IsFaultAt};

use crate::class::{Members, extended, file_members};
use crate::fault::SyntaxFault;
use gd_cursor::{Cursor, Edge, Stop, count};
use gd_expression::base;
use gd_rules::Rule;
use gd_syntax::{BaseName, ClassDecl, Keyword, Mark, Pos, Script, Text, Token, TokenKind};
use std::alloc::Global;

/// The tree of the script that these tokens are.
///
/// `tokens` are those of one file in order, as the lexer gives them, `End` last. `Fault` is at the
/// first token with which no script goes on.
pub fn parse(alloc: Global, tokens: &[Token]) -> Result<Script, SyntaxFault>
    requires { 0 < length tokens.now }
    ensures { IfErr result (IsFaultAmong tokens.now) }
{
    let start = Pos {
        file: tokens[0].pos.file,
        line: 1,
        column: 1,
    };
    let mut cursor = Cursor::new(alloc, tokens, start);
    match script(&mut cursor, start) {
        Ok(tree) => Ok(tree),
        Err(Stop::NoMemory) => Err(SyntaxFault::NoMemory),
        Err(Stop::Here) => Err(fault_among(tokens, cursor.left())),
    }
}

/// The fault at the first of the last `left` tokens, or at the last token where none are left.
fn fault_among(tokens: &[Token], left: usize) -> SyntaxFault
    requires some { 0 < length tokens.now }
    requires within { left ≤ length tokens.now }
    ensures { IsFaultAt tokens.now (length tokens.now - max left 1) result }
{
    let token = &tokens[tokens.len() - left.max(1)];
    SyntaxFault::Fault(token.pos, fault_rule(&token.kind))
}

/// The rule of a fault at this token.
fn fault_rule(kind: &TokenKind) -> Rule
    ensures { result ≡ spec.fault_rule kind.now }
{
    match kind {
        TokenKind::Keyword(Keyword::Await | Keyword::Yield | Keyword::Breakpoint | Keyword::Func)
        | TokenKind::Mark(Mark::Dollar) => Rule::FormLeftOut,
        _ => Rule::Syntax,
    }
}

/// `script = {NL} [header] {decl} End`. `start` is the place of a class without a name.
fn script(cursor: &mut Cursor<'_>, start: Pos) -> Result<Script, Stop>
    ensures { Takes cursor.old cursor.new result }
{
    'lines: while cursor.eat_edge(Edge::Newline) {}
    let Header { name, base } = head(cursor)?;
    let Members { members, initial } = file_members(cursor)?;
    if cursor.left() > 0 {
        return Err(Stop::Here);
    }
    let (name, pos) = match name {
        Some((name, pos)) => (Some(name), pos),
        None => (None, start),
    };
    Ok(ClassDecl {
        name,
        pos,
        base,
        members,
        initial_tokens: count(initial),
    })
}

/// The name of a file's class with its place, and its base.
#[derive(Drop)]
struct Header {
    name: Option<(Text, Pos)>,
    base: Option<BaseName>,
}

/// `class_name` and `extends` at the head of a file, in either order, each at most once.
fn head(cursor: &mut Cursor<'_>) -> Result<Header, Stop>
    ensures { Keeps cursor.old cursor.new }
{
    if cursor.eat_word(Keyword::ClassName) {
        return named_header(cursor);
    }
    if !cursor.eat_word(Keyword::Extends) {
        return Ok(Header {
            name: None,
            base: None,
        });
    }
    let base = base(cursor)?;
    cursor.end()?;
    Ok(Header {
        name: class_name(cursor)?,
        base: Some(base),
    })
}

/// `[class_name NAME end]`
fn class_name(cursor: &mut Cursor<'_>) -> Result<Option<(Text, Pos)>, Stop>
    ensures { Keeps cursor.old cursor.new }
{
    if !cursor.eat_word(Keyword::ClassName) {
        return Ok(None);
    }
    let name = cursor.name()?;
    cursor.end()?;
    Ok(Some(name))
}

/// `NAME [extends base] end | NAME end extends base end`, after `class_name`.
fn named_header(cursor: &mut Cursor<'_>) -> Result<Header, Stop>
    ensures { Keeps cursor.old cursor.new }
{
    let name = Some(cursor.name()?);
    if let Some(base) = extended(cursor)? {
        cursor.end()?;
        return Ok(Header {
            name,
            base: Some(base),
        });
    }
    cursor.end()?;
    let base = extended(cursor)?;
    if base.is_some() {
        cursor.end()?;
    }
    Ok(Header { name, base })
}
