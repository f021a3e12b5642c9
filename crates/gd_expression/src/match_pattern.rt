//! Patterns of `match`.
ghost use Rattle.std.specs.Prelude.{◌<◌, ◌≤◌};
ghost use Rattle.gd_cursor.specs.Cursor.{left, Keeps, Takes};
ghost use Rattle.gd_cursor.specs.Nests.{Nests};

use crate::expr::expression;
use gd_cursor::{Cursor, Stop};
use gd_syntax::{Expr, Keyword, Mark, Pattern, PatternKind, Pos, Seq};
use sqlite_items::Items;

/// `pat = "_" | "var" NAME | "[" [list(pat | "..")] "]" | "{" [list(expr [":" pat] | "..")] "}" | expr`
pub fn pattern(cursor: &mut Cursor<'_>) -> Result<Pattern, Stop>
    ensures { Takes cursor.old cursor.new result }
{
    nested(cursor)
}

/// A pattern, which may stand inside another.
fn nested(cursor: &mut Cursor<'_>) -> Result<Pattern, Stop>
    ensures { Takes cursor.old cursor.new result }
{
    let limit = cursor.left();
    Rules {
        limit,
        pattern: nested,
    }
    .any(cursor)
}

/// The rules of patterns. They read the patterns inside by `pattern`, so that each is proved by
/// itself.
#[derive(Clone, Copy)]
pub struct Rules<F> {
    /// More than the tokens that are left where a pattern inside begins.
    limit: usize,
    pattern: F,
}

impl<F: Fn(&mut Cursor<'_>) -> Result<Pattern, Stop>> Rules<F> {
    /// A pattern inside.
    fn inner(&self, cursor: &mut Cursor<'_>) -> Result<Pattern, Stop>
        requires nests { Nests self.now.limit (F.pre self.now.pattern) (F.post self.now.pattern) }
        requires within { left cursor.old < self.now.limit }
        ensures { Takes cursor.old cursor.new result }
    {
        (self.pattern)(cursor)
    }

    fn any(&self, cursor: &mut Cursor<'_>) -> Result<Pattern, Stop>
        requires nests { Nests self.now.limit (F.pre self.now.pattern) (F.post self.now.pattern) }
        requires within { left cursor.old ≤ self.now.limit }
        ensures { Takes cursor.old cursor.new result }
    {
        let pos = cursor.here();
        if cursor.eat_word(Keyword::Var) {
            let (name, pos) = cursor.name()?;
            let kind = PatternKind::Bind(name);
            return Ok(Pattern { pos, kind });
        }
        let kind = if cursor.eat(Mark::LeftBracket) {
            PatternKind::Items(self.items(cursor)?)
        } else if cursor.eat(Mark::LeftBrace) {
            self.pairs(cursor)?
        } else {
            value(cursor)?
        };
        Ok(Pattern { pos, kind })
    }

    /// `[list(pat | "..")]`, and the `]` after it.
    fn items(&self, cursor: &mut Cursor<'_>) -> Result<Items<Pattern>, Stop>
        requires nests { Nests self.now.limit (F.pre self.now.pattern) (F.post self.now.pattern) }
        requires within { left cursor.old < self.now.limit }
        ensures { Takes cursor.old cursor.new result }
    {
        let mut found = Items::new(cursor.alloc);
        'items: while !cursor.eat(Mark::RightBracket) {
            found.push(self.item(cursor)?)?;
            if !cursor.eat(Mark::Comma) {
                cursor.expect(Mark::RightBracket)?;
                return Ok(found);
            }
        }
        Ok(found)
    }

    /// `pat | ".."`
    fn item(&self, cursor: &mut Cursor<'_>) -> Result<Pattern, Stop>
        requires nests { Nests self.now.limit (F.pre self.now.pattern) (F.post self.now.pattern) }
        requires within { left cursor.old < self.now.limit }
        ensures { Takes cursor.old cursor.new result }
    {
        let pos = cursor.here();
        if cursor.eat(Mark::DotDot) {
            let kind = PatternKind::Rest;
            return Ok(Pattern { pos, kind });
        }
        self.inner(cursor)
    }

    /// `[list(expr [":" pat] | "..")]`, and the `}` after it.
    fn pairs(&self, cursor: &mut Cursor<'_>) -> Result<PatternKind, Stop>
        requires nests { Nests self.now.limit (F.pre self.now.pattern) (F.post self.now.pattern) }
        requires within { left cursor.old < self.now.limit }
        ensures { Takes cursor.old cursor.new result }
    {
        let mut found = Pairs {
            pairs: Items::new(cursor.alloc),
            rests: Vec::new(cursor.alloc),
        };
        'pairs: while !cursor.eat(Mark::RightBrace) {
            self.entry(cursor, &mut found)?;
            if !cursor.eat(Mark::Comma) {
                cursor.expect(Mark::RightBrace)?;
                break;
            }
        }
        let Pairs { pairs, rests } = found;
        Ok(PatternKind::Pairs(pairs, Seq::of(rests)))
    }

    /// `expr [":" pat] | ".."`, put to those found before.
    fn entry(&self, cursor: &mut Cursor<'_>, found: &mut Pairs) -> Result<(), Stop>
        requires nests { Nests self.now.limit (F.pre self.now.pattern) (F.post self.now.pattern) }
        requires within { left cursor.old < self.now.limit }
        ensures { Takes cursor.old cursor.new result }
    {
        let pos = cursor.here();
        if cursor.eat(Mark::DotDot) {
            let place = u32::try_from(found.pairs.len()).unwrap_or(u32::MAX);
            found.rests.push((place, pos))?;
            return Ok(());
        }
        found.pairs.push(self.pair(cursor)?)?;
        Ok(())
    }

    /// `expr [":" pat]`
    fn pair(&self, cursor: &mut Cursor<'_>) -> Result<(Expr, Option<Pattern>), Stop>
        requires nests { Nests self.now.limit (F.pre self.now.pattern) (F.post self.now.pattern) }
        requires within { left cursor.old < self.now.limit }
        ensures { Takes cursor.old cursor.new result }
    {
        let key = expression(cursor)?;
        if !cursor.eat(Mark::Colon) {
            return Ok((key, None));
        }
        Ok((key, Some(self.inner(cursor)?)))
    }
}

/// The entries of a dictionary pattern so far: its pairs, and each `..` with its position among them.
#[derive(Drop)]
struct Pairs {
    pairs: Items<(Expr, Option<Pattern>)>,
    rests: Vec<(u32, Pos)>,
}

/// An expression as a pattern, where `_` alone stands for any value.
fn value(cursor: &mut Cursor<'_>) -> Result<PatternKind, Stop>
    ensures { Takes cursor.old cursor.new result }
{
    let is_wildcard = cursor.sees_name(&['_']);
    let before = cursor.left();
    let value = expression(cursor)?;
    if is_wildcard && before - cursor.left() == 1 {
        return Ok(PatternKind::Any);
    }
    Ok(PatternKind::Value(value))
}
