//! Operators and punctuation: the longest mark that begins with a character.
ghost use Rattle.std.specs.Prelude.{◌≡◌};
ghost use Rattle.gd_lexer.specs.Mark as spec;

use crate::cursor::Cursor;
use gd_syntax::Mark;

/// A mark and the number of its characters.
pub type Spelled = (Mark, u8);

/// The longest mark at the cursor, or `None` where the next character begins none.
#[tactic(auto, unfolding(crate::specs::Mark::mark_at))]
pub fn mark(c: char, cursor: &Cursor) -> Option<Spelled>
    ensures { result ≡ spec.mark_at c cursor.now.glyphs }
{
    match c {
        '+' | '-' | '/' | '%' => Some(arithmetic(c, cursor)),
        '*' => Some(star(cursor)),
        '&' | '|' | '^' => Some(bits(c, cursor)),
        '<' | '>' => Some(angle(c, cursor)),
        '=' => Some(with_equal(cursor, Mark::Equal, Mark::EqualEqual)),
        '!' => Some(with_equal(cursor, Mark::Bang, Mark::BangEqual)),
        '.' if cursor.sees_second('.') => Some((Mark::DotDot, 2)),
        _ => single(c),
    }
}

/// A mark that may be followed by `=`.
fn with_equal(cursor: &Cursor, plain: Mark, equal: Mark) -> Spelled
    ensures { result ≡ spec.with_equal cursor.now.glyphs plain equal }
{
    if cursor.sees_second('=') {
        (equal, 2)
    } else {
        (plain, 1)
    }
}

fn arithmetic(c: char, cursor: &Cursor) -> Spelled
    ensures { result ≡ spec.arithmetic c cursor.now.glyphs }
{
    match c {
        '+' => with_equal(cursor, Mark::Plus, Mark::PlusEqual),
        '-' if cursor.sees_second('>') => (Mark::Arrow, 2),
        '-' => with_equal(cursor, Mark::Minus, Mark::MinusEqual),
        '/' => with_equal(cursor, Mark::Slash, Mark::SlashEqual),
        _ => with_equal(cursor, Mark::Percent, Mark::PercentEqual),
    }
}

fn star(cursor: &Cursor) -> Spelled
    ensures { result ≡ spec.star cursor.now.glyphs }
{
    if !cursor.sees_second('*') {
        return with_equal(cursor, Mark::Star, Mark::StarEqual);
    }
    if cursor.sees_third('=') {
        (Mark::StarStarEqual, 3)
    } else {
        (Mark::StarStar, 2)
    }
}

fn bits(c: char, cursor: &Cursor) -> Spelled
    ensures { result ≡ spec.bits c cursor.now.glyphs }
{
    match c {
        '&' if cursor.sees_second('&') => (Mark::AndAnd, 2),
        '&' => with_equal(cursor, Mark::Ampersand, Mark::AmpersandEqual),
        '|' if cursor.sees_second('|') => (Mark::OrOr, 2),
        '|' => with_equal(cursor, Mark::Bar, Mark::BarEqual),
        _ => with_equal(cursor, Mark::Caret, Mark::CaretEqual),
    }
}

fn angle(c: char, cursor: &Cursor) -> Spelled
    ensures { result ≡ spec.angle c cursor.now.glyphs }
{
    if !cursor.sees_second(c) {
        return if c == '<' {
            with_equal(cursor, Mark::Less, Mark::LessEqual)
        } else {
            with_equal(cursor, Mark::Greater, Mark::GreaterEqual)
        };
    }
    let is_assignment = cursor.sees_third('=');
    if c == '<' {
        if is_assignment {
            (Mark::ShiftLeftEqual, 3)
        } else {
            (Mark::ShiftLeft, 2)
        }
    } else if is_assignment {
        (Mark::ShiftRightEqual, 3)
    } else {
        (Mark::ShiftRight, 2)
    }
}

/// A mark of one character that begins no longer one, and the dot.
fn single(c: char) -> Option<Spelled>
    ensures { result ≡ spec.single c }
{
    let mark = match c {
        '~' => Mark::Tilde,
        '.' => Mark::Dot,
        ':' => Mark::Colon,
        ',' => Mark::Comma,
        ';' => Mark::Semicolon,
        '(' => Mark::LeftParen,
        ')' => Mark::RightParen,
        '[' => Mark::LeftBracket,
        ']' => Mark::RightBracket,
        '{' => Mark::LeftBrace,
        '}' => Mark::RightBrace,
        '@' => Mark::At,
        '$' => Mark::Dollar,
        _ => return None,
    };
    Some((mark, 1))
}
