//! The operators by their tokens, and how tightly each binds.
ghost use Rattle.std.specs.Prelude.{◌<◌, IfSome};

use gd_syntax::{Keyword, Mark, Operator, TokenKind};

/// How tightly an operator binds: the higher, the tighter.
pub type Level = u8;

/// `x as type`, and so any expression.
pub const CAST: Level = 0;
/// `x if c else y`
pub const CHOICE: Level = 1;

pub const OR: Level = 2;

const AND: Level = 3;

const NOT: Level = 4;

const MEMBER: Level = 5;

const COMPARE: Level = 6;

const BIT_OR: Level = 7;

const BIT_XOR: Level = 8;

const BIT_AND: Level = 9;

const SHIFT: Level = 10;

const SUM: Level = 11;

const PRODUCT: Level = 12;

const SIGN: Level = 13;

const POWER: Level = 14;

const TEST: Level = 15;

/// An operator between two operands, or `is` after one.
#[derive(Clone, Copy, Debug, PartialEq, Eq)]
pub enum Infix {
    And,
    Or,
    /// `is`
    Test,
    /// `not`, with `in` after it
    NotIn,
    Plain(Operator),
}

/// The operator that this token is after an operand, with its level.
pub fn infix_of(kind: &TokenKind) -> Option<(Level, Infix)>
    ensures { IfSome result (λ found. found.0 < 16) }
{
    match kind {
        TokenKind::Keyword(Keyword::Or) => Some((OR, Infix::Or)),
        TokenKind::Keyword(Keyword::And) => Some((AND, Infix::And)),
        TokenKind::Keyword(Keyword::In) => Some((MEMBER, Infix::Plain(Operator::In))),
        TokenKind::Keyword(Keyword::Not) => Some((MEMBER, Infix::NotIn)),
        TokenKind::Keyword(Keyword::Is) => Some((TEST, Infix::Test)),
        TokenKind::Mark(Mark::OrOr) => Some((OR, Infix::Or)),
        TokenKind::Mark(Mark::AndAnd) => Some((AND, Infix::And)),
        TokenKind::Mark(mark) => match plain_of(*mark) {
            Some((level, operator)) => Some((level, Infix::Plain(operator))),
            None => None,
        },
        _ => None,
    }
}

fn plain_of(mark: Mark) -> Option<(Level, Operator)>
    ensures { IfSome result (λ found. found.0 < 16) }
{
    match mark {
        Mark::EqualEqual => Some((COMPARE, Operator::Equal)),
        Mark::BangEqual => Some((COMPARE, Operator::NotEqual)),
        Mark::Less => Some((COMPARE, Operator::Less)),
        Mark::LessEqual => Some((COMPARE, Operator::LessEqual)),
        Mark::Greater => Some((COMPARE, Operator::Greater)),
        Mark::GreaterEqual => Some((COMPARE, Operator::GreaterEqual)),
        Mark::Bar => Some((BIT_OR, Operator::BitOr)),
        Mark::Caret => Some((BIT_XOR, Operator::BitXor)),
        Mark::Ampersand => Some((BIT_AND, Operator::BitAnd)),
        Mark::ShiftLeft => Some((SHIFT, Operator::ShiftLeft)),
        Mark::ShiftRight => Some((SHIFT, Operator::ShiftRight)),
        Mark::Plus => Some((SUM, Operator::Add)),
        Mark::Minus => Some((SUM, Operator::Subtract)),
        Mark::Star => Some((PRODUCT, Operator::Multiply)),
        Mark::Slash => Some((PRODUCT, Operator::Divide)),
        Mark::Percent => Some((PRODUCT, Operator::Remainder)),
        Mark::StarStar => Some((POWER, Operator::Power)),
        _ => None,
    }
}

/// The operator that this token is before an operand, with the level of that operand, where an
/// operand of level `least` may begin with it.
///
/// Where `least` is above the level of signs, as after `**`, the sign's operand keeps to it.
pub fn prefix_of(kind: &TokenKind, least: Level) -> Option<(Level, Operator)> {
    match kind {
        TokenKind::Keyword(Keyword::Not) | TokenKind::Mark(Mark::Bang) if least <= NOT => {
            Some((NOT, Operator::Not))
        }
        TokenKind::Mark(Mark::Minus) => Some((least.max(SIGN), Operator::Negate)),
        TokenKind::Mark(Mark::Plus) => Some((least.max(SIGN), Operator::Plus)),
        TokenKind::Mark(Mark::Tilde) => Some((least.max(SIGN), Operator::Complement)),
        _ => None,
    }
}

/// What an assignment mark stands for.
#[derive(Clone, Copy, Debug, PartialEq, Eq)]
pub enum Assignment {
    /// `=`
    Plain,
    /// As `+=`, with its operator.
    Compound(Operator),
}

/// The assignment that this token is.
pub fn assignment_of(kind: &TokenKind) -> Option<Assignment> {
    let TokenKind::Mark(mark) = kind else {
        return None;
    };
    match mark {
        Mark::Equal => Some(Assignment::Plain),
        Mark::PlusEqual => Some(Assignment::Compound(Operator::Add)),
        Mark::MinusEqual => Some(Assignment::Compound(Operator::Subtract)),
        Mark::StarEqual => Some(Assignment::Compound(Operator::Multiply)),
        Mark::SlashEqual => Some(Assignment::Compound(Operator::Divide)),
        Mark::PercentEqual => Some(Assignment::Compound(Operator::Remainder)),
        Mark::StarStarEqual => Some(Assignment::Compound(Operator::Power)),
        Mark::ShiftLeftEqual => Some(Assignment::Compound(Operator::ShiftLeft)),
        Mark::ShiftRightEqual => Some(Assignment::Compound(Operator::ShiftRight)),
        Mark::AmpersandEqual => Some(Assignment::Compound(Operator::BitAnd)),
        Mark::BarEqual => Some(Assignment::Compound(Operator::BitOr)),
        Mark::CaretEqual => Some(Assignment::Compound(Operator::BitXor)),
        _ => None,
    }
}
