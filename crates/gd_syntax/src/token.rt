//! Tokens, as the lexer hands them on.
use crate::{Pos, Text};

/// A token and the place of its first character.
#[derive(Drop)]
pub struct Token {
    pub pos: Pos,
    pub kind: TokenKind,
}

#[derive(Drop)]
pub enum TokenKind {
    /// A name.
    Word(Text),
    Keyword(Keyword),
    Number(i64),
    /// A string, its escapes resolved.
    Quoted(Text),
    Mark(Mark),
    /// The end of a logical line.
    Newline,
    Indent,
    Dedent,
    End,
}

/// The keywords, in the order of their numbers.
#[derive(Clone, Copy, Debug, PartialEq, Eq)]
pub enum Keyword {
    If,
    Elif,
    Else,
    For,
    While,
    Match,
    When,
    Break,
    Continue,
    Pass,
    Return,
    Class,
    ClassName,
    Extends,
    Is,
    In,
    As,
    SelfValue,
    Super,
    Signal,
    Func,
    Static,
    Const,
    Enum,
    Var,
    Breakpoint,
    Preload,
    Await,
    Yield,
    Assert,
    Void,
    And,
    Or,
    Not,
    True,
    False,
    Null,
}

/// The marks, in the order of their numbers.
#[derive(Clone, Copy, Debug, PartialEq, Eq)]
pub enum Mark {
    Plus,
    Minus,
    Star,
    Slash,
    Percent,
    StarStar,
    Tilde,
    Ampersand,
    Bar,
    Caret,
    ShiftLeft,
    ShiftRight,
    EqualEqual,
    BangEqual,
    Less,
    Greater,
    LessEqual,
    GreaterEqual,
    AndAnd,
    OrOr,
    Bang,
    Equal,
    PlusEqual,
    MinusEqual,
    StarEqual,
    SlashEqual,
    PercentEqual,
    StarStarEqual,
    ShiftLeftEqual,
    ShiftRightEqual,
    AmpersandEqual,
    BarEqual,
    CaretEqual,
    Arrow,
    Dot,
    DotDot,
    Colon,
    Comma,
    Semicolon,
    LeftParen,
    RightParen,
    LeftBracket,
    RightBracket,
    LeftBrace,
    RightBrace,
    At,
    Dollar,
}
