//! What a name stands for.
ghost use Rattle.std.specs.Prelude.{◌≡◌, length};
ghost use Rattle.gd_lexer.specs.Word as spec;

use gd_syntax::Keyword;

/// What a whole name is.
#[derive(Clone, Copy, Debug, PartialEq, Eq)]
pub enum Word {
    Name,
    Keyword(Keyword),
    /// A constant of floats, which the language leaves out.
    Float,
}

/// What the name of these characters is.
#[tactic(auto, unfolding(crate::specs::Word::word_at))]
pub fn word_of(chars: &[char]) -> Word
    ensures { result ≡ spec.word_at chars.now }
{
    match chars.len() {
        2 => two(chars),
        3 => three(chars),
        4 => four(chars),
        5 => five(chars),
        6 => six(chars),
        7 => seven(chars),
        8 => eight(chars),
        10 => ten(chars),
        _ => Word::Name,
    }
}

fn two(chars: &[char]) -> Word
    requires { length chars.now ≡ 2 }
    ensures { result ≡ spec.two chars.now }
{
    match chars {
        ['i', 'f'] => Word::Keyword(Keyword::If),
        ['i', 's'] => Word::Keyword(Keyword::Is),
        ['i', 'n'] => Word::Keyword(Keyword::In),
        ['a', 's'] => Word::Keyword(Keyword::As),
        ['o', 'r'] => Word::Keyword(Keyword::Or),
        ['P', 'I'] => Word::Float,
        _ => Word::Name,
    }
}

fn three(chars: &[char]) -> Word
    requires { length chars.now ≡ 3 }
    ensures { result ≡ spec.three chars.now }
{
    match chars {
        ['f', 'o', 'r'] => Word::Keyword(Keyword::For),
        ['v', 'a', 'r'] => Word::Keyword(Keyword::Var),
        ['a', 'n', 'd'] => Word::Keyword(Keyword::And),
        ['n', 'o', 't'] => Word::Keyword(Keyword::Not),
        ['T', 'A', 'U'] => Word::Float,
        ['I', 'N', 'F'] => Word::Float,
        ['N', 'A', 'N'] => Word::Float,
        _ => Word::Name,
    }
}

fn four(chars: &[char]) -> Word
    requires { length chars.now ≡ 4 }
    ensures { result ≡ spec.four chars.now }
{
    match chars {
        ['e', 'l', 'i', 'f'] => Word::Keyword(Keyword::Elif),
        ['e', 'l', 's', 'e'] => Word::Keyword(Keyword::Else),
        ['w', 'h', 'e', 'n'] => Word::Keyword(Keyword::When),
        ['p', 'a', 's', 's'] => Word::Keyword(Keyword::Pass),
        ['s', 'e', 'l', 'f'] => Word::Keyword(Keyword::SelfValue),
        ['f', 'u', 'n', 'c'] => Word::Keyword(Keyword::Func),
        ['e', 'n', 'u', 'm'] => Word::Keyword(Keyword::Enum),
        ['v', 'o', 'i', 'd'] => Word::Keyword(Keyword::Void),
        ['t', 'r', 'u', 'e'] => Word::Keyword(Keyword::True),
        ['n', 'u', 'l', 'l'] => Word::Keyword(Keyword::Null),
        _ => Word::Name,
    }
}

fn five(chars: &[char]) -> Word
    requires { length chars.now ≡ 5 }
    ensures { result ≡ spec.five chars.now }
{
    match chars {
        ['w', 'h', 'i', 'l', 'e'] => Word::Keyword(Keyword::While),
        ['m', 'a', 't', 'c', 'h'] => Word::Keyword(Keyword::Match),
        ['b', 'r', 'e', 'a', 'k'] => Word::Keyword(Keyword::Break),
        ['c', 'l', 'a', 's', 's'] => Word::Keyword(Keyword::Class),
        ['s', 'u', 'p', 'e', 'r'] => Word::Keyword(Keyword::Super),
        ['c', 'o', 'n', 's', 't'] => Word::Keyword(Keyword::Const),
        ['a', 'w', 'a', 'i', 't'] => Word::Keyword(Keyword::Await),
        ['y', 'i', 'e', 'l', 'd'] => Word::Keyword(Keyword::Yield),
        ['f', 'a', 'l', 's', 'e'] => Word::Keyword(Keyword::False),
        _ => Word::Name,
    }
}

fn six(chars: &[char]) -> Word
    requires { length chars.now ≡ 6 }
    ensures { result ≡ spec.six chars.now }
{
    match chars {
        ['r', 'e', 't', 'u', 'r', 'n'] => Word::Keyword(Keyword::Return),
        ['s', 'i', 'g', 'n', 'a', 'l'] => Word::Keyword(Keyword::Signal),
        ['s', 't', 'a', 't', 'i', 'c'] => Word::Keyword(Keyword::Static),
        ['a', 's', 's', 'e', 'r', 't'] => Word::Keyword(Keyword::Assert),
        _ => Word::Name,
    }
}

fn seven(chars: &[char]) -> Word
    requires { length chars.now ≡ 7 }
    ensures { result ≡ spec.seven chars.now }
{
    match chars {
        ['e', 'x', 't', 'e', 'n', 'd', 's'] => Word::Keyword(Keyword::Extends),
        ['p', 'r', 'e', 'l', 'o', 'a', 'd'] => Word::Keyword(Keyword::Preload),
        _ => Word::Name,
    }
}

fn eight(chars: &[char]) -> Word
    requires { length chars.now ≡ 8 }
    ensures { result ≡ spec.eight chars.now }
{
    match chars {
        ['c', 'o', 'n', 't', 'i', 'n', 'u', 'e'] => Word::Keyword(Keyword::Continue),
        _ => Word::Name,
    }
}

fn ten(chars: &[char]) -> Word
    requires { length chars.now ≡ 10 }
    ensures { result ≡ spec.ten chars.now }
{
    match chars {
        ['c', 'l', 'a', 's', 's', '_', 'n', 'a', 'm', 'e'] => Word::Keyword(Keyword::ClassName),
        ['b', 'r', 'e', 'a', 'k', 'p', 'o', 'i', 'n', 't'] => Word::Keyword(Keyword::Breakpoint),
        _ => Word::Name,
    }
}
