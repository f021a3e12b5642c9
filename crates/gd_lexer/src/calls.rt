//! The calls of the lexer.
ghost use Rattle.std.specs.Prelude.{◌≡◌, ◌+◌, ◌*◌, ◌≤◌, length, map, take, IfOk, IfErr};
ghost use Rattle.gd_lexis.specs.Lexes.{Lexes};
ghost use Rattle.gd_lexis.specs.Lexemes.{AreComments};
ghost use Rattle.gd_lexer.specs.Found.{AreWhole};
ghost use Rattle.gd_lexer.specs.Noted.{extent_of, AreFileNotes};
ghost use Rattle.gd_lexer.specs.Spelled.{tokens_of, bytes_of, comments_of, AreSpelled};
ghost use Rattle.gd_lexer.specs.LexFaults.{IsLexicalFault, IsFirstFault, AnswersStop};

use crate::fault::LexFault;
use crate::found::{Span, Whole};
use crate::lexer::Lexer;
use crate::spelled::{Comment, Lexeme, Lexemes};
use crate::stop::{Fault, Stop};
use gd_syntax::{Seq, Token};
use no_memory::NoMemory;
use std::alloc::Global;

/// The tokens of the file with this number, of these at most 1,048,576 bytes.
///
/// `Fault` has the first lexical fault of the file.
pub fn lex(alloc: Global, file: u32, bytes: &[u8]) -> Result<Vec<Token>, LexFault>
    requires { length bytes.now ≤ 1_048_576 }
    // The places rise, the file is this one, and the last token is the only End.
    ensures whole { IfOk result (λ v. AreWhole file v.items) }
    ensures count { IfOk result (λ v. length v.items ≤ 4 * length bytes.now + 1) }
    // The tokens are exactly those of the definition.
    ensures tokens { IfOk result (λ v. Lexes file bytes.now v.items) }
    // A fault is exactly the first of the definition.
    ensures first { IfErr result (IsFirstFault file bytes.now) }
    // It has a rule from L01 to L12.
    ensures fault { IfErr result IsLexicalFault }
{
    let whole = read(alloc, file, bytes)?;
    let Whole { tokens, .. } = whole;
    Ok(tokens)
}

/// The tokens of a file of at most 1,048,576 bytes with their bytes, for the file number 0, and its comments.
///
/// `Fault` comes as from `lex`.
pub fn lexemes(alloc: Global, bytes: &[u8]) -> Result<Lexemes, LexFault>
    requires { length bytes.now ≤ 1_048_576 }
    ensures tokens { IfOk result (λ l. Lexes 0 bytes.now (tokens_of l.tokens)) }
    // Each token has its own bytes, and the comments are exactly those of the file, in order.
    ensures spelled { IfOk result (λ l. AreSpelled 0 bytes.now l.tokens) }
    ensures comments { IfOk result (λ l. AreComments bytes.now (comments_of l.comments)) }
    ensures first { IfErr result (IsFirstFault 0 bytes.now) }
    ensures fault { IfErr result IsLexicalFault }
{
    let whole = read(alloc, 0, bytes)?;
    let Whole {
        tokens,
        spans,
        comments,
    } = whole;
    match listed(alloc, tokens, spans.as_slice(), comments.as_slice()) {
        Ok(lexemes) => Ok(lexemes),
        Err(_) => Err(LexFault::NoMemory),
    }
}

/// What a whole file has.
fn read(alloc: Global, file: u32, bytes: &[u8]) -> Result<Whole, LexFault>
    requires { length bytes.now ≤ 1_048_576 }
    ensures whole { IfOk result (λ w. AreWhole file w.tokens.items) }
    ensures count { IfOk result (λ w. length w.tokens.items ≤ 4 * length bytes.now + 1) }
    ensures tokens { IfOk result (λ w. Lexes file bytes.now w.tokens.items) }
    ensures spanned { IfOk result (λ w. length w.tokens.items ≤ length w.spans.items) }
    ensures noted { IfOk result (AreFileNotes file bytes.now) }
    ensures first { IfErr result (IsFirstFault file bytes.now) }
    ensures fault { IfErr result IsLexicalFault }
{
    match Lexer::new(alloc, file, bytes).run() {
        Ok(whole) => Ok(whole),
        Err(stop) => Err(answer(stop)),
    }
}

/// The answer where reading stopped.
fn answer(stop: Stop) -> LexFault
    ensures lexical { IsLexicalFault result }
    ensures first { AnswersStop stop result }
{
    match stop {
        Stop::Fault(fault) => fault_answer(fault),
        Stop::NoMemory => LexFault::NoMemory,
    }
}

fn fault_answer(fault: Fault) -> LexFault
    ensures lexical { IsLexicalFault result }
    ensures first { AnswersStop (Stop.Fault fault) result }
{
    LexFault::Fault(fault.pos, fault.rule)
}

fn listed(
    alloc: Global,
    tokens: Vec<Token>,
    spans: &[Span],
    comments: &[Span],
) -> Result<Lexemes, NoMemory>
    requires { length tokens.items ≤ length spans.now }
    ensures tokens { IfOk result (λ l. tokens_of l.tokens ≡ tokens.items) }
    ensures bytes { IfOk result (λ l. map bytes_of l.tokens ≡ map extent_of (take (length tokens.items) spans.now)) }
    ensures comments { IfOk result (λ l. comments_of l.comments ≡ map extent_of comments.now) }
{
    Ok(Lexemes {
        tokens: Seq::of(joined(alloc, tokens, spans)?),
        comments: Seq::of(comment_list(alloc, comments)?),
    })
}

fn joined(alloc: Global, tokens: Vec<Token>, spans: &[Span]) -> Result<Vec<Lexeme>, NoMemory>
    requires { length tokens.items ≤ length spans.now }
    ensures tokens { IfOk result (λ v. tokens_of v.items ≡ tokens.items) }
    ensures bytes { IfOk result (λ v. map bytes_of v.items ≡ map extent_of (take (length tokens.items) spans.now)) }
{
    let mut lexemes = Vec::with_capacity(alloc, tokens.len())?;
    for token in tokens {
        let Span { start, end } = spans[lexemes.len()];
        lexemes.push(Lexeme { token, start, end })?;
    }
    Ok(lexemes)
}

fn comment_list(alloc: Global, spans: &[Span]) -> Result<Vec<Comment>, NoMemory>
    ensures { IfOk result (λ v. comments_of v.items ≡ map extent_of spans.now) }
{
    let mut comments = Vec::with_capacity(alloc, spans.len())?;
    for span in spans {
        let Span { start, end } = *span;
        comments.push(Comment { start, end })?;
    }
    Ok(comments)
}
