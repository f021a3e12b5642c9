//! Tests of the public calls.
use gd_lexer::{Comment, LexFault, Lexeme, lex, lexemes};
use gd_rules::Rule;
use gd_syntax::{Token, TokenKind};
use no_memory::NoMemory;
use std::alloc::Global;
use std::test::Fail;

/// A source, and the line, the column and the rule of its first fault.
type Row = (&'static [u8], u32, u32, Rule);

/// The line, the column and the rule of the first fault.
fn fault_of(alloc: Global, bytes: &[u8]) -> Result<Option<(u32, u32, Rule)>, NoMemory> {
    if bytes.len() > 1_048_576 {
        return Err(NoMemory);
    }
    match lex(alloc, 3, bytes) {
        Ok(_) => Ok(None),
        Err(LexFault::Fault(pos, rule)) => Ok(Some((pos.line, pos.column, rule))),
        Err(LexFault::NoMemory) => Err(NoMemory),
    }
}

/// Whether each source has that first fault.
fn all_fault(alloc: Global, rows: &[Row]) -> Result<bool, NoMemory> {
    let mut all = true;
    for (bytes, line, column, rule) in rows {
        all = all && fault_of(alloc, bytes)? == Some((*line, *column, *rule));
    }
    Ok(all)
}

const CHARACTERS: [Row; 9] = [
    (b"var x = \xff1\n", 1, 9, Rule::NotUtf8),
    (b"# \xf0\x9f\x98 x\n", 1, 3, Rule::NotUtf8),
    (b"var s = \"\xed\xa0\x80\"\n", 1, 10, Rule::NotUtf8),
    (b"var x = 1 ? 2\n", 1, 11, Rule::StrayCharacter),
    (b"# old\rvar b\n", 1, 6, Rule::StrayCharacter),
    (b"var x = 1 \\", 1, 11, Rule::StrayCharacter),
    (
        b"\xef\xbb\xbf\xef\xbb\xbfvar x\n",
        1,
        1,
        Rule::StrayCharacter,
    ),
    (b"var x = \xc2\xa01\n", 1, 9, Rule::StrayCharacter),
    (b"var a\r\n\r\nvar b = 1.5\r\n", 3, 9, Rule::Float),
];

const LINES: [Row; 7] = [
    (
        b"func test():\n\tpass\n  pass ?\n",
        3,
        1,
        Rule::MixedIndentation,
    ),
    (b"\t \\\n ? x\n", 1, 2, Rule::MixedIndentation),
    (b"\t ? # x\n", 1, 3, Rule::StrayCharacter),
    (b"f:\n\t\tpass\n\tPI\n", 3, 2, Rule::UnmatchedDedent),
    (
        b"f:\n  if:\n      pass\n    x\n",
        4,
        5,
        Rule::UnmatchedDedent,
    ),
    (b"x = [\n\t1.5,\n  2]\n", 2, 2, Rule::Float),
    (
        b"))[[[[[[[[[[[[[[[[[[[[[[[[[[[[[[[[[",
        1,
        35,
        Rule::BracketsTooDeep,
    ),
];

const STRINGS: [Row; 9] = [
    (b"x = \"\\q", 1, 5, Rule::UnterminatedString),
    (b"x = r\"abc\\\"", 1, 5, Rule::UnterminatedString),
    (b"x = \"\"\"a\n\"\"", 1, 5, Rule::UnterminatedString),
    (b"x = \"ab\\q\" + '\\w'", 1, 8, Rule::BadEscape),
    (b"x = \"\\uD83D\\uD83D\\uDE00\"", 1, 6, Rule::BadEscape),
    (b"x = \"\\uD83D\\uDE00\\uDE00\"", 1, 18, Rule::BadEscape),
    (b"x = \"\\U110000\"", 1, 6, Rule::BadEscape),
    (b"x = \"\\u12\"", 1, 6, Rule::BadEscape),
    (b"x = \"\\\n\\\r\n\\n\" + 1.5", 3, 7, Rule::Float),
];

const NUMBERS: [Row; 9] = [
    (b"x = ...5", 1, 7, Rule::Float),
    (b"x = 2E-3", 1, 5, Rule::Float),
    (b"x = 99999999999999999999.5", 1, 5, Rule::Float),
    (b"x = 99999999999999999999a", 1, 5, Rule::IntegerTooLarge),
    (b"x = 0x8000000000000000", 1, 5, Rule::IntegerTooLarge),
    (b"x = 1e+x", 1, 5, Rule::BadNumber),
    (b"x = 0x_1", 1, 5, Rule::BadNumber),
    (b"x = 1__0", 1, 5, Rule::BadNumber),
    (b"x = 0b102", 1, 5, Rule::BadNumber),
];

#[test]
fn faults_of_characters(rt: HostRuntime) -> Result<(), Fail> {
    assert!(rt; all_fault(rt.alloc(), &CHARACTERS)?);
    Ok(())
}

#[test]
fn faults_of_lines(rt: HostRuntime) -> Result<(), Fail> {
    assert!(rt; all_fault(rt.alloc(), &LINES)?);
    Ok(())
}

#[test]
fn faults_of_strings(rt: HostRuntime) -> Result<(), Fail> {
    assert!(rt; all_fault(rt.alloc(), &STRINGS)?);
    Ok(())
}

#[test]
fn faults_of_numbers(rt: HostRuntime) -> Result<(), Fail> {
    assert!(rt; all_fault(rt.alloc(), &NUMBERS)?);
    Ok(())
}

/// A sum of so many ones behind a first token, in lines inside brackets or not.
fn sum(alloc: Global, head: &[u8], ones: u32) -> Result<Vec<u8>, NoMemory> {
    let mut bytes = Vec::from_slice(alloc, head)?;
    for _ in 0..ones {
        bytes.extend_from_slice(b" 1 +")?;
    }
    Ok(bytes)
}

#[test]
fn an_item_has_a_hundred_tokens(rt: HostRuntime) -> Result<(), Fail> {
    let full = sum(rt.alloc(), b"x =", 50)?;
    assert_eq!(rt; fault_of(rt.alloc(), full.as_slice())?, None);
    let long = sum(rt.alloc(), b"x", 50)?;
    let fault = fault_of(rt.alloc(), long.as_slice())?;
    assert_eq!(rt; fault, Some((1, 201, Rule::ItemTooLong)));
    Ok(())
}

/// So many lines, each a tab deeper than the one before.
fn stairs(alloc: Global, lines: usize) -> Result<Vec<u8>, NoMemory> {
    let mut bytes = Vec::new(alloc);
    let mut tabs = Vec::new(alloc);
    for _ in 0..lines {
        bytes.extend_from_slice(tabs.as_slice())?;
        bytes.extend_from_slice(b"if x:\n")?;
        tabs.push(b'\t')?;
    }
    Ok(bytes)
}

#[test]
fn thirty_two_blocks_may_be_open(rt: HostRuntime) -> Result<(), Fail> {
    let full = stairs(rt.alloc(), 33)?;
    assert_eq!(rt; fault_of(rt.alloc(), full.as_slice())?, None);
    let deep = stairs(rt.alloc(), 34)?;
    let fault = fault_of(rt.alloc(), deep.as_slice())?;
    assert_eq!(rt; fault, Some((34, 34, Rule::BlocksTooDeep)));
    Ok(())
}

/// A letter for a kind, and the number, or the length of the text.
fn letter(kind: &TokenKind) -> (char, i64) {
    match kind {
        TokenKind::Word(text) => ('w', i64::from(text.length())),
        TokenKind::Keyword(_) => ('k', 0),
        TokenKind::Number(value) => ('n', *value),
        TokenKind::Quoted(text) => ('q', i64::from(text.length())),
        TokenKind::Mark(_) => ('m', 0),
        TokenKind::Newline => ('N', 0),
        TokenKind::Indent => ('I', 0),
        TokenKind::Dedent => ('D', 0),
        TokenKind::End => ('E', 0),
    }
}

/// The line and the column of a token, and its letter.
fn seen(token: &Token) -> (u32, u32, char, i64) {
    let (letter, value) = letter(&token.kind);
    (token.pos.line, token.pos.column, letter, value)
}

/// Whether the tokens of a source are these.
fn lexes(alloc: Global, bytes: &[u8], want: &[(u32, u32, char, i64)]) -> Result<bool, NoMemory> {
    if bytes.len() > 1_048_576 {
        return Err(NoMemory);
    }
    match lex(alloc, 0, bytes) {
        Ok(tokens) => Ok(
            tokens.len() == want.len()
                && tokens
                    .iter()
                    .zip(want)
                    .all(|(token, row)| seen(token) == *row),
        ),
        Err(_) => Ok(false),
    }
}

#[test]
fn blocks_and_lines(rt: HostRuntime) -> Result<(), Fail> {
    let source = b"if x:\n\t\tpass # end\n\n y\\\n()";
    assert!(rt; !lexes(rt.alloc(), source, &[])?);
    let source = b"if x:\r\n\t\tpass # end\n\ny\\\n(\n)";
    assert!(rt;
        lexes(
            rt.alloc(),
            source,
            &[
                (1, 1, 'k', 0),
                (1, 4, 'w', 1),
                (1, 5, 'm', 0),
                (1, 7, 'N', 0),
                (2, 3, 'I', 0),
                (2, 3, 'k', 0),
                (2, 13, 'N', 0),
                (4, 1, 'D', 0),
                (4, 1, 'w', 1),
                (5, 1, 'm', 0),
                (6, 1, 'm', 0),
                (6, 2, 'N', 0),
                (6, 2, 'E', 0),
            ]
        )?
    );
    Ok(())
}

#[test]
fn values_of_tokens(rt: HostRuntime) -> Result<(), Fail> {
    let source =
        b"0xFF_f 0b101 1_000 9223372036854775807 \"\\uD83D\\uDE00\\\n\r\n\" r'\\q' _x1 <<= ..";
    assert!(rt;
        lexes(
            rt.alloc(),
            source,
            &[
                (1, 1, 'n', 4095),
                (1, 8, 'n', 5),
                (1, 14, 'n', 1000),
                (1, 20, 'n', 9223372036854775807),
                (1, 40, 'q', 2),
                (3, 3, 'q', 2),
                (3, 9, 'w', 3),
                (3, 13, 'm', 0),
                (3, 17, 'm', 0),
                (3, 19, 'N', 0),
                (3, 19, 'E', 0),
            ]
        )?
    );
    Ok(())
}

fn span(lexeme: &Lexeme) -> (u32, u32) {
    (lexeme.start, lexeme.end)
}

#[test]
fn lexemes_have_their_bytes(rt: HostRuntime) -> Result<(), Fail> {
    let found = match lexemes(rt.alloc(), b"\xef\xbb\xbfa # \xc3\xa9\n") {
        Ok(found) => found,
        Err(_) => return Ok(()),
    };
    let want = [(3, 4), (9, 10), (10, 10)];
    assert_eq!(rt; found.tokens.items().len(), 3);
    assert!(rt;
        found
            .tokens
            .items()
            .iter()
            .zip(&want)
            .all(|(lexeme, row)| span(lexeme) == *row)
    );
    let comment = Comment { start: 5, end: 9 };
    assert!(rt; found.comments.items().first().copied() == Some(comment));
    let fault = lexemes(rt.alloc(), b"1.5").err();
    assert!(rt; matches!(fault, Some(LexFault::Fault(_, Rule::Float))));
    Ok(())
}
