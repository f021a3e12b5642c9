//! Small token lists, written by hand: the token with number k, from 1, stands at column k of line 1.
use gd_grammar::{SyntaxFault, parse};
use gd_rules::Rule;
use gd_syntax::{
    Decl, DeclKind, Expr, ExprKind, Keyword, Mark, Operator, Pos, Script, Text, Token, TokenKind,
};
use std::alloc::{AllocFailed, Global};
use std::test::Fail;

fn tokens(alloc: Global, kinds: Vec<TokenKind>) -> Result<Vec<Token>, AllocFailed<Token>> {
    let mut found = Vec::new(alloc);
    let mut column = 0u32;
    for kind in kinds {
        column = column.saturating_add(1);
        let pos = Pos {
            file: 0,
            line: 1,
            column,
        };
        found.push(Token { pos, kind })?;
    }
    Ok(found)
}

/// `var x = VALUE`, a line end and the file's end.
fn variable(alloc: Global, value: Vec<TokenKind>) -> Result<Vec<Token>, Fail> {
    let name = Text::of(vec![in alloc; 'x']?)?;
    let mut kinds = vec![in alloc;
        TokenKind::Keyword(Keyword::Var),
        TokenKind::Word(name),
        TokenKind::Mark(Mark::Equal),
    ]?;
    for kind in value {
        kinds.push(kind)?;
    }
    kinds.push(TokenKind::Newline)?;
    kinds.push(TokenKind::End)?;
    Ok(tokens(alloc, kinds)?)
}

/// The tree of these tokens, or the column and the rule of their fault.
fn outcome(alloc: Global, tokens: &[Token]) -> Result<Script, (u32, Rule)> {
    if tokens.is_empty() {
        return Err((0, Rule::Syntax));
    }
    match parse(alloc, tokens) {
        Ok(script) => Ok(script),
        Err(SyntaxFault::Fault(pos, rule)) => Err((pos.column, rule)),
        Err(SyntaxFault::NoMemory) => Err((0, Rule::Syntax)),
    }
}

/// The initial value of the one variable of a script.
fn initial(script: &Script) -> Option<&Expr> {
    match script.members.as_slice() {
        [
            Decl {
                kind: DeclKind::Var(declared),
                ..
            },
        ] => declared.value.as_ref(),
        _ => None,
    }
}

/// The base and the exponent of a power.
fn power(expr: &Expr) -> Option<(&Expr, &Expr)> {
    match &expr.kind {
        ExprKind::Binary(Operator::Power, base, exponent) => Some((base.get(), exponent.get())),
        _ => None,
    }
}

/// The operand of a negation.
fn negated(expr: &Expr) -> Option<&Expr> {
    match &expr.kind {
        ExprKind::Unary(Operator::Negate, operand) => Some(operand.get()),
        _ => None,
    }
}

fn is_int(expr: &Expr, wanted: i64) -> bool {
    match &expr.kind {
        ExprKind::Int(value) => *value == wanted,
        _ => false,
    }
}

#[test]
fn a_power_groups_to_the_left(rt: HostRuntime) -> Result<(), Fail> {
    let value = vec![in rt.alloc();
        TokenKind::Number(2),
        TokenKind::Mark(Mark::StarStar),
        TokenKind::Number(3),
        TokenKind::Mark(Mark::StarStar),
        TokenKind::Number(2),
    ]?;
    let tokens = variable(rt.alloc(), value)?;
    let script = outcome(rt.alloc(), tokens.as_slice())
        .ok()
        .ok_or("refused")?;
    let whole = initial(&script).ok_or("no value")?;
    let (base, exponent) = power(whole).ok_or("no power")?;
    let (first, second) = power(base).ok_or("no power inside")?;
    assert!(rt; is_int(first, 2) && is_int(second, 3) && is_int(exponent, 2));
    assert_eq!(rt; whole.pos.column, 7);
    assert_eq!(rt; script.initial_tokens, 5);
    Ok(())
}

#[test]
fn a_sign_takes_a_whole_power(rt: HostRuntime) -> Result<(), Fail> {
    let value = vec![in rt.alloc();
        TokenKind::Mark(Mark::Minus),
        TokenKind::Number(2),
        TokenKind::Mark(Mark::StarStar),
        TokenKind::Number(2),
    ]?;
    let tokens = variable(rt.alloc(), value)?;
    let script = outcome(rt.alloc(), tokens.as_slice())
        .ok()
        .ok_or("refused")?;
    let whole = initial(&script).ok_or("no value")?;
    let operand = negated(whole).ok_or("no negation")?;
    let (base, exponent) = power(operand).ok_or("no power")?;
    assert!(rt; is_int(base, 2) && is_int(exponent, 2));
    Ok(())
}

#[test]
fn a_fault_stands_at_the_first_token_that_no_script_goes_on_with(
    rt: HostRuntime,
) -> Result<(), Fail> {
    let name = Text::of(vec![in rt.alloc(); 'f']?)?;
    let kinds = vec![in rt.alloc();
        TokenKind::Keyword(Keyword::Func),
        TokenKind::Word(name),
        TokenKind::Mark(Mark::LeftParen),
        TokenKind::Mark(Mark::Colon),
        TokenKind::Newline,
        TokenKind::End,
    ]?;
    let tokens = tokens(rt.alloc(), kinds)?;
    let fault = outcome(rt.alloc(), tokens.as_slice()).err();
    assert_eq!(rt; fault, Some((4, Rule::Syntax)));
    Ok(())
}

#[test]
fn a_form_that_is_left_out_has_a_rule_of_its_own(rt: HostRuntime) -> Result<(), Fail> {
    let value = vec![in rt.alloc();
        TokenKind::Number(1),
        TokenKind::Mark(Mark::Plus),
        TokenKind::Keyword(Keyword::Await),
    ]?;
    let tokens = variable(rt.alloc(), value)?;
    let fault = outcome(rt.alloc(), tokens.as_slice()).err();
    assert_eq!(rt; fault, Some((6, Rule::FormLeftOut)));
    Ok(())
}
