use gd_syntax::{Text, TextFault};
use gd_text::{
    Arg, FormatFault, concat, decimal, find, format, is_valid_int, left, repeat, replace, right,
    split, strip, substr, to_int,
};
use std::alloc::Global;
use std::test::Fail;

fn text(alloc: Global, s: &str) -> Result<Text, TextFault> {
    Text::from_utf8(alloc, s.as_bytes())
}

fn is(alloc: Global, made: Result<Text, TextFault>, wanted: &str) -> bool {
    match (made, text(alloc, wanted)) {
        (Ok(a), Ok(b)) => a == b,
        _ => false,
    }
}

#[test]
fn cuts_and_joins(rt: HostRuntime) -> Result<(), Fail> {
    let alloc = rt.alloc();
    let a = text(alloc, "ab ab")?;
    let (b, x, c) = (text(alloc, "b")?, text(alloc, "x")?, text(alloc, "c")?);
    assert!(rt; is(alloc, substr(alloc, &a, 1, 2), "b "));
    assert!(rt; is(alloc, substr(alloc, &a, 7, -1), ""));
    assert!(rt; matches!(substr(alloc, &a, -1, 2), Err(TextFault::OutOfRange)));
    assert!(rt; is(alloc, replace(alloc, &a, &b, &x), "ax ax"));
    assert!(rt; is(alloc, repeat(alloc, &a, 2), "ab abab ab"));
    assert!(rt; matches!(repeat(alloc, &a, -1), Err(TextFault::OutOfRange)));
    assert!(rt; matches!(repeat(alloc, &a, i64::MAX), Err(TextFault::TooLong)));
    assert!(rt; is(alloc, strip(alloc, &text(alloc, " \tab ab\n")?), "ab ab"));
    assert!(rt; is(alloc, left(alloc, &a, 2), "ab"));
    assert!(rt; is(alloc, left(alloc, &a, -4), "a"));
    assert!(rt; is(alloc, right(alloc, &a, -3), "ab"));
    assert!(rt; is(alloc, concat(alloc, &a, &c), "ab abc"));
    assert!(rt; is(alloc, decimal(alloc, -5), "-5"));
    Ok(())
}

#[test]
fn finds(rt: HostRuntime) -> Result<(), Fail> {
    let alloc = rt.alloc();
    let a = text(alloc, "ab ab")?;
    assert_eq!(rt; find(&a, &text(alloc, "")?, 0), None);
    assert_eq!(rt; find(&a, &text(alloc, "b")?, 2), Some(4));
    assert_eq!(rt; find(&a, &text(alloc, "b")?, -1), None);
    let aaa = text(alloc, "aaa")?;
    let aa = text(alloc, "aa")?;
    assert!(rt; is(alloc, replace(alloc, &aaa, &aa, &text(alloc, "b")?), "ba"));
    Ok(())
}

/// A text, what it is split by, whether empty parts count, and the parts.
const SPLITS: &[(&str, &str, bool, &[&str])] = &[
    ("ab ab", " ", true, &["ab", "ab"]),
    ("ab", "", true, &["a", "b"]),
    ("", "", true, &[]),
    (",a,,", ",", true, &["", "a", "", ""]),
    (",a,,", ",", false, &["a"]),
];

fn are(alloc: Global, parts: &[Text], wanted: &[&str]) -> Result<bool, TextFault> {
    if parts.len() != wanted.len() {
        return Ok(false);
    }
    for i in 0..parts.len() {
        if !(parts[i] == text(alloc, wanted[i])?) {
            return Ok(false);
        }
    }
    Ok(true)
}

#[test]
fn splits(rt: HostRuntime) -> Result<(), Fail> {
    let alloc = rt.alloc();
    for (a, by, empty, wanted) in SPLITS {
        let parts = split(alloc, &text(alloc, a)?, &text(alloc, by)?, *empty)?;
        assert!(rt; are(alloc, parts.as_slice(), wanted)?, "{a}");
    }
    Ok(())
}

#[test]
fn numbers(rt: HostRuntime) -> Result<(), Fail> {
    let alloc = rt.alloc();
    for (s, valid, value) in [
        ("12", true, 12),
        ("-7", true, -7),
        ("+", false, 0),
        ("1-2", false, 12),
        ("--3", false, 3),
        ("-0x5.9", false, -5),
        ("18446744073709551617", true, 1),
        ("a", false, 0),
    ] {
        let a = text(alloc, s)?;
        assert_eq!(rt; is_valid_int(&a), valid, "{s}");
        assert_eq!(rt; to_int(&a), value, "{s}");
    }
    Ok(())
}

fn gives(alloc: Global, pattern: &str, args: &[Arg], wanted: &str) -> bool {
    match text(alloc, pattern) {
        Ok(pattern) => match (format(alloc, &pattern, args), text(alloc, wanted)) {
            (Ok(a), Ok(b)) => a == b,
            _ => false,
        },
        Err(_) => false,
    }
}

fn is_bad(alloc: Global, pattern: &str, args: &[Arg]) -> bool {
    match text(alloc, pattern) {
        Ok(pattern) => matches!(format(alloc, &pattern, args), Err(FormatFault::BadFormat)),
        Err(_) => false,
    }
}

#[test]
fn arguments_go_in_order(rt: HostRuntime) -> Result<(), Fail> {
    let alloc = rt.alloc();
    let args = [Arg::Num(-42), Arg::Str(text(alloc, "ab")?), Arg::Num(7)];
    assert!(rt; gives(alloc, "%05d|%-4s|%+d", &args, "-0042|ab  |+7"));
    assert!(rt; gives(alloc, "100%%", &[], "100%"));
    Ok(())
}

#[test]
fn ints_in_patterns(rt: HostRuntime) -> Result<(), Fail> {
    let alloc = rt.alloc();
    for (pattern, n, wanted) in [
        ("%x%%", 255, "ff%"),
        ("%X", -255, "-FF"),
        ("%o", 8, "10"),
        ("%x", i64::MIN, "-8000000000000000"),
        ("%-05d|", 7, "7    |"),
        ("%+05d", 7, "+0007"),
        ("%05x", -255, "-00ff"),
        ("%5s", 7, "    7"),
        ("%+05s", 7, "    7"),
        ("%-3c|", 65, "A  |"),
        ("%c", 0, "\0"),
        ("%s", 0, "0"),
    ] {
        assert!(rt; gives(alloc, pattern, &[Arg::Num(n)], wanted), "{pattern}");
    }
    Ok(())
}

#[test]
fn bad_patterns(rt: HostRuntime) -> Result<(), Fail> {
    let alloc = rt.alloc();
    for (pattern, n) in [
        ("%c", -1),
        ("%c", 0xD800),
        ("%", 1),
        ("%q", 1),
        ("%--d", 1),
        ("%1000d", 1),
        ("%5-d", 1),
        ("no conversion", 1),
        ("%d%d", 1),
    ] {
        assert!(rt; is_bad(alloc, pattern, &[Arg::Num(n)]), "{pattern}");
    }
    Ok(())
}

#[test]
fn kinds_that_a_letter_does_not_take(rt: HostRuntime) -> Result<(), Fail> {
    let alloc = rt.alloc();
    assert!(rt; is_bad(alloc, "%c", &[Arg::Str(text(alloc, "ab")?)]));
    assert!(rt; is_bad(alloc, "%d", &[Arg::Other(text(alloc, "true")?)]));
    assert!(rt; gives(alloc, "%6s", &[Arg::Other(text(alloc, "true")?)], "  true"));
    Ok(())
}
