use crate::text::SHORT;
use crate::{MAX_TEXT, Text, TextBuilder, TextFault};
use std::alloc::Global;
use std::mem::size_of;
use std::test::Fail;

#[test]
fn a_text_is_a_pointer(rt: HostRuntime) -> Result<(), Fail> {
    assert_eq!(rt; size_of::<Text>(), 8);
    assert_eq!(rt; size_of::<TextBuilder>(), 64);
    Ok(())
}

/// Texts of both forms, in and out of ASCII, with their lengths.
const SPELLED: &[(&str, u32)] = &[
    ("", 0),
    ("a", 1),
    ("twelve chars", 12),
    ("thirteen char", 13),
    ("größe", 5),
    ("€€€€€€€€€€€€€𝄞", 14),
];

#[test]
fn texts_are_what_their_bytes_spell(rt: HostRuntime) -> Result<(), Fail> {
    let alloc = rt.alloc();
    for (s, length) in SPELLED {
        let text = Text::from_utf8(alloc, s.as_bytes())?;
        let slice = Text::of_slice(alloc, text.chars())?;
        let list = Text::of(Vec::from_slice(alloc, text.chars())?)?;
        assert_eq!(rt; text.length(), *length, "{s}");
        assert!(rt; text.to_utf8(alloc)?.as_slice() == s.as_bytes(), "{s}");
        assert!(rt;
            slice == text && list == text && text.share()? == text,
            "{s}"
        );
    }
    assert!(rt; matches!(Text::from_utf8(alloc, &[255]), Err(TextFault::NotUtf8)));
    assert!(rt; Text::one(alloc, 'a')? == Text::from_utf8(alloc, b"a")?);
    assert_eq!(rt; Text::one(alloc, 'a')?.at(0), Some(97));
    Ok(())
}

#[test]
fn texts_are_put_together(rt: HostRuntime) -> Result<(), Fail> {
    let alloc = rt.alloc();
    let mut short = TextBuilder::new(alloc);
    short.push('a')?;
    short.append(&['b', 'c'])?;
    short.append_bytes(b"-1")?;
    short.fill(' ', 2)?;
    assert!(rt; short.finish()? == Text::from_utf8(alloc, b"abc-1  ")?);
    let mut long = TextBuilder::with_capacity(alloc, SHORT + 1)?;
    long.fill('a', SHORT + 1)?;
    assert!(rt; long.finish()? == Text::from_utf8(alloc, b"aaaaaaaaaaaaa")?);
    assert!(rt;
        matches!(
            TextBuilder::with_capacity(alloc, MAX_TEXT + 1),
            Err(TextFault::TooLong)
        )
    );
    Ok(())
}

#[test]
fn a_builder_refuses_what_passes_the_limit(rt: HostRuntime) -> Result<(), Fail> {
    let alloc = rt.alloc();
    let mut full = TextBuilder::new(alloc);
    full.fill('a', MAX_TEXT)?;
    assert!(rt; matches!(full.push('b'), Err(TextFault::TooLong)));
    assert!(rt; matches!(full.append(&['b']), Err(TextFault::TooLong)));
    assert!(rt; matches!(full.append_bytes(b"b"), Err(TextFault::TooLong)));
    assert!(rt; matches!(full.fill('b', 1), Err(TextFault::TooLong)));
    assert_eq!(rt; full.chars().len(), MAX_TEXT);
    Ok(())
}
