use crate::{
    MemoryShelf, MemorySink, Path, PathFault, Shelf, ShelfFault, Sink, SinkFault, are_distinct,
};
use std::alloc::Global;
use std::test::Fail;

#[test]
fn paths_are_split_at_each_slash(rt: HostRuntime) -> Result<(), Fail> {
    let alloc = rt.alloc();
    for text in ["main.gd", "a/b/c.gd", ".x.gd", "...", "a b", ".a/..b"] {
        let path = Path::new(alloc, text)?;
        assert_eq!(rt; path.bytes(), text.as_bytes());
    }
    for text in [
        "", "/", ".", "..", "./a", "../a", "/a", "a/", "a//b", "a/../b", "a/.", "a/..",
    ] {
        assert_eq!(rt;
            Path::new(alloc, text).err(),
            Some(PathFault::Bad),
            "at {text}"
        );
    }
    let longest = "a/b/".repeat(alloc, 256)?;
    assert_eq!(rt;
        Path::new(alloc, longest.as_str()).err(),
        Some(PathFault::Bad)
    );
    assert!(rt; Path::new(alloc, &longest.as_str()[1..]).is_err());
    assert!(rt; Path::new(alloc, &longest.as_str()[..1023]).is_ok());
    Ok(())
}

// A shelf with three files, which fails at the calls with these numbers.
fn shelf(rt: HostRuntime, fails: &[u64]) -> Result<MemoryShelf, Fail> {
    let alloc = rt.alloc();
    let mut files = Vec::new(alloc);
    for (path, text) in [("b.gd", "extends A"), ("a/x.gd", "pass"), ("a.out", "")] {
        files.push((Path::new(alloc, path)?, text.as_bytes().to_vec(alloc)?))?;
    }
    if !are_distinct(&files) {
        return Err(Fail::new("two files have the same path"));
    }
    Ok(MemoryShelf::new(alloc, files, fails.to_vec(alloc)?)?)
}

// The bytes that a read gave, or `None` where it failed.
fn read<S: Shelf>(
    alloc: Global,
    shelf: &mut S,
    path: &str,
    most: u32,
) -> Result<Option<String>, Fail> {
    match shelf.read(alloc, &Path::new(alloc, path)?, most) {
        Ok(bytes) => Ok(Some(String::from_utf8(bytes)?)),
        Err(ShelfFault::Failed) => Ok(None),
        Err(fault) => Err(Fail::new(fault)),
    }
}

#[test]
fn a_shelf_in_memory_gives_its_files(rt: HostRuntime) -> Result<(), Fail> {
    let alloc = rt.alloc();
    let mut shelf = shelf(rt, &[])?;
    let mut names = String::new(alloc);
    for path in &shelf.list(alloc)? {
        names.push_str(path.text())?;
        names.push(' ')?;
    }
    assert_eq!(rt; names.as_str(), "a.out a/x.gd b.gd ");
    for (path, most, want) in [
        ("b.gd", 8, Some("extends A")),
        ("b.gd", 3, Some("exte")),
        ("b.gd", 0, Some("e")),
        ("a.out", 7, Some("")),
        ("a", 7, None),
        ("c.gd", 7, None),
    ] {
        let found = read(alloc, &mut shelf, path, most)?;
        assert_eq!(rt; found.as_deref(), want, "at {path}");
    }
    Ok(())
}

#[test]
fn a_shelf_fails_at_the_listed_calls(rt: HostRuntime) -> Result<(), Fail> {
    let alloc = rt.alloc();
    let mut shelf = shelf(rt, &[2, 3, 5])?;
    assert!(rt; shelf.list(alloc).is_ok());
    assert_eq!(rt; read(alloc, &mut shelf, "a.out", 9)?.is_some(), false);
    assert!(rt; shelf.list(alloc).is_err());
    assert_eq!(rt; read(alloc, &mut shelf, "a.out", 9)?.is_some(), true);
    assert_eq!(rt; read(alloc, &mut shelf, "a.out", 9)?.is_some(), false);
    assert!(rt; shelf.list(alloc).is_ok());
    Ok(())
}

#[test]
fn a_sink_in_memory_takes_what_fits(rt: HostRuntime) -> Result<(), Fail> {
    let mut sink = MemorySink::new(rt.alloc(), 5);
    for (piece, want, bytes) in [
        ("abc", None, "abc"),
        ("", None, "abc"),
        ("defg", Some(SinkFault::Failed), "abcde"),
        ("", None, "abcde"),
        ("h", Some(SinkFault::Failed), "abcde"),
    ] {
        assert_eq!(rt; sink.put(piece.as_bytes()).err(), want, "at {piece}");
        assert_eq!(rt; sink.bytes(), bytes.as_bytes());
    }
    Ok(())
}
