use crate::{FolderShelf, Path, Shelf, ShelfFault};
use std::fs;
use std::os::unix::fs::symlink;
use std::rt::Env;
use std::test::Fail;

// The test works in this folder, and removes it.
const FOLDER: &str = "folder_shelf_test";

// Makes the folder of a small project, with files, folders and links that are none of it, and goes into it.
fn make_project(rt: HostRuntime) -> Result<(), Fail> {
    if fs::exists(&rt, FOLDER)? {
        fs::remove_dir_all(&rt, FOLDER)?;
    }
    fs::create_dir(&rt, FOLDER)?;
    rt.set_current_dir(FOLDER)?;
    fs::create_dir_all(&rt, "a/.hidden")?;
    for path in [
        "b.gd",
        ".x.gd",
        "a/c.gd",
        "a/c.out",
        "a/note.txt",
        "a/.hidden/d.gd",
    ] {
        fs::write(&rt, path, path)?;
    }
    symlink(&rt, "b.gd", "link.gd")?;
    symlink(&rt, "a", "other")?;
    Ok(())
}

#[test]
fn a_folder_gives_the_files_of_a_project(rt: HostRuntime) -> Result<(), Fail> {
    let alloc = rt.alloc();
    make_project(rt)?;
    let mut shelf = FolderShelf::new(rt);
    let mut names = String::new(alloc);
    for path in &shelf.list(alloc)? {
        names.push_str(path.text())?;
        names.push(' ')?;
    }
    assert_eq!(rt; names.as_str(), ".x.gd a/c.gd a/c.out b.gd ");
    for (path, most, want) in [
        ("b.gd", 9, Some("b.gd")),
        ("a/note.txt", 3, Some("a/no")),
        ("link.gd", 9, None),
        ("other/c.gd", 9, None),
        ("a", 9, None),
        ("b.gd/c.gd", 9, None),
        ("c.gd", 9, None),
    ] {
        let found = match shelf.read(alloc, &Path::new(alloc, path)?, most) {
            Ok(bytes) => Some(String::from_utf8(bytes)?),
            Err(fault) => {
                assert_eq!(rt; fault, ShelfFault::Failed);
                None
            }
        };
        assert_eq!(rt; found.as_deref(), want, "at {path}");
    }
    let levels = "d/".repeat(alloc, 32)?;
    fs::create_dir_all(&rt, levels.as_str())?;
    assert!(rt; shelf.list(alloc).is_ok());
    fs::create_dir_all(&rt, "d/".repeat(alloc, 33)?.as_str())?;
    assert_eq!(rt; shelf.list(alloc).err(), Some(ShelfFault::Failed));
    rt.set_current_dir("..")?;
    fs::remove_dir_all(&rt, FOLDER)?;
    Ok(())
}
