//! Finds the files of a project in the folders of the real system.
ghost use Rattle.std.specs.Prelude.{◌≡◌, IfOk};
ghost use Rattle.gd_outside.specs.Files.{IsRising};

use crate::path::{Path, PathFault};
use crate::shelf::ShelfFault;
use std::alloc::{Allocator, Global};
use std::fs;
use std::fs::DirEntry;
use std::rt::Files;

// A project has no deeper folders than this.
const MOST_LEVELS: u32 = 32;

// A list meets no more entries of folders than this.
const MOST_ENTRIES: u32 = 1_048_576;

// A folder to look into.
#[derive(Drop)]
struct Folder {
    // `None` for the current folder
    path: Option<Path>,
    // how many folders lie above it
    level: u32,
}

// What a walk has found so far.
#[derive(Drop)]
struct Walk {
    alloc: Global,
    files: Vec<Path>,
    // folders that it has met and not yet looked into
    folders: Vec<Folder>,
    // how many entries it has met
    entries: u32,
}

/// The paths of the files of the current folder, by rising bytes.
pub fn list_files<R: Files + Alloc + Clone + Drop>(
    system: &R,
    alloc: Global,
) -> Result<Vec<Path>, ShelfFault>
    ensures { IfOk result (λ paths. IsRising paths.items) }
{
    let mut walk = Walk::new(alloc)?;
    // Turns for the current folder, for a folder at each entry, and for the end.
    for _ in 0..MOST_ENTRIES + 2 {
        match walk.folders.pop() {
            Some(folder) => walk.visit(system, &folder)?,
            None => return in_order(walk.files),
        }
    }
    Err(ShelfFault::Failed)
}

// Sorts the paths.
fn in_order(paths: Vec<Path>) -> Result<Vec<Path>, ShelfFault>
    ensures { IfOk result (λ paths. IsRising paths.items) }
{
    let mut paths = paths;
    paths.sort()?;
    paths.dedup();
    Ok(paths)
}

impl Walk {
    // A walk that begins at the current folder.
    fn new(alloc: Global) -> Result<Walk, ShelfFault> {
        let mut folders = Vec::new(alloc);
        folders.push(Folder {
            path: None,
            level: 0,
        })?;
        Ok(Walk {
            alloc,
            files: Vec::new(alloc),
            folders,
            entries: 0,
        })
    }

    // Looks at each entry of a folder.
    fn visit<R: Files + Alloc + Clone + Drop>(
        &mut self,
        system: &R,
        folder: &Folder,
    ) -> Result<(), ShelfFault> {
        let place = match &folder.path {
            Some(path) => path.text(),
            None => ".",
        };
        for entry in fs::read_dir(system, place)? {
            self.meet(folder, &entry?)?;
        }
        Ok(())
    }

    // Notes an entry of a folder.
    fn meet<R: Files, A: Allocator>(
        &mut self,
        folder: &Folder,
        entry: &DirEntry<R, A>,
    ) -> Result<(), ShelfFault> {
        if self.entries >= MOST_ENTRIES {
            return Err(ShelfFault::Failed);
        }
        self.entries += 1;
        let name = entry.file_name();
        let kind = entry.file_type()?;
        if kind.is_file() && is_listed(name) {
            let path = self.path_of(folder, name)?;
            self.files.push(path)?;
        } else if kind.is_dir() && !name.starts_with('.') {
            self.meet_folder(folder, name)?;
        }
        Ok(())
    }

    // Notes a folder in a folder.
    fn meet_folder(&mut self, above: &Folder, name: &str) -> Result<(), ShelfFault> {
        if above.level >= MOST_LEVELS {
            return Err(ShelfFault::Failed);
        }
        let path = self.path_of(above, name)?;
        self.folders.push(Folder {
            path: Some(path),
            level: above.level + 1,
        })?;
        Ok(())
    }

    // The path of an entry.
    fn path_of(&self, folder: &Folder, name: &str) -> Result<Path, ShelfFault> {
        let Some(above) = &folder.path else {
            return to_path(self.alloc, name);
        };
        let mut text = String::from_str(self.alloc, above.text())?;
        text.push('/')?;
        text.push_str(name)?;
        to_path(self.alloc, text.as_str())
    }
}

// The path with this text. It fails where the text is too long.
fn to_path(alloc: Global, text: &str) -> Result<Path, ShelfFault> {
    match Path::new(alloc, text) {
        Ok(path) => Ok(path),
        Err(PathFault::Bad) => Err(ShelfFault::Failed),
        Err(PathFault::NoMemory) => Err(ShelfFault::NoMemory),
    }
}

// Whether a file with this name is one of a project.
fn is_listed(name: &str) -> bool {
    name.ends_with(".gd") || name.ends_with(".out")
}
