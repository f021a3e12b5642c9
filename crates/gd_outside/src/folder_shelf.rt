//! A shelf over the current folder of the real system.
ghost use Rattle.std.specs.Prelude.{◌≡◌, ◌+◌, ◌≤◌, None, IfOk};
ghost use Rattle.std.specs.Vec.{vec_len};
ghost use Rattle.gd_outside.specs.Cause.{HasCause};
ghost use Rattle.gd_outside.specs.Files.{IsRising};
ghost use Rattle.gd_outside.specs.FolderShelf.{shelf_faults};
ghost use Rattle.gd_outside.specs.declared.shelf.FailedCall.TheVariants.{Nothing};
ghost use Rattle.gd_outside.specs.declared.shelf.ShelfFault.TheVariants.{Failed};

use crate::folder_walk::list_files;
use crate::path::Path;
use crate::shelf::{Shelf, ShelfFault};
use std::alloc::Global;
use std::fs;
use std::io::Read;
use std::rt::Files;

/// The files of the current folder, with the folders below it.
///
/// `list` gives the regular files whose names end in `.gd` or `.out`. It goes into no folder whose name begins with a
/// dot, and follows no link. It fails at an entry whose name is not UTF-8, at a file or a folder whose path is longer
/// than 1,024 bytes, at a folder of the 33rd level, and at more than 1,048,576 entries.
///
/// `read` reads any regular file below the current folder. It follows no link either.
#[derive(Drop)]
pub struct FolderShelf<R> {
    system: R,
    faults: u64,
}

impl<R> FolderShelf<R> {
    /// The shelf over this system's current folder.
    pub fn new(system: R) -> FolderShelf<R>
        ensures { shelf_faults result ≡ 0 }
    {
        FolderShelf { system, faults: 0 }
    }
}

impl<R: Files + Alloc + Clone + Drop> Shelf for FolderShelf<R> {
    ghost files = { λ _. None };

    ghost faults = { shelf_faults };

    ghost failed = { λ _. Nothing };

    fn list(&mut self, alloc: Global) -> Result<Vec<Path>, ShelfFault> {
        counted(&mut self.faults, list_files(&self.system, alloc))
    }

    fn read(&mut self, alloc: Global, path: &Path, most: u32) -> Result<Vec<u8>, ShelfFault> {
        counted(&mut self.faults, read_file(&self.system, alloc, path, most))
    }
}

// Counts the answer where it is a failure.
fn counted<T>(faults: &mut u64, answer: Result<T, ShelfFault>) -> Result<T, ShelfFault>
    ensures value { result ≡ answer }
    ensures cause { HasCause faults.old faults.new result Failed }
{
    if matches!(&answer, Err(ShelfFault::Failed)) {
        *faults = faults.saturating_add(1);
    }
    answer
}

// The first `most` + 1 bytes of the file, or all of them.
fn read_file<R: Files>(
    system: &R,
    alloc: Global,
    path: &Path,
    most: u32,
) -> Result<Vec<u8>, ShelfFault>
    ensures { IfOk result (λ bytes. vec_len bytes ≤ most + 1) }
{
    refuse_links(system, path)?;
    let limit = most as usize + 1;
    let mut bytes = Vec::new(alloc);
    fs::open(system, path.text())?
        .take(limit as u64)
        .read_to_end(&mut bytes)?;
    bytes.truncate(limit);
    Ok(bytes)
}

// Fails where the path leads through a link, or to anything but a regular file.
fn refuse_links<R: Files>(system: &R, path: &Path) -> Result<(), ShelfFault> {
    let text = path.text();
    for (end, _) in text.match_indices('/') {
        if !fs::symlink_metadata(system, &text[..end])?.is_dir() {
            return Err(ShelfFault::Failed);
        }
    }
    if fs::symlink_metadata(system, text)?.is_file() {
        Ok(())
    } else {
        Err(ShelfFault::Failed)
    }
}
