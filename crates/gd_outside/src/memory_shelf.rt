//! A shelf whose files lie in memory, and which fails where it is told to.
ghost use Rattle.std.specs.Prelude.{◌≡◌, ◌==◌, ◌↔◌, ◌≤◌, ◌+◌, ◌||◌, Some, map, take, min, IfOk, IfSome, OnSome, IsErrOf, IsTrue, is_none, length, nat_eq, bytes_eq, slice_get};
ghost use Rattle.std.specs.Vec.{vec_len};
ghost use Rattle.std.specs.List.Sorted.{IsPermutation};
ghost use Rattle.gd_outside.specs.Cause.{HasCause, next_count};
ghost use Rattle.gd_outside.specs.Files.{IsRising, Reads, bytes_at, paths_of, place_of};
ghost use Rattle.gd_outside.specs.MemoryShelf.{AreDistinct, after_call, files_of, next_fails};
ghost use Rattle.gd_outside.specs.Shelf.{failed_after};
ghost use Rattle.gd_outside.specs.declared.shelf.FailedCall.TheVariants.{List as Listing, Nothing, Read};
ghost use Rattle.gd_outside.specs.declared.shelf.ShelfFault.TheVariants.{Failed};

use crate::path::Path;
use crate::shelf::{FailedCall, Shelf, ShelfFault};
use no_memory::NoMemory;
use std::alloc::{AllocError, Global};
use std::marker::Model;

/// A shelf whose files lie in memory. It fails at the calls whose numbers it was given, and at each read of a path that
/// is not there.
#[derive(Debug, Drop)]
pub struct MemoryShelf {
    files: Vec<(Path, Vec<u8>)>,
    fails: Vec<u64>,
    calls: u64,
    faults: u64,
    failed: FailedCall,
}

impl Model for MemoryShelf {
    ghost use Rattle.gd_outside.specs.Files.{IsRising, paths_of};
    ghost use Rattle.gd_outside.specs.MemoryShelf.{ShelfState, files_of};

    ghost Value = { ShelfState };

    ghost view = { λ shelf. record { files = files_of shelf.files.items; fails = shelf.fails.items; calls = shelf.calls; faults = shelf.faults; failed = shelf.failed } };

    ghost invariant = { λ shelf. IsRising (paths_of (files_of shelf.files.items)) };
}

impl MemoryShelf {
    /// A shelf with these files, no two of which have the same path. It fails at the calls with the numbers in `fails`;
    /// the first call, of `list` or `read`, is number 1.
    pub fn new(
        _alloc: Global,
        files: Vec<(Path, Vec<u8>)>,
        fails: Vec<u64>,
    ) -> Result<MemoryShelf, NoMemory>
        requires { AreDistinct (files_of files.items) }
        ensures files { IfOk result (λ shelf. IsPermutation (files_of files.items) shelf.files) }
        ensures rising { IfOk result (λ shelf. IsRising (paths_of shelf.files)) }
        ensures fails { IfOk result (λ shelf. shelf.fails ≡ fails.items) }
        ensures calls { IfOk result (λ shelf. shelf.calls ≡ 0) }
        ensures faults { IfOk result (λ shelf. shelf.faults ≡ 0) }
        ensures failed { IfOk result (λ shelf. shelf.failed ≡ Nothing) }
    {
        let mut files = files;
        files.sort_by(|a, b| a.0.cmp(&b.0))?;
        Ok(MemoryShelf {
            files,
            fails,
            calls: 0,
            faults: 0,
            failed: FailedCall::Nothing,
        })
    }
}

/// Whether no two of these files have the same path, as a `MemoryShelf` needs.
pub fn are_distinct(files: &[(Path, Vec<u8>)]) -> bool
    ensures { IsTrue result ↔ AreDistinct (files_of files.now) }
{
    let mut from = files.len();
    while from > 0 {
        let path = &files[from - 1].0;
        let later = &files[from..];
        if place_in(later, path) < later.len() {
            return false;
        }
        from -= 1;
    }
    true
}

impl Shelf for MemoryShelf {
    ghost files = { λ shelf. Some shelf.files };

    ghost faults = { λ shelf. shelf.faults };

    ghost failed = { λ shelf. shelf.failed };

    /// `Failed` exactly at a call with a listed number.
    fn list(&mut self, alloc: Global) -> Result<Vec<Path>, ShelfFault>
        ensures files { self.new.files ≡ self.old.files }
        ensures rising { IfOk result (λ paths. IsRising paths.items) }
        ensures all { IfOk result (λ paths. paths.items ≡ paths_of self.old.files) }
        ensures cause { HasCause self.old.faults self.new.faults result Failed }
        ensures failed { self.new.failed ≡ failed_after result self.old.failed Listing }
        ensures fails { IsErrOf result Failed ↔ IsTrue (next_fails self.old) }
        ensures after { self.new ≡ after_call self.old result Listing }
    {
        if self.begin_call() {
            return Err(self.fail(FailedCall::List));
        }
        Ok(copy_paths(alloc, &self.files)?)
    }

    /// `Failed` exactly at a call with a listed number, and where no file has this path.
    fn read(&mut self, alloc: Global, path: &Path, most: u32) -> Result<Vec<u8>, ShelfFault>
        ensures files { self.new.files ≡ self.old.files }
        ensures bound { IfOk result (λ bytes. vec_len bytes ≤ most + 1) }
        ensures bytes { IfOk result (λ bytes. Reads self.old.files path.now most bytes.items) }
        ensures cause { HasCause self.old.faults self.new.faults result Failed }
        ensures failed { self.new.failed ≡ failed_after result self.old.failed (Read (place_of self.old.files path.now)) }
        ensures fails { IsErrOf result Failed ↔ IsTrue (next_fails self.old || is_none (bytes_at self.old.files path.now)) }
        ensures after { self.new ≡ after_call self.old result (Read (place_of self.old.files path.now)) }
    {
        let fails = self.begin_call();
        let place = place_in(&self.files, path);
        if fails || place == self.files.len() {
            return Err(self.fail(FailedCall::Read(place as u64)));
        }
        Ok(first_bytes(alloc, &self.files[place].1, most)?)
    }
}

impl MemoryShelf {
    // Counts a call, and says whether it has a listed number.
    fn begin_call(&mut self) -> bool
        ensures value { result ≡ next_fails self.old }
        ensures after { self.new ≡ record self.old { calls = next_count self.old.calls } }
    {
        self.calls = self.calls.saturating_add(1);
        self.fails.contains(&self.calls)
    }

    // Counts a failure, which is that of this call.
    fn fail(&mut self, call: FailedCall) -> ShelfFault
        ensures value { result ≡ Failed }
        ensures after { self.new ≡ record self.old { faults = next_count self.old.faults; failed = call } }
        ensures later { self.old.faults ≤ self.new.faults }
    {
        self.faults = self.faults.saturating_add(1);
        self.failed = call;
        ShelfFault::Failed
    }
}

// The place of the file with this path, or the number of the files.
fn place_in(files: &[(Path, Vec<u8>)], path: &Path) -> usize
    ensures value { result ≡ place_of (files_of files.now) path.now }
    ensures bound { result ≤ length files.now }
    ensures missing { is_none (bytes_at (files_of files.now) path.now) ≡ (result == length files.now) }
    ensures found { (file : _) → slice_get files.now result ≡ Some file → bytes_at (files_of files.now) path.now ≡ Some file.1.items }
{
    let place = files.iter().position(|file| file.0 == *path);
    place.unwrap_or(files.len())
}

fn copy_paths(alloc: Global, files: &[(Path, Vec<u8>)]) -> Result<Vec<Path>, AllocError>
    ensures { IfOk result (λ paths. paths.items ≡ paths_of (files_of files.now)) }
{
    let mut paths = Vec::with_capacity(alloc, files.len())?;
    for file in files {
        paths.push(file.0.clone()?)?;
    }
    Ok(paths)
}

fn first_bytes(alloc: Global, bytes: &[u8], most: u32) -> Result<Vec<u8>, AllocError>
    ensures bytes { IfOk result (λ found. found.items ≡ take (most + 1) bytes.now) }
    ensures bound { IfOk result (λ found. vec_len found ≤ most + 1) }
{
    let count = bytes.len().min(most as usize + 1);
    bytes[..count].to_vec(alloc)
}
