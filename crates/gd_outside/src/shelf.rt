//! Where the files of a project come from.
ghost use Rattle.std.specs.Prelude.{◌≡◌, ◌+◌, ◌≤◌, Option, List, ℕ, IfOk, IfSome, OnSome};
ghost use Rattle.std.specs.Vec.{vec_len};
ghost use Rattle.gd_outside.specs.Cause.{HasCause};
ghost use Rattle.gd_outside.specs.Files.{File, IsRising, paths_of, place_of, Reads};
ghost use Rattle.gd_outside.specs.Shelf.{failed_after};
ghost use Rattle.gd_outside.specs.declared.shelf.ShelfFault.TheVariants.{Failed, NoMemory};
ghost use Rattle.gd_outside.specs.declared.shelf.FailedCall.{FailedCall};
ghost use Rattle.gd_outside.specs.declared.shelf.FailedCall.TheVariants.{List as Listing, Read};

use crate::path::Path;
use std::alloc::{AllocError, AllocFailed, Global};
use std::io;
use std::io::ErrorKind;
use thiserror::Error;

/// Why a call of a shelf gave nothing.
#[derive(Clone, Copy, Debug, PartialEq, Eq, Error)]
pub enum ShelfFault {
    /// The files could not be listed, or the file could not be read or is not there.
    #[error("a list or a read of files failed")]
    Failed,
    /// No memory was left.
    #[error("out of memory")]
    NoMemory,
}

impl From<AllocError> for ShelfFault {
    ghost from_gives = { λ _ e. e ≡ NoMemory };

    fn from(_: AllocError) -> ShelfFault {
        ShelfFault::NoMemory
    }
}

impl<T: Drop> From<AllocFailed<T>> for ShelfFault {
    ghost from_gives = { λ _ e. e ≡ NoMemory };

    fn from(_: AllocFailed<T>) -> ShelfFault {
        ShelfFault::NoMemory
    }
}

impl From<io::Error> for ShelfFault {
    fn from(error: io::Error) -> ShelfFault {
        match error.kind() {
            ErrorKind::OutOfMemory => ShelfFault::NoMemory,
            _ => ShelfFault::Failed,
        }
    }
}

/// The call of a shelf that failed last.
#[derive(Clone, Copy, Debug, PartialEq, Eq)]
pub enum FailedCall {
    /// None has failed.
    Nothing,
    /// A `list`.
    List,
    /// A `read` of the path with this place in the list, from 0; the list's length stands for a path that is not there.
    Read(u64),
}

/// The files of a project, by their paths.
pub trait Shelf {
    /// The files that it holds, by the rising bytes of their paths, where it tells them. No call changes them.
    ghost files: { Self → Option (List File) };

    /// How often it has failed. It never falls, and its last value is 2 ^ 64 - 1.
    ghost faults: { Self → ℕ };

    /// The call that failed last, told where the files are.
    ghost failed: { Self → FailedCall };

    /// The paths of all files, by rising bytes. `Failed` where they could not be listed.
    fn list(&mut self, alloc: Global) -> Result<Vec<Path>, ShelfFault>
        ensures files { files self.new ≡ files self.old }
        ensures rising { IfOk result (λ paths. IsRising paths.items) }
        ensures all { IfSome (files self.old) (λ held. IfOk result (λ paths. paths.items ≡ paths_of held)) }
        ensures cause { HasCause (faults self.old) (faults self.new) result Failed }
        ensures failed { OnSome (files self.old) (failed self.new ≡ failed_after result (failed self.old) Listing) };

    /// The first `most` + 1 bytes of the file with this path, or all of them where they are fewer.
    /// `Failed` where there is no such file, or where it could not be read.
    fn read(&mut self, alloc: Global, path: &Path, most: u32) -> Result<Vec<u8>, ShelfFault>
        ensures files { files self.new ≡ files self.old }
        ensures bound { IfOk result (λ bytes. vec_len bytes ≤ most + 1) }
        ensures bytes { IfSome (files self.old) (λ held. IfOk result (λ bytes. Reads held path.now most bytes.items)) }
        ensures cause { HasCause (faults self.old) (faults self.new) result Failed }
        ensures failed { IfSome (files self.old) (λ held. failed self.new ≡ failed_after result (failed self.old) (Read (place_of held path.now))) };
}
