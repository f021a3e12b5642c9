//! The path of a file of a project.
ghost use Rattle.std.specs.Prelude.{◌≡◌, ◌↔◌, Some, IfOk, OnOk, IsErrOf, IsTrue, nat_eq};
ghost use Rattle.std.specs.Cmp.{partial_equiv_from_equiv};
ghost use Rattle.std.specs.Cmp.Lexicographic.{nat_list_cmp_total, nat_list_eq_equiv, pointwise, slice_cmp, texts_po, texts_ties};
ghost use Rattle.std.specs.Ordering.{nat_cmp};
ghost use Rattle.std.proofs.Common.{rules};
ghost use Rattle.gd_outside.specs.Path.{IsPath, is_segment};
ghost use Rattle.gd_outside.specs.declared.path.PathFault.TheVariants.{Bad, NoMemory};

use std::alloc::{AllocError, Global};
use std::cmp::Ordering;
use std::marker::Model;
use thiserror::Error;

/// Why a text gave no path.
#[derive(Clone, Copy, Debug, PartialEq, Eq, Error)]
pub enum PathFault {
    /// The text is empty, is longer than 1,024 bytes, or has a part between slashes that is empty, `.` or `..`.
    #[error("this is no path of a file")]
    Bad,
    /// No memory was left.
    #[error("out of memory")]
    NoMemory,
}

impl From<AllocError> for PathFault {
    ghost from_gives = { λ _ e. e ≡ NoMemory };

    fn from(_: AllocError) -> PathFault {
        PathFault::NoMemory
    }
}

/// The path of a file, relative to the folder of the project, with `/` between its parts.
#[derive(Debug, Drop)]
pub struct Path {
    text: String,
}

impl Model for Path {
    ghost use Rattle.std.specs.Prelude.{ℕ, List};
    ghost use Rattle.std.specs.Coded.{coded_list, coded_ℕ};
    ghost use Rattle.std.specs.String.{string_bytes};
    ghost use Rattle.gd_outside.specs.Path.{IsPath};

    ghost Value = { List ℕ };

    ghost coded = { coded_list coded_ℕ };

    ghost view = { λ path. string_bytes path.text };

    ghost invariant = { λ path. IsPath (string_bytes path.text) };
}

impl Path {
    /// The path with this text. `Bad` where the text is no path, else `NoMemory` where there is no room for it.
    pub fn new(alloc: Global, text: &str) -> Result<Path, PathFault>
        ensures path { IfOk result (λ path. path ≡ text.now) }
        ensures good { OnOk result (IsPath text.now) }
        ensures bad { IsErrOf result Bad → ¬ IsPath text.now }
        ensures no_memory { IsErrOf result NoMemory → IsPath text.now }
    {
        if !is_path(text) {
            return Err(PathFault::Bad);
        }
        Ok(Path {
            text: String::from_str(alloc, text)?,
        })
    }

    /// The bytes of the path.
    pub fn bytes(&self) -> &[u8]
        ensures value { result.now ≡ self.now }
        ensures path { IsPath self.now }
    {
        self.text.as_bytes()
    }

    /// The path as a text.
    pub fn text(&self) -> &str
        ensures value { result.now ≡ self.now }
        ensures path { IsPath self.now }
    {
        self.text.as_str()
    }
}

impl Clone for Path {
    ghost is_clone = { λ path copy. copy ≡ path };

    fn clone(&self) -> Result<Path, AllocError> {
        Ok(Path {
            text: self.text.clone()?,
        })
    }
}

// Paths compare by their bytes.
impl PartialEq for Path {
    ghost eq = { pointwise nat_eq };

    ghost laws = { partial_equiv_from_equiv nat_list_eq_equiv };

    fn eq(&self, other: &Path) -> bool {
        self.text() == other.text()
    }
}

impl Eq for Path {
    ghost laws = { nat_list_eq_equiv };
}

impl PartialOrd for Path {
    ghost partial_cmp = { λ x y. Some (slice_cmp nat_cmp x y) };

    ghost laws = { texts_po };

    fn partial_cmp(&self, other: &Path) -> Option<Ordering> {
        Some(self.cmp(other))
    }
}

impl Ord for Path {
    ghost cmp = { slice_cmp nat_cmp };

    ghost total = { nat_list_cmp_total };

    ghost matches_partial_cmp = { Prim.search rules };

    ghost matches_eq = { texts_ties };

    fn cmp(&self, other: &Path) -> Ordering {
        self.text().cmp(other.text())
    }
}

// Whether a file or a folder may have this name.
fn is_segment(part: &str) -> bool
    ensures { result ≡ is_segment part.now }
{
    !part.is_empty() && part != "." && part != ".."
}

// Whether this text is a path.
fn is_path(text: &str) -> bool
    ensures { IsTrue result ↔ IsPath text.now }
{
    text.len() <= 1024 && text.split('/').all(|part| is_segment(part))
}
