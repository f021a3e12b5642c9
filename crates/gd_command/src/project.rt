//! The scripts of a project among its files.
ghost use Rattle.std.specs.Prelude.{◌≡◌, filter, nat_eq, codes};
ghost use Rattle.std.specs.List.{ends_with};

use gd_outside::Path;

/// The most bytes that a script has.
pub const MAX_SOURCE: u32 = 1_048_576;

/// Leaves the paths of scripts alone.
pub fn keep_scripts(paths: &mut Vec<Path>)
    ensures { paths.new.items ≡ filter (λ path. ends_with nat_eq path (codes ".gd")) paths.old.items }
{
    paths.retain(is_script);
}

/// Whether the name of the file ends in `.gd`.
fn is_script(path: &Path) -> bool
    ensures { result ≡ ends_with nat_eq path.now (codes ".gd") }
{
    path.bytes().ends_with(b".gd")
}
