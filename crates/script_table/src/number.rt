//! Numbers of things of a project.
ghost use Rattle.std.specs.Prelude.{◌≡◌, IfOk};

use gd_model::impossible;
use no_memory::NoMemory;

/// The number of things as a `u32`. A project has fewer than 2^32 of anything.
pub fn number(count: usize) -> Result<u32, NoMemory>
    ensures { IfOk result (λ n. n ≡ count) }
{
    match u32::try_from(count) {
        Ok(number) => Ok(number),
        Err(_) => Err(impossible().into()),
    }
}
