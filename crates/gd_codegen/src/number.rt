//! Numbers of parts of a program.
ghost use Rattle.std.specs.Prelude.{◌≡◌, IfOk};

use gd_model::impossible;
use no_memory::NoMemory;

/// A number of things as a `u32`. No project has 2^32 of anything.
pub fn number(count: usize) -> Result<u32, NoMemory>
    ensures { IfOk result (λ n. n ≡ count) }
{
    match u32::try_from(count) {
        Ok(number) => Ok(number),
        Err(_) => Err(impossible().into()),
    }
}
