//! Small tests of one field.
ghost use Rattle.std.specs.Prelude.{◌≡◌};
ghost use Rattle.gd_bytecode.specs.First as spec;

use crate::Field;

/// No fault where the condition holds, and else the field.
pub fn unless(holds: bool, field: Field) -> Option<Field>
    ensures { result ≡ spec.unless holds field }
{
    if holds { None } else { Some(field) }
}

/// No fault where the number names one of so many entries.
pub fn within(number: u32, size: usize, field: Field) -> Option<Field>
    ensures { result ≡ spec.within number size field }
{
    unless((number as usize) < size, field)
}
