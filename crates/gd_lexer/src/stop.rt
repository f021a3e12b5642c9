//! Why reading stops.
ghost use Rattle.std.specs.Prelude.{◌≡◌, ◌≤◌, IsTrue};
ghost use Rattle.gd_lexer.specs.Lexical.{is_lexical};

use gd_rules::Rule;
use gd_syntax::Pos;
use no_memory::NoMemory;
use std::alloc::{AllocError, AllocFailed};

/// A lexical fault: where it stands, and the rule that is broken there.
#[derive(Clone, Copy, Debug, PartialEq, Eq, Drop)]
pub struct Fault {
    pub pos: Pos,
    pub rule: Rule,
    ghost lexical: { IsTrue (is_lexical rule) },
    ghost line: { 1 ≤ pos.line },
    ghost column: { 1 ≤ pos.column },
}

/// Why no more is read.
#[derive(Clone, Copy, Debug, PartialEq, Eq, Drop)]
pub enum Stop {
    Fault(Fault),
    NoMemory,
}

/// The fault against this rule at this place.
pub fn fault_at(pos: Pos, rule: Rule) -> Fault
    requires lexical { IsTrue (is_lexical rule) }
    requires line { 1 ≤ pos.line }
    requires column { 1 ≤ pos.column }
    ensures pos { result.pos ≡ pos }
    ensures rule { result.rule ≡ rule }
{
    Fault { pos, rule }
}

impl From<NoMemory> for Stop {
    ghost use Rattle.gd_lexer.specs.declared.stop.Stop.TheVariants.{NoMemory};

    ghost from_gives = { λ _ e. e ≡ NoMemory };

    fn from(_: NoMemory) -> Stop {
        Stop::NoMemory
    }
}

impl From<AllocError> for Stop {
    ghost use Rattle.gd_lexer.specs.declared.stop.Stop.TheVariants.{NoMemory};

    ghost from_gives = { λ _ e. e ≡ NoMemory };

    fn from(_: AllocError) -> Stop {
        Stop::NoMemory
    }
}

impl<T: Drop> From<AllocFailed<T>> for Stop {
    ghost use Rattle.gd_lexer.specs.declared.stop.Stop.TheVariants.{NoMemory};

    ghost from_gives = { λ _ e. e ≡ NoMemory };

    fn from(_: AllocFailed<T>) -> Stop {
        Stop::NoMemory
    }
}
