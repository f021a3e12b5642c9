//! Stopping at a fault.
ghost use Rattle.std.specs.Prelude.{◌≡◌, ◌≤◌, IsTrue};
ghost use Rattle.gd_lexer.specs.Lexical.{is_lexical};
ghost use Rattle.gd_lexer.specs.Stops.{StandsAt};

use crate::stop::{Stop, fault_at};
use gd_rules::Rule;
use gd_syntax::Pos;

/// Stops at this place by this rule.
pub fn stop_at(pos: Pos, rule: Rule) -> Stop
    requires lexical { IsTrue (is_lexical rule) }
    requires line { 1 ≤ pos.line }
    requires column { 1 ≤ pos.column }
    ensures { StandsAt pos rule result }
{
    Stop::Fault(fault_at(pos, rule))
}
