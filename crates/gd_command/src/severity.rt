//! How much a diagnostic weighs.
ghost use Rattle.std.specs.Prelude.{◌≡◌};
ghost use Rattle.std.specs.List.{list_any};
ghost use Rattle.gd_command.specs.Report as spec;

use gd_rules::{Diag, Rule};

/// The weight of a diagnostic: only errors make a project faulty.
#[derive(Clone, Copy, Debug, PartialEq, Eq)]
pub enum Severity {
    Error,
    Warning,
}

impl Severity {
    /// The weight of what this rule reports.
    pub fn of(rule: Rule) -> Severity
        ensures { result ≡ spec.severity_of rule }
    {
        match rule {
            Rule::UnsafePropertyAccess
            | Rule::UnsafeMethodAccess
            | Rule::UnsafeCast
            | Rule::UnsafeCallArgument
            | Rule::IntegerDivision => Severity::Warning,
            _ => Severity::Error,
        }
    }

    /// Whether it makes a project faulty.
    pub fn is_error(self) -> bool
        ensures { result ≡ spec.is_heavy self }
    {
        matches!(self, Severity::Error)
    }

    /// The word for it in a line.
    pub fn word(self) -> &'static str
        ensures { result.now ≡ spec.severity_word self }
    {
        match self {
            Severity::Error => "error",
            Severity::Warning => "warning",
        }
    }
}

/// Whether one of them is an error.
pub fn has_error(diags: &[Diag]) -> bool
    ensures { result ≡ list_any spec.is_error diags.now }
{
    diags.iter().any(|diag| Severity::of(diag.rule).is_error())
}
