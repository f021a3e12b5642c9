//! What the rules say of an operation.

use gd_model::Ty;
use gd_rules::Rule;

/// What holds at an operation, beside its type.
#[derive(Clone, Copy, Debug, PartialEq, Eq)]
pub struct Finding {
    /// The error rule that is broken.
    pub rule: Option<Rule>,
    /// The warning that holds: one of W1 to W5.
    pub warning: Option<Rule>,
    /// Whether a value may be of another type there than the code expects.
    pub is_marked: bool,
}

impl Finding {
    ghost use Rattle.std.specs.Prelude.{◌≡◌, true};
    ghost use Rattle.gd_typing.specs.Verdicts as spec;

    /// Nothing holds.
    pub fn none() -> Finding
        ensures { result ≡ spec.nothing }
    {
        Finding {
            rule: None,
            warning: None,
            is_marked: false,
        }
    }

    /// An error rule is broken.
    pub fn broken(rule: Rule) -> Finding
        ensures { result ≡ spec.breach rule }
    {
        Finding {
            rule: Some(rule),
            warning: None,
            is_marked: false,
        }
    }

    /// A value may be of another type than the code expects.
    pub fn marked() -> Finding
        ensures { result ≡ spec.mark_if true }
    {
        Finding::marked_if(true)
    }

    /// A mark stands there where this is so.
    pub fn marked_if(is_marked: bool) -> Finding
        ensures { result ≡ spec.mark_if is_marked }
    {
        Finding {
            rule: None,
            warning: None,
            is_marked,
        }
    }

    /// One of W1 to W4 holds, at which a mark stands too.
    pub fn warned(warning: Rule) -> Finding
        ensures { result ≡ spec.unsafe warning }
    {
        Finding {
            rule: None,
            warning: Some(warning),
            is_marked: true,
        }
    }
}

/// The type of an operation, and what holds there. Where a part of it is Bad it is Bad, and nothing holds.
#[derive(Drop)]
pub struct Verdict {
    pub ty: Ty,
    pub finding: Finding,
}

impl Verdict {
    ghost use Rattle.std.specs.Prelude.{◌≡◌};
    ghost use Rattle.gd_typing.specs.Verdicts as spec;

    /// A type at which nothing holds.
    pub fn fine(ty: Ty) -> Verdict
        ensures { result ≡ spec.fine ty }
    {
        Verdict {
            ty,
            finding: Finding::none(),
        }
    }

    /// A part is Bad.
    pub fn bad() -> Verdict
        ensures { result ≡ spec.bad }
    {
        Verdict::fine(Ty::Bad)
    }

    /// A rule is broken that makes the operation Bad.
    pub fn broken(rule: Rule) -> Verdict
        ensures { result ≡ spec.broken rule }
    {
        Verdict {
            ty: Ty::Bad,
            finding: Finding::broken(rule),
        }
    }

    /// A Variant at which one of W1 to W4 holds.
    pub fn unsafe_variant(warning: Rule) -> Verdict
        ensures { result ≡ spec.unsafe_variant warning }
    {
        Verdict {
            ty: Ty::Variant,
            finding: Finding::warned(warning),
        }
    }
}
