//! The bases of classes.
ghost use Rattle.std.specs.Prelude.{◌≡◌, ℕ, List};
ghost use Rattle.assignability.specs.Assign.{is_among};

/// Which classes are bases of which.
///
/// `bases` are those of a class: itself, its base, that one's base, and so on.
pub trait Bases {
    ghost bases: { Self → ℕ → List ℕ };

    /// Whether `base` is among the bases of `class`.
    fn is_base(&self, class: u32, base: u32) -> bool
        ensures { result ≡ is_among (bases self.now class) base };
}
