use crate::Rule;
use gd_syntax::Pos;

/// A place at which a rule holds.
#[derive(Clone, Copy, Debug, PartialEq, Eq)]
pub struct Diag {
    pub pos: Pos,
    pub rule: Rule,
}

/// A place at which a value may be of another type than the code expects.
#[derive(Clone, Copy, Debug, PartialEq, Eq)]
pub struct Mark {
    pub pos: Pos,
}
