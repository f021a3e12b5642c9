//! Trees of tests as plain data.

use gd_syntax::Seq;

/// A part of what a `match` looks at.
#[derive(Clone, Copy, Debug, PartialEq, Eq, Hash)]
pub enum Subject {
    /// The subject of the `match`.
    Whole,
    /// The element at a place of an earlier subject.
    Element(u32, u32),
    /// The value for a key of an earlier subject.
    ValueAt(u32, u32),
}

/// A test, or what follows from tests. The first number is a subject, but of `Guard` and `Take` a branch; the last two
/// are the nodes for yes and for no. Keys, expression patterns and bindings are numbered each for themselves, through
/// all branches in order of place. Of keys that are equal literals the first stands for all.
#[derive(Clone, Copy, Debug, PartialEq, Eq)]
pub enum TestNode {
    /// Whether it is an array (0) or a dictionary (1).
    Kind(u32, u8, u32, u32),
    /// Whether it has this size, or where the flag says so at least this size.
    Size(u32, u32, bool, u32, u32),
    /// Whether it has the key with this number.
    HasKey(u32, u32, u32, u32),
    /// Whether it matches the expression pattern with this number.
    Equals(u32, u32, u32, u32),
    /// It is bound to the binding with this number; the last number is the node that follows.
    Bind(u32, u32, u32),
    /// Whether the guard of the branch is true.
    Guard(u32, u32, u32),
    /// The branch is taken.
    Take(u32),
    /// No branch is taken.
    Fail,
}

/// The number of `Kind` for an array.
pub const ARRAY: u8 = 0;

/// The number of `Kind` for a dictionary.
pub const DICTIONARY: u8 = 1;

/// The tests of a `match`, which begin at the first node. Every node that a node names stands later in the list.
#[derive(Drop)]
pub struct TestTree {
    pub subjects: Seq<Subject>,
    pub nodes: Seq<TestNode>,
}
