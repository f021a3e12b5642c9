//! The tests that find the branch of a `match` (docs/machine.md, "`match`").
//!
//! The patterns of a `match` become one tree of tests. Each part of the subject that a pattern looks at is a subject of
//! its own, and a test of its kind, its size or a key that two patterns in a row begin with is made once (`sharing`).
#![tactic(auto)]

mod alternatives;
mod layout;
mod number;
mod parts;
mod sharing;
mod tree;

pub use layout::tests;
pub use parts::{Parts, parts_of};
pub use tree::{Subject, TestNode, TestTree};
