//! Which tokens are which part of a script, and which tree that part is.
//!
//! The definitions stand in specs/: a case for each production of the grammar (docs/language.md, "Grammar").
#![tactic(auto)]
