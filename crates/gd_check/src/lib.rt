//! The rules of names, types and statements (docs/diagnostics.md): each place of a project at which one holds, and the places
//! that carry a mark.
//!
//! The types and the meaning of each expression come from `gd_infer`; what holds at one operation of parts of known types is
//! asked of `gd_typing`. Here each part of a project is looked at once, by a walk that makes the statements of a body and the
//! expressions inside an expression one list each.
#![tactic(auto)]

mod accepted;
mod accessors;
mod annotations;
mod assignments;
mod blocks;
mod bodies;
mod calls;
mod classes;
mod constants;
mod declarations;
mod expressions;
mod facts;
mod findings;
mod ignored;
mod judged;
mod match_patterns;
mod overrides;
mod patterns;
mod returns;
mod scene;
mod setting;
mod statements;
mod values;
mod variables;
mod words;

use crate::classes::examine_project;
pub use accepted::{Accepted, Refused, accept};
use gd_infer::Typed;
use gd_rules::{Diag, Mark};
use no_memory::NoMemory;
use std::alloc::Global;

/// The places of a project at which an error rule holds and, where `warn` is true, those at which a warning holds that is not
/// ignored: by file, line, column and code, each once.
pub fn diagnose(alloc: Global, typed: &Typed, warn: bool) -> Result<Vec<Diag>, NoMemory> {
    examine_project(alloc, typed)?.into_diags(alloc, warn)
}

/// The places of a project at which a value may be of another type than the code expects, in the same order, each once.
pub fn marks(alloc: Global, typed: &Typed) -> Result<Vec<Mark>, NoMemory> {
    examine_project(alloc, typed)?.into_marks(alloc)
}
