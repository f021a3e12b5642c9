//! The classes of a project, their members and bases, and what names in them stand for (docs/language.md, "Names and
//! bases").
#![tactic(auto)]

mod analysis;
mod builtins;
mod class_order;
mod faults;
mod listing;
mod members;
mod names;
mod number;
mod paths;
mod preloads;
mod rounds;
mod table;

pub use gd_members::{Found, MemberId};
pub use table::{ClassName, Table, build};
