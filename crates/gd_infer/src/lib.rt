//! The type and the meaning of each expression of a project (docs/language.md, "Types").
//!
//! First the types of items are found, each on demand of those that need it, and with them what each needs and the values of
//! constants (`finding`). The order of items then says which lead to a cycle of needs (`inferring`). With the types of all
//! items known every body is walked once (`classes`, `statement`, `expression`).
#![tactic(auto)]

mod call;
mod classes;
mod constancy;
mod constant;
mod constants;
mod evaluation;
mod expression;
mod finding;
mod fixing;
mod inference;
mod inferring;
mod items;
mod keys;
mod known;
mod making;
mod name;
mod needs;
mod patterns;
mod places;
mod scope;
mod seen;
mod site;
mod statement;
mod thing_order;
mod typed;

pub use gd_members::{Found, Item, MemberId};
pub use inferring::Inferring;
pub use typed::{Typed, infer};
