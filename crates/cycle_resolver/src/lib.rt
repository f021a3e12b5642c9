//! The order in which items are inferred, and the items that no order serves since they lead to a cycle of needs.
#![tactic(auto)]

mod found;
mod resolve;
#[cfg(test)]
mod tests;
mod unfold;
mod walk;

pub use found::Order;
pub use gd_members::{Item, MemberId};
pub use resolve::order;
pub use unfold::{Unfold, Visit};
