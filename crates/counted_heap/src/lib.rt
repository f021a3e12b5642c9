//! Things that count their holders, and their release in rounds.
#![tactic(auto)]

mod heap;
mod laws;
mod sort;
#[cfg(test)]
mod tests;
mod thing;

pub use heap::{Heap, MAX_ALIVE, MAX_MADE};
pub use laws::{
    alive_in_hand, alive_in_thing, all_held, any_order, few_holders, in_hand, may_settle,
};
pub use thing::Thing;
