//! Counted slots: a map from serial numbers to a count and a value.
#![tactic(auto)]

mod handle;
mod slab_slots;
mod slots;
mod steps;
#[cfg(test)]
mod tests;

pub use handle::Handle;
pub use slab_slots::SlabSlots;
pub use slots::Slots;
pub use steps::Steps;
