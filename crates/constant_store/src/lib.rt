//! The values of constants while the analysis evaluates them (docs/runtime.md).
//!
//! A value of a constant is null, a bool, an int, a String, or an array or a dictionary that the store keeps. The things of a
//! store are read-only and are kept in the order in which they were made. A value stays one of the store whatever is made later.
#![tactic(auto)]

mod fixing;
mod literals;
mod operations;
mod reading;
mod store;
mod tests_of_types;
mod thing;

pub use literals::LiteralFault;
pub use store::ConstantStore;
pub use tests_of_types::same_key;
pub use thing::ConstantThing;
