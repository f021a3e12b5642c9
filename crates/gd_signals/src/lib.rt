//! Which callables are connected to which signals.
#![tactic(auto)]

mod connection;
mod connections;
mod lists;

pub use connections::{CONNECT_ONE_SHOT, Connections, REFUSED};
