//! Tests of the public calls of texts, containers, signals, constants and the stack of values. They stand in a crate of
//! their own, since a crate with tests is proved twice.
#![tactic(auto)]

#[cfg(test)]
mod constants;
#[cfg(test)]
mod containers;
#[cfg(test)]
mod signals;
#[cfg(test)]
mod stack;
#[cfg(test)]
mod texts;
