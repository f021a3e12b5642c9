use crate::RunFault;
use gd_syntax::{Pos, Text};

/// How a run ended.
#[derive(Drop)]
pub enum Outcome {
    Done,
    /// The fault, its place, and the message of an assertion.
    Fault(RunFault, Pos, Option<Text>),
    OutOfTurns,
}
