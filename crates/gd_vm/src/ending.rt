//! How a run has ended.
use gd_model::Outcome;

/// How a run has ended.
#[derive(Drop)]
pub enum End {
    /// It goes on.
    None,
    With(Outcome),
    /// Memory lacked: each further answer is that.
    NoMemory,
}
