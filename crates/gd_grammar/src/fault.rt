//! What `parse` answers for tokens that are no script.
use gd_rules::Rule;
use gd_syntax::Pos;
use thiserror::Error;

#[derive(Clone, Copy, Debug, PartialEq, Eq, Drop, Error)]
pub enum SyntaxFault {
    /// No script goes on with the token at this place: `FormLeftOut` where it begins a form that is
    /// left out of the language, else `Syntax`.
    #[error("syntax fault")]
    Fault(Pos, Rule),
    #[error("out of memory")]
    NoMemory,
}
