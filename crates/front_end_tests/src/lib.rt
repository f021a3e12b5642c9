//! Tests of the public calls of the lexer and the parser. They stand in a crate of their own, since a crate with tests is
//! proved twice.
#![tactic(auto)]

#[cfg(test)]
mod grammar;
#[cfg(test)]
mod lexer;
