//! The statements of a body in one list.
use gd_syntax::{Stmt, StmtKind};
use no_memory::NoMemory;

/// A statement, and whether it stands in a loop of its body.
#[derive(Clone, Copy)]
pub struct Placed<'a> {
    pub stmt: &'a Stmt,
    pub in_loop: bool,
}

/// Adds the statements of a block, each before those inside it.
pub fn flatten<'a>(
    block: &'a [Stmt],
    in_loop: bool,
    found: &mut Vec<Placed<'a>>,
) -> Result<(), NoMemory> {
    for stmt in block {
        found.push(Placed { stmt, in_loop })?;
        match &stmt.kind {
            StmtKind::If(choices, other) => {
                for (_, inner) in choices.as_slice() {
                    flatten(inner.as_slice(), in_loop, found)?;
                }
                if let Some(inner) = other {
                    flatten(inner.as_slice(), in_loop, found)?;
                }
            }
            StmtKind::While(_, inner) => flatten(inner.as_slice(), true, found)?,
            StmtKind::For(_, _, _, _, _, inner) => flatten(inner.as_slice(), true, found)?,
            StmtKind::Match(_, branches) => {
                for branch in branches.as_slice() {
                    flatten(branch.body.as_slice(), in_loop, found)?;
                }
            }
            _ => {}
        }
    }
    Ok(())
}
