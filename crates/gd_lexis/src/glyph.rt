//! What the bytes of a file are read as.

/// A well-formed character, or a byte at which none begins. Each is one column.
#[derive(Clone, Copy, Debug, PartialEq, Eq)]
pub enum Glyph {
    Char(char),
    Bad(u8),
}
