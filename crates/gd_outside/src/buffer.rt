//! Bytes that wait to be written.
ghost use Rattle.std.specs.Prelude.{◌≡◌, ◌==◌, ◌≤◌, ◌++◌, [], length, drop, OnOk, OnErr};

use std::alloc::{AllocError, Global};
use std::marker::Model;

// As many bytes are kept back, so that small pieces go out together.
const SIZE: usize = 65_536;

// As many line ends, so that a long run is seen to go on, and one that is stopped loses little.
const LINES: usize = 32;

/// Bytes that wait to be written, seen as the list of them.
#[derive(Drop)]
pub struct Buffer {
    bytes: Vec<u8>,
    // so many of the bytes, from the front on, wait no longer
    start: usize,
    // so many line ends were added since no byte waited
    lines: usize,
}

impl Model for Buffer {
    ghost use Rattle.std.specs.Prelude.{List, ℕ, ◌≤◌, drop, length};
    ghost use Rattle.std.specs.Coded.{coded_list, coded_ℕ};

    ghost Value = { List ℕ };

    ghost coded = { coded_list coded_ℕ };

    ghost view = { λ buffer. drop buffer.start buffer.bytes.items };

    ghost invariant = { λ buffer. buffer.start ≤ length buffer.bytes.items };
}

impl Buffer {
    /// A buffer with no bytes.
    pub fn new(alloc: Global) -> Buffer
        ensures { result ≡ [] }
    {
        Buffer {
            bytes: Vec::new(alloc),
            start: 0,
            lines: 0,
        }
    }

    /// The bytes that wait.
    pub fn waiting(&self) -> &[u8]
        ensures { result.now ≡ self.now }
    {
        &self.bytes[self.start..]
    }

    /// Whether no byte waits.
    pub fn is_empty(&self) -> bool
        ensures { result ≡ (length self.now == 0) }
    {
        self.start == self.bytes.len()
    }

    /// Whether a piece of this many bytes is kept back, and not written at once.
    pub fn has_room(&self, count: usize) -> bool {
        count <= SIZE.saturating_sub(self.bytes.len())
    }

    /// Whether as many line ends wait as are kept back.
    pub fn has_many_lines(&self) -> bool {
        self.lines >= LINES
    }

    /// Adds a piece at the end.
    pub fn push(&mut self, piece: &[u8]) -> Result<(), AllocError>
        ensures ok { OnOk result (self.new ≡ self.old ++ piece.now) }
        ensures err { OnErr result (self.new ≡ self.old) }
    {
        self.bytes.extend_from_slice(piece)?;
        self.lines = self.lines.saturating_add(line_ends(piece));
        Ok(())
    }

    /// Lets go of so many bytes, from the front on.
    pub fn pass(&mut self, count: usize)
        requires { count ≤ length self.old }
        ensures { self.new ≡ drop count self.old }
    {
        self.start += count;
        if self.start == self.bytes.len() {
            self.bytes.clear();
            self.start = 0;
            self.lines = 0;
        }
    }
}

// How many line ends stand in the piece.
fn line_ends(piece: &[u8]) -> usize {
    piece.iter().filter(|b| **b == b'\n').count()
}
