//! What lies outside the program: the files that it reads and the text that it writes.
#![tactic(auto)]

mod buffer;
mod folder_shelf;
mod folder_walk;
mod memory_shelf;
mod memory_sink;
mod path;
mod shelf;
mod sink;
mod std_sink;
#[cfg(test)]
mod tests;

pub use folder_shelf::FolderShelf;
pub use memory_shelf::{MemoryShelf, are_distinct};
pub use memory_sink::MemorySink;
pub use path::{Path, PathFault};
pub use shelf::{FailedCall, Shelf, ShelfFault};
pub use sink::{Sink, SinkFault};
pub use std_sink::StdSink;
