//! Paths, the two shelves and the two sinks at work.
mod files;
mod memory;
mod writers;
