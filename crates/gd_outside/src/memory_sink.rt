//! A sink that keeps its bytes in memory, and has room for a given number of them.
ghost use Rattle.std.specs.Prelude.{◌≡◌, ◌+◌, ◌≤◌, [], Some, length, OnOk, OnErr, IsErrOf};
ghost use Rattle.gd_outside.specs.Cause.{HasCause};
ghost use Rattle.gd_outside.specs.MemorySink.{Passes, after_put};
ghost use Rattle.gd_outside.specs.Sink.{Appends, AppendsPrefix};
ghost use Rattle.gd_outside.specs.declared.sink.SinkFault.TheVariants.{Failed};

use crate::sink::{Sink, SinkFault};
use std::alloc::Global;
use std::marker::Model;

/// Keeps the bytes that it takes, up to a number of them.
#[derive(Debug, Drop)]
pub struct MemorySink {
    bytes: Vec<u8>,
    room: u64,
    faults: u64,
}

impl Model for MemorySink {
    ghost use Rattle.std.specs.Prelude.{◌≤◌, length};
    ghost use Rattle.gd_outside.specs.MemorySink.{SinkState};

    ghost Value = { SinkState };

    ghost view = { λ sink. record { bytes = sink.bytes.items; room = sink.room; faults = sink.faults } };

    ghost invariant = { λ sink. length sink.bytes.items ≤ sink.room };
}

impl MemorySink {
    /// A sink that takes `room` bytes in all.
    pub fn new(alloc: Global, room: u64) -> MemorySink
        ensures bytes { result.bytes ≡ [] }
        ensures room { result.room ≡ room }
        ensures faults { result.faults ≡ 0 }
    {
        MemorySink {
            bytes: Vec::new(alloc),
            room,
            faults: 0,
        }
    }

    /// The bytes that it took, in order.
    pub fn bytes(&self) -> &[u8]
        ensures value { result.now ≡ self.now.bytes }
        ensures bound { length self.now.bytes ≤ self.now.room }
    {
        &self.bytes
    }
}

impl Sink for MemorySink {
    ghost contents = { λ sink. Some sink.bytes };

    ghost faults = { λ sink. sink.faults };

    /// `Failed` exactly where the piece would pass the room; then as much of it is taken as fits.
    fn put(&mut self, piece: &[u8]) -> Result<(), SinkFault>
        ensures whole { OnOk result (Appends (Some self.old.bytes) piece.now (Some self.new.bytes)) }
        ensures part { OnErr result (AppendsPrefix (Some self.old.bytes) piece.now (Some self.new.bytes)) }
        ensures cause { HasCause self.old.faults self.new.faults result Failed }
        ensures fails { IsErrOf result Failed → Passes self.old piece.now }
        ensures fits { OnOk result (length self.old.bytes + length piece.now ≤ self.old.room) }
        ensures after { self.new ≡ after_put self.old piece.now result }
        // So each later piece that is not empty fails too.
        ensures full { IsErrOf result Failed → length self.new.bytes ≡ self.new.room }
    {
        let left = self.room - self.bytes.len() as u64;
        if piece.len() as u64 <= left {
            self.bytes.extend_from_slice(piece)?;
            return Ok(());
        }
        self.bytes.extend_from_slice(&piece[..left as usize])?;
        self.faults = self.faults.saturating_add(1);
        Err(SinkFault::Failed)
    }
}
