//! A sink over standard output, or any other writer.
ghost use Rattle.std.specs.Prelude.{◌≡◌, ◌<◌, ◌≤◌, ℕ, [], None, length, take, OnOk, OnErr, IsErrOf, false, true};
ghost use Rattle.std.specs.Io.KnownBytes.{Appends, Keeps};
ghost use Rattle.gd_outside.specs.Cause.{HasCause, next_count};
ghost use Rattle.gd_outside.specs.StdSink.{has_failed, sink_faults, taken_bytes, unwritten, written_bytes};
ghost use Rattle.gd_outside.specs.declared.sink.SinkFault.TheVariants.{Failed};

use crate::buffer::Buffer;
use crate::sink::{Sink, SinkFault};
use std::alloc::Global;
use std::io::{ErrorKind, Write};

/// Hands what it takes to a writer, in large pieces. A caller ends with `flush`, which hands on what is left.
///
/// Once it has failed it fails for good: each later `flush`, and each `put` of a piece that is not empty.
#[derive(Drop)]
pub struct StdSink<W> {
    writer: W,
    buffer: Buffer,
    faults: u64,
    has_failed: bool,
}

impl<W> StdSink<W> {
    /// A sink over this writer. That of standard output is `rt.stdout()`.
    pub fn new(alloc: Global, writer: W) -> StdSink<W>
        ensures faults { sink_faults result ≡ 0 }
        ensures works { has_failed result ≡ false }
        ensures empty { unwritten result ≡ [] }
    {
        StdSink {
            writer,
            buffer: Buffer::new(alloc),
            faults: 0,
            has_failed: false,
        }
    }

    // Counts a failure.
    fn fail(&mut self) -> SinkFault
        ensures value { result ≡ Failed }
        ensures after { self.new ≡ record self.old { faults = next_count self.old.faults; has_failed = true } }
        ensures later { self.old.faults ≤ self.new.faults }
    {
        self.faults = self.faults.saturating_add(1);
        self.has_failed = true;
        SinkFault::Failed
    }
}

impl<W: Write> StdSink<W> {
    /// Hands all that is left to the writer, and flushes it. `Failed` where the writer failed, now or before.
    pub fn flush(&mut self) -> Result<(), SinkFault>
        ensures keeps { Keeps (taken_bytes W.contents self.old) (taken_bytes W.contents self.new) }
        ensures empty { OnOk result (unwritten self.new ≡ []) }
        ensures cause { HasCause (sink_faults self.old) (sink_faults self.new) result Failed }
        ensures failed { OnErr result (has_failed self.new ≡ true) }
        ensures for_good { has_failed self.old ≡ true → IsErrOf result Failed }
    {
        if self.has_failed {
            return Err(self.fail());
        }
        self.write_out()?;
        match self.writer.flush() {
            Ok(()) => Ok(()),
            Err(_) => Err(self.fail()),
        }
    }

    // Hands the buffer to the writer.
    fn write_out(&mut self) -> Result<(), SinkFault>
        ensures keeps { Keeps (taken_bytes W.contents self.old) (taken_bytes W.contents self.new) }
        ensures empty { OnOk result (unwritten self.new ≡ []) }
        ensures cause { HasCause (sink_faults self.old) (sink_faults self.new) result Failed }
        ensures failed { OnErr result (has_failed self.new ≡ true) }
        ensures works { OnOk result (has_failed self.new ≡ has_failed self.old) }
    {
        let count = write_bytes(&mut self.writer, self.buffer.waiting());
        self.buffer.pass(count);
        if self.buffer.is_empty() {
            Ok(())
        } else {
            Err(self.fail())
        }
    }

    // Keeps the piece back.
    fn keep(&mut self, piece: &[u8]) -> Result<(), SinkFault>
        ensures whole { OnOk result (Appends (taken_bytes W.contents self.old) (taken_bytes W.contents self.new) piece.now) }
        ensures part { OnErr result (Keeps (taken_bytes W.contents self.old) (taken_bytes W.contents self.new)) }
        ensures no_fault { sink_faults self.new ≡ sink_faults self.old }
        ensures works { has_failed self.new ≡ has_failed self.old }
        ensures no_failure { ¬ (IsErrOf result Failed) }
    {
        self.buffer.push(piece)?;
        Ok(())
    }

    // Keeps the piece back, and hands on all that waits where many lines do.
    fn take_in(&mut self, piece: &[u8]) -> Result<(), SinkFault>
        ensures whole { OnOk result (Appends (taken_bytes W.contents self.old) (taken_bytes W.contents self.new) piece.now) }
        ensures part { OnErr result ((k : ℕ) × Appends (taken_bytes W.contents self.old) (taken_bytes W.contents self.new) (take k piece.now)) }
        ensures cause { HasCause (sink_faults self.old) (sink_faults self.new) result Failed }
        ensures failed { IsErrOf result Failed → has_failed self.new ≡ true }
    {
        self.keep(piece)?;
        if self.buffer.has_many_lines() {
            return self.flush();
        }
        Ok(())
    }

    // Hands the piece to the writer.
    fn write_through(&mut self, piece: &[u8]) -> Result<(), SinkFault>
        requires { unwritten self.old ≡ [] }
        ensures whole { OnOk result (Appends (taken_bytes W.contents self.old) (taken_bytes W.contents self.new) piece.now) }
        ensures part { OnErr result ((k : ℕ) × Appends (taken_bytes W.contents self.old) (taken_bytes W.contents self.new) (take k piece.now)) }
        ensures cause { HasCause (sink_faults self.old) (sink_faults self.new) result Failed }
        ensures failed { IsErrOf result Failed → has_failed self.new ≡ true }
    {
        let count = write_bytes(&mut self.writer, piece);
        if count == piece.len() {
            Ok(())
        } else {
            Err(self.fail())
        }
    }
}

impl<W: Write> Sink for StdSink<W> {
    ghost contents = { λ _. None };

    ghost faults = { sink_faults };

    /// Takes the piece, or a prefix of it after an `Err`. `Failed` where the writer failed, now or before.
    fn put(&mut self, piece: &[u8]) -> Result<(), SinkFault>
        ensures whole { OnOk result (Appends (taken_bytes W.contents self.old) (taken_bytes W.contents self.new) piece.now) }
        ensures part { OnErr result ((k : ℕ) × Appends (taken_bytes W.contents self.old) (taken_bytes W.contents self.new) (take k piece.now)) }
        ensures cause { HasCause (sink_faults self.old) (sink_faults self.new) result Failed }
        ensures failed { IsErrOf result Failed → has_failed self.new ≡ true }
        ensures for_good { has_failed self.old ≡ true → 0 < length piece.now → IsErrOf result Failed }
    {
        if piece.is_empty() {
            return Ok(());
        }
        if self.has_failed {
            return Err(self.fail());
        }
        if self.buffer.has_room(piece.len()) {
            return self.take_in(piece);
        }
        self.write_out()?;
        if self.buffer.has_room(piece.len()) {
            return self.take_in(piece);
        }
        self.write_through(piece)
    }
}

// Writes the bytes, and answers how many of them the writer took: fewer than all where it failed, or took none of some.
fn write_bytes<W: Write>(writer: &mut W, bytes: &[u8]) -> usize
    ensures bound { result ≤ length bytes.now }
    ensures bytes { Appends (W.contents writer.old) (W.contents writer.new) (take result bytes.now) }
{
    let mut written = 0;
    for _ in 0..u64::MAX {
        if written == bytes.len() {
            break;
        }
        match writer.write(&bytes[written..]) {
            Ok(0) => break,
            Ok(count) => written += count,
            Err(error) => {
                if error.kind() != ErrorKind::Interrupted {
                    break;
                }
            }
        }
    }
    written
}
