use crate::{Sink, SinkFault, StdSink};
use std::io;
use std::io::{ErrorKind, Write};
use std::test::Fail;

// Takes five bytes at a time, is interrupted in between, and breaks once it has taken `room` bytes.
#[derive(Drop)]
struct Pipe {
    taken: Vec<u8>,
    room: usize,
    is_interrupted: bool,
}

impl Write for Pipe {
    fn write(&mut self, buf: &[u8]) -> io::Result<usize> {
        self.is_interrupted = !self.is_interrupted;
        if self.is_interrupted {
            return Err(io::Error::from(ErrorKind::Interrupted));
        }
        let count = buf.len().min(5).min(self.room);
        if count == 0 {
            return Err(io::Error::from(ErrorKind::BrokenPipe));
        }
        self.taken.extend_from_slice(&buf[..count])?;
        self.room -= count;
        Ok(count)
    }

    fn flush(&mut self) -> io::Result<()> {
        Ok(())
    }
}

#[test]
fn a_sink_hands_on_lines_before_its_end(rt: HostRuntime) -> Result<(), Fail> {
    let alloc = rt.alloc();
    for (piece, count, handed_on) in [
        ("line\n", 31, 0),
        ("line\n", 32, 32 * 5),
        ("line\n", 63, 32 * 5),
        ("two\nlines\n", 16, 16 * 10),
        ("no end", 10_922, 0),
        ("no end", 10_923, 10_922 * 6),
    ] {
        let mut pipe = Pipe {
            taken: Vec::new(alloc),
            room: 200_000,
            is_interrupted: false,
        };
        let mut sink = StdSink::new(alloc, &mut pipe);
        for _ in 0..count {
            sink.put(piece.as_bytes())?;
        }
        drop(sink);
        assert_eq!(rt; pipe.taken.len(), handed_on, "of {count}");
    }
    Ok(())
}

#[test]
fn a_sink_hands_on_each_byte_once(rt: HostRuntime) -> Result<(), Fail> {
    let alloc = rt.alloc();
    for (room, is_whole) in [(200_000, true), (100_007, false), (3, false)] {
        let mut pipe = Pipe {
            taken: Vec::new(alloc),
            room,
            is_interrupted: false,
        };
        let mut sink = StdSink::new(alloc, &mut pipe);
        let mut all = Vec::new(alloc);
        let mut is_ok = true;
        for piece in ["one", "", "two two two ", "x"] {
            let piece = piece.repeat(alloc, 9_000)?;
            all.extend_from_slice(piece.as_bytes())?;
            is_ok = is_ok && sink.put(piece.as_bytes()).is_ok();
        }
        is_ok = is_ok && sink.flush().is_ok();
        assert_eq!(rt; is_ok, is_whole, "at {room}");
        if !is_ok {
            assert_eq!(rt; sink.flush(), Err(SinkFault::Failed));
            assert_eq!(rt; sink.put(b"more".as_slice()), Err(SinkFault::Failed));
            assert_eq!(rt; sink.put(b"".as_slice()), Ok(()));
        }
        drop(sink);
        let count = pipe.taken.len();
        assert_eq!(rt; count, all.len().min(room));
        assert!(rt; pipe.taken.as_slice() == &all[..count]);
    }
    let mut sink = StdSink::new(alloc, rt.stdout());
    sink.put(b"written\n".as_slice())?;
    sink.flush()?;
    Ok(())
}
