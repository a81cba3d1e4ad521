//! Which calls of std's reader and writer the adapters make: no contract can say it.
use super::{StdSink, StdSource};
use crate::{Failed, Sink, Source, write_whole};
use std::io::{self, ErrorKind, Read, Write};

/// A reader that counts its calls. The first is interrupted, the second is at the end of input, and any
/// other gives one byte.
#[derive(Drop)]
struct CountedReader {
    calls: u32,
}

impl Read for CountedReader {
    fn read(&mut self, into: &mut [u8]) -> io::Result<usize> {
        self.calls = self.calls.saturating_add(1);
        match self.calls {
            1 => Err(ErrorKind::Interrupted.into()),
            2 => Ok(0),
            _ => Ok(into.len().min(1)),
        }
    }
}

#[test]
fn takes_by_one_read(rt: HostRuntime) {
    let mut reader = CountedReader { calls: 0 };
    let mut source = StdSource::new(&mut reader);
    assert_eq!(rt; source.take(&mut [0; 4]), Err(Failed));
    assert_eq!(rt; source.take(&mut [0; 4]), Ok(0));
    assert_eq!(rt; source.take(&mut [0; 4]), Ok(1));
    assert_eq!(rt; reader.calls, 3);
}

/// A writer that takes two bytes a call at most, and that is interrupted in one call, a write or a flush.
/// It counts both, and the bytes that are written and not yet flushed.
#[derive(Drop)]
struct CountedWriter {
    interrupted: u32,
    writes: u32,
    flushes: u32,
    unflushed: usize,
}

impl CountedWriter {
    fn new(interrupted: u32) -> CountedWriter {
        CountedWriter {
            interrupted,
            writes: 0,
            flushes: 0,
            unflushed: 0,
        }
    }

    /// What the call answers that was just counted.
    fn answer(&self) -> io::Result<()> {
        if self.writes.saturating_add(self.flushes) == self.interrupted {
            return Err(ErrorKind::Interrupted.into());
        }
        Ok(())
    }
}

impl Write for CountedWriter {
    fn write(&mut self, bytes: &[u8]) -> io::Result<usize> {
        self.writes = self.writes.saturating_add(1);
        self.answer()?;
        let count = bytes.len().min(2);
        self.unflushed = self.unflushed.saturating_add(count);
        Ok(count)
    }

    fn flush(&mut self) -> io::Result<()> {
        self.flushes = self.flushes.saturating_add(1);
        self.answer()?;
        self.unflushed = 0;
        Ok(())
    }
}

#[test]
fn gives_by_one_write_and_then_one_flush(rt: HostRuntime) {
    let mut writer = CountedWriter::new(0);
    let mut sink = StdSink::new(&mut writer);
    assert_eq!(rt; sink.give(b"one"), Ok(2));
    assert_eq!(rt; write_whole(&mut sink, b"two"), Ok(()));
    assert_eq!(rt; (writer.writes, writer.flushes), (3, 3));
    assert_eq!(rt; writer.unflushed, 0);
}

#[test]
fn failed_write_or_flush_is_not_tried_again(rt: HostRuntime) {
    for (interrupted, writes, flushes) in [(1, 1, 0), (2, 1, 1)] {
        let mut writer = CountedWriter::new(interrupted);
        let mut sink = StdSink::new(&mut writer);
        assert_eq!(rt; sink.give(b"one"), Err(Failed));
        assert_eq!(rt; (writer.writes, writer.flushes), (writes, flushes));
    }
}
