//! Whole reads and writes over memory, short calls and failures among them, and over std's.
ghost use Rattle.std.specs.Prelude.{None};

use crate::{
    Failed, GrowingSink, MemorySink, MemorySource, ReadEnd, Sink, Source, StdSink, StdSource,
    read_whole, write_whole,
};
use std::alloc::{AllocError, Global};
use std::test::Fail;

/// The bytes 0, 1, 2 and so on.
fn counted(alloc: Global, count: u8) -> Result<Vec<u8>, AllocError> {
    (0..count).collect(alloc)
}

#[test]
fn reads_within_the_limit(rt: HostRuntime) -> Result<(), Fail> {
    let alloc = rt.alloc();
    let bytes = counted(alloc, 40)?;
    let mut source = MemorySource::new(bytes.clone()?, 16, Vec::new(alloc));
    assert_eq!(rt; read_whole(alloc, &mut source, 40), Ok(bytes.clone()?));

    let mut source = MemorySource::new(bytes.clone()?, 16, Vec::new(alloc));
    assert_eq!(rt; read_whole(alloc, &mut source, 39), Err(ReadEnd::TooLong));

    let mut source = MemorySource::new(bytes, 16, vec![in alloc; 2]?);
    assert_eq!(rt; read_whole(alloc, &mut source, 40), Err(ReadEnd::Fault));
    Ok(())
}

#[test]
fn writes_until_a_failure(rt: HostRuntime) -> Result<(), Fail> {
    let alloc = rt.alloc();
    let piece = counted(alloc, 108)?;
    let mut sink = MemorySink::new(alloc, 108, 40, vec![in alloc; 3]?)?;
    assert_eq!(rt; write_whole(&mut sink, &piece), Err(Failed));
    assert_eq!(rt; sink.held(), &counted(alloc, 80)?[..]);
    Ok(())
}

/// No contract can say that ample memory is not refused.
#[test]
fn grows_with_each_piece(rt: HostRuntime) -> Result<(), Fail> {
    let alloc = rt.alloc();
    let mut sink = GrowingSink::new(alloc);
    assert_eq!(rt; write_whole(&mut sink, b"one "), Ok(()));
    assert_eq!(rt; write_whole(&mut sink, b"two"), Ok(()));
    assert!(rt; sink.into_held().as_slice() == b"one two".as_slice());
    Ok(())
}

#[test]
fn works_over_std(rt: HostRuntime) -> Result<(), Fail> {
    let alloc = rt.alloc();
    let bytes = counted(alloc, 40)?;
    let mut source = StdSource::new(&bytes[..]);
    assert_eq!(rt; read_whole(alloc, &mut source, 40), Ok(bytes.clone()?));

    let mut written = Vec::new(alloc);
    let mut sink = StdSink::new(&mut written);
    assert_eq!(rt; write_whole(&mut sink, &bytes), Ok(()));
    assert_eq!(rt; written, bytes);
    Ok(())
}

/// A source of eight bytes, at most four a call, that counts the calls without room.
#[derive(Drop)]
struct RoomCounter {
    given: usize,
    without_room: u32,
}

impl Source for RoomCounter {
    ghost left = { λ _. None };

    ghost faults = { λ _. 0 };

    fn take(&mut self, into: &mut [u8]) -> Result<usize, Failed> {
        if into.is_empty() {
            self.without_room = self.without_room.saturating_add(1);
        }
        let count = into.len().min(4).min(8usize.saturating_sub(self.given));
        self.given = self.given.saturating_add(count);
        Ok(count)
    }
}

/// No contract can say that a source is always offered room.
#[test]
fn always_offers_room(rt: HostRuntime) {
    for (limit, given, end) in [
        (0, 1, Some(ReadEnd::TooLong)),
        (4, 5, Some(ReadEnd::TooLong)),
        (7, 8, Some(ReadEnd::TooLong)),
        (8, 8, None),
        (40_000, 8, None),
    ] {
        let mut source = RoomCounter {
            given: 0,
            without_room: 0,
        };
        let read = read_whole(rt.alloc(), &mut source, limit);
        assert_eq!(rt; read.err(), end, "at {limit}");
        assert_eq!(rt; source.given, given, "at {limit}");
        assert_eq!(rt; source.without_room, 0, "at {limit}");
    }
}
