//! A source and a sink in memory, whose calls can be short and can fail by a list.
ghost use Rattle.std.specs.Prelude.{◌≡◌, ◌≤◌, length, Some, IfOk};
ghost use Rattle.std.specs.Io.{ReadsAtMost};
ghost use Rattle.sph_edge.specs.Bytes.{TakesBytes, GivesBytes};
ghost use Rattle.sph_edge.specs.Causes.{HasCause};
ghost use Rattle.sph_edge.specs.Memory.{new_source, take_answer, after_take, filled, new_sink, give_answer, after_give};

use crate::traits::{Failed, Sink, Source};
use std::alloc::{AllocError, Global};
use std::marker::Model;

/// A source over bytes in memory. Call number k, from 1, fails where k is listed, which raises the
/// count of faults and removes nothing; any other call gives at most `most` bytes.
#[derive(Debug, Drop)]
pub struct MemorySource {
    bytes: Vec<u8>,
    next: usize,
    most: usize,
    fails: Vec<u64>,
    calls: u64,
    faults: u64,
}

impl Model for MemorySource {
    ghost use Rattle.std.specs.Prelude.{◌≤◌, drop, length};
    ghost use Rattle.sph_edge.specs.Memory.{SourceState};

    ghost Value = { SourceState };

    ghost view = { λ s. record {
      left = drop s.next s.bytes.items;
      most = s.most;
      fails = s.fails.items;
      calls = s.calls;
      faults = s.faults;
    } };

    ghost invariant = { λ s. (1 ≤ s.most) × (s.next ≤ length s.bytes.items) };
}

/// A sink into reserved memory. Call number k, from 1, fails where k is listed or where the room is
/// full, which raises the count of faults and appends nothing; any other call takes at most `most`
/// bytes.
#[derive(Debug, Drop)]
pub struct MemorySink {
    held: Vec<u8>,
    room: usize,
    most: usize,
    fails: Vec<u64>,
    calls: u64,
    faults: u64,
}

impl Model for MemorySink {
    ghost use Rattle.std.specs.Prelude.{◌≤◌, vec_len, vec_capacity};
    ghost use Rattle.sph_edge.specs.Memory.{SinkState};

    ghost Value = { SinkState };

    ghost view = { λ s. record {
      held = s.held.items;
      room = s.room;
      most = s.most;
      fails = s.fails.items;
      calls = s.calls;
      faults = s.faults;
    } };

    ghost invariant = { λ s.
        (1 ≤ s.most) × (vec_len s.held ≤ s.room) × (s.room ≤ vec_capacity s.held) };
}

impl MemorySource {
    /// A source of the bytes, of which a call gives at most `most`, and whose calls with a number in
    /// `fails` fail.
    pub fn new(bytes: Vec<u8>, most: usize, fails: Vec<u64>) -> MemorySource
        requires { 1 ≤ most }
        ensures { result ≡ new_source bytes.items most fails.items }
    {
        MemorySource {
            bytes,
            next: 0,
            most,
            fails,
            calls: 0,
            faults: 0,
        }
    }
}

impl MemorySink {
    /// An empty sink with this much room, of which a call takes at most `most`, and whose calls with a
    /// number in `fails` fail.
    pub fn new(
        alloc: Global,
        room: usize,
        most: usize,
        fails: Vec<u64>,
    ) -> Result<MemorySink, AllocError>
        requires { 1 ≤ most }
        ensures { IfOk result (λ sink. sink ≡ new_sink room most fails.items) }
    {
        Ok(MemorySink {
            held: Vec::with_capacity(alloc, room)?,
            room,
            most,
            fails,
            calls: 0,
            faults: 0,
        })
    }

    /// The bytes that were given.
    pub fn held(&self) -> &[u8]
        ensures { result.now ≡ self.now.held }
    {
        &self.held
    }
}

impl Source for MemorySource {
    ghost left = { λ source. Some source.left };

    ghost faults = { λ source. source.faults };

    fn take(&mut self, into: &mut [u8]) -> Result<usize, Failed>
        ensures bound { ReadsAtMost result into.new }
        ensures bytes { TakesBytes (Some self.old.left) (Some self.new.left) result into.new }
        ensures cause { HasCause self.old.faults self.new.faults result }
        ensures exact { (result ≡ take_answer self.old (length into.old))
            × (self.new ≡ after_take self.old (length into.old)) }
        ensures space { into.new ≡ filled self.old into.old }
    {
        self.calls = self.calls.saturating_add(1);
        if self.fails.contains(&self.calls) {
            self.faults = self.faults.saturating_add(1);
            return Err(Failed);
        }
        let rest = &self.bytes[self.next..];
        let count = self.most.min(into.len().min(rest.len()));
        into[..count].copy_from_slice(&rest[..count]);
        self.next += count;
        Ok(count)
    }
}

impl Sink for MemorySink {
    ghost held = { λ sink. Some sink.held };

    ghost faults = { λ sink. sink.faults };

    fn give(&mut self, bytes: &[u8]) -> Result<usize, Failed>
        ensures bytes { GivesBytes (Some self.old.held) (Some self.new.held) result bytes.now }
        ensures cause { HasCause self.old.faults self.new.faults result }
        ensures exact { (result ≡ give_answer self.old bytes.now)
            × (self.new ≡ after_give self.old bytes.now) }
    {
        self.calls = self.calls.saturating_add(1);
        let room = self.room - self.held.len();
        if self.fails.contains(&self.calls) || room == 0 {
            self.faults = self.faults.saturating_add(1);
            return Err(Failed);
        }
        let count = self.most.min(bytes.len().min(room));

        // The room was reserved.
        let appended = self.held.extend_from_slice(&bytes[..count]);
        prove!(appended.is_ok());
        Ok(count)
    }
}
