//! The adapters over std's reader and writer: the trusted edge.
ghost use Rattle.std.specs.Prelude.{◌≡◌, ◌<◌, IfOk, IsErr, MatchResult};
ghost use Rattle.std.specs.Io.{ReadsAtMost};
ghost use Rattle.sph_edge.specs.Bytes.{TakesBytes, GivesBytes};
ghost use Rattle.sph_edge.specs.Causes.{HasCause, IsCounted};

use crate::traits::{Failed, Sink, Source};
use std::io::{Read, Write};

/// A source over a reader of std: one read a call.
#[derive(Debug, Drop)]
pub struct StdSource<R: Read> {
    reader: R,
    faults: u64,
}

/// A sink over a writer of std: one write and one flush a call. A write that takes nothing is a fault.
#[derive(Debug, Drop)]
pub struct StdSink<W: Write> {
    writer: W,
    faults: u64,
}

impl<R: Read> StdSource<R> {
    /// A source of the bytes that the reader gives, without faults so far.
    pub fn new(reader: R) -> StdSource<R>
        ensures left { ⟦<StdSource<R> as Source>⟧.left result ≡ R.remaining reader }
        ensures faults { ⟦<StdSource<R> as Source>⟧.faults result ≡ 0 }
    {
        StdSource { reader, faults: 0 }
    }
}

impl<W: Write> StdSink<W> {
    /// A sink that writes behind what the writer holds, without faults so far.
    pub fn new(writer: W) -> StdSink<W>
        ensures held { ⟦<StdSink<W> as Sink>⟧.held result ≡ W.contents writer }
        ensures faults { ⟦<StdSink<W> as Sink>⟧.faults result ≡ 0 }
    {
        StdSink { writer, faults: 0 }
    }
}

impl<R: Read> Source for StdSource<R> {
    ghost left = { λ source. R.remaining source.reader };

    ghost faults = { λ source. source.faults };

    fn take(&mut self, into: &mut [u8]) -> Result<usize, Failed>
        ensures bound { ReadsAtMost result into.new }
        ensures bytes { TakesBytes (⟦<StdSource<R> as Source>⟧.left self.old) (⟦<StdSource<R> as Source>⟧.left self.new) result into.new }
        ensures cause { HasCause (⟦<StdSource<R> as Source>⟧.faults self.old) (⟦<StdSource<R> as Source>⟧.faults self.new) result }
        ensures counted { IsCounted (⟦<StdSource<R> as Source>⟧.faults self.old) (⟦<StdSource<R> as Source>⟧.faults self.new) result }
    {
        counted(self.reader.read(into), &mut self.faults)
    }
}

impl<W: Write> Sink for StdSink<W> {
    ghost held = { λ sink. W.contents sink.writer };

    ghost faults = { λ sink. sink.faults };

    fn give(&mut self, bytes: &[u8]) -> Result<usize, Failed>
        ensures bytes { GivesBytes (⟦<StdSink<W> as Sink>⟧.held self.old) (⟦<StdSink<W> as Sink>⟧.held self.new) result bytes.now }
        ensures cause { HasCause (⟦<StdSink<W> as Sink>⟧.faults self.old) (⟦<StdSink<W> as Sink>⟧.faults self.new) result }
        ensures counted { IsCounted (⟦<StdSink<W> as Sink>⟧.faults self.old) (⟦<StdSink<W> as Sink>⟧.faults self.new) result }
        ensures some { IfOk result (λ count. 0 < count) }
    {
        let count = counted(self.writer.write(bytes), &mut self.faults)?;
        if count == 0 {
            return counted(Err(Failed), &mut self.faults);
        }
        counted(self.writer.flush(), &mut self.faults)?;
        Ok(count)
    }
}

/// The answer of a call, which is counted where it failed.
fn counted<T, E: Drop>(answer: Result<T, E>, faults: &mut u64) -> Result<T, Failed>
    ensures answer { MatchResult answer (λ value. result ≡ Ok value) (λ _. IsErr result) }
    ensures cause { HasCause faults.old faults.new result }
    ensures counted { IsCounted faults.old faults.new result }
{
    match answer {
        Ok(value) => Ok(value),
        Err(_) => {
            *faults = faults.saturating_add(1);
            Err(Failed)
        }
    }
}

#[cfg(test)]
mod tests;
