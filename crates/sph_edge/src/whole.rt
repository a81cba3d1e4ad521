//! Reading a source to its end, and writing a piece whole.
ghost use Rattle.std.specs.Prelude.{◌≡◌, ◌<◌, ◌≤◌, ◌^◌, OnOk, OnErr};
ghost use Rattle.std.specs.Io.KnownBytes.{Appends};
ghost use Rattle.sph_edge.specs.Bytes.{AppendsPrefix};
ghost use Rattle.sph_edge.specs.Causes.{HasCause};
ghost use Rattle.sph_edge.specs.Whole.{ReadsWhole, CausesRead};

use crate::traits::{Failed, Sink, Source};
use std::alloc::Global;

/// Why a source was not read whole.
#[derive(Clone, Copy, Debug, PartialEq, Eq)]
pub enum ReadEnd {
    /// A read failed.
    Fault,
    /// There were more bytes than the limit.
    TooLong,
    /// Memory ran out.
    Memory,
}

/// How many bytes are taken at once, at most.
const PIECE: usize = 16_384;

/// All that the source has left, where that is at most `limit` bytes. Ends, since each turn takes at
/// least one byte.
pub fn read_whole<S: Source>(
    alloc: Global,
    source: &mut S,
    limit: usize,
) -> Result<Vec<u8>, ReadEnd>
    requires { limit < 2 ^ 32 }
    ensures bytes { ReadsWhole limit (S.left source.old) (S.left source.new) result }
    ensures cause { CausesRead (S.faults source.old) (S.faults source.new) result }
{
    let mut whole = Vec::new(alloc);
    let mut piece = [0u8; PIECE];
    while whole.len() <= limit {
        let room = PIECE.min(limit + 1 - whole.len());
        match source.take(&mut piece[..room]) {
            Ok(0) => return Ok(whole),
            Ok(count) => whole
                .extend_from_slice(&piece[..count])
                .map_err(|_| ReadEnd::Memory)?,
            Err(Failed) => return Err(ReadEnd::Fault),
        }
    }
    Err(ReadEnd::TooLong)
}

/// Gives the whole piece to the sink. Ends, since each turn gives at least one byte. After a failure
/// the sink holds some of the piece's first bytes more.
pub fn write_whole<K: Sink>(sink: &mut K, bytes: &[u8]) -> Result<(), Failed>
    ensures all { OnOk result (Appends (K.held sink.old) (K.held sink.new) bytes.now) }
    ensures some { OnErr result (AppendsPrefix (K.held sink.old) (K.held sink.new) bytes.now) }
    ensures cause { HasCause (K.faults sink.old) (K.faults sink.new) result }
{
    let mut done = 0;
    while done < bytes.len() {
        done += sink.give(&bytes[done..])?;
    }
    Ok(())
}
