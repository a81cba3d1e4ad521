//! Reading a stream of snapshots back.
ghost use Rattle.std.specs.Prelude.{◌≡◌, ◌⊎◌, ◌↔◌, ℕ, ◌+◌, ◌^◌, ◌<◌, ◌≤◌, IsTrue, List, length, MatchResult, Err, Ok};
ghost use Rattle.sph_snap.specs.declared.snapshot.Snapshot.{Snapshot};
ghost use Rattle.sph_snap.specs.declared.fault.SnapFault.{SnapFault};
ghost use Rattle.sph_snap.specs.Fields.{snapshot_fields};
ghost use Rattle.sph_snap.specs.inner.Parts.{EndFails, Ends, GivesInRoom, snapshot_in};
ghost use Rattle.sph_snap.specs.Reads.{AnswersStream, IsMarkAt, IsStreamFault};
ghost use Rattle.sph_snap.specs.Snapshot.{IsStreamOf, snapshot_mark};

use crate::fault::SnapFault;
use crate::field::number_at;
use crate::layout::{END, HEAD, MARK, ROW};
use crate::row::rows_at;
use crate::snapshot::{RowList, Snapshot};
use sph_num::MOST_PARTICLES;
use std::alloc::Global;

/// No run has a later tick.
const LAST_TICK: u32 = 1 << 16;

const MOST_ROWS: u32 = MOST_PARTICLES as u32;

/// The snapshots of a stream, or the first place at which the bytes cease to be one.
pub fn read_stream(alloc: Global, bytes: &[u8]) -> Result<Vec<Snapshot>, SnapFault>
    ensures answers { AnswersStream bytes.now result }
    ensures stream { (snapshots : List Snapshot) → IsStreamOf bytes.now snapshots
        → MatchResult result (λ read. read.items ≡ snapshots) (λ fault. fault ≡ SnapFault.Memory) }
    ensures fault { (fault : SnapFault) → IsStreamFault bytes.now fault
        → (result ≡ Err fault) ⊎ (result ≡ Err SnapFault.Memory) }
{
    let mut snapshots = Vec::new(alloc);
    let mut least = 0;
    let mut at = 0;
    while begins_snapshot(bytes, at)? {
        let snapshot = snapshot_at(alloc, bytes, least, at)?;
        least = snapshot.tick + 1;
        at += HEAD + ROW * snapshot.rows.len();
        snapshots.push(snapshot)?;
    }
    check_end(bytes, at, snapshots.is_empty())?;
    Ok(snapshots)
}

/// Whether a snapshot begins here: false where another eight bytes stand.
fn begins_snapshot(bytes: &[u8], at: usize) -> Result<bool, SnapFault>
    requires { at ≤ length bytes.now }
    ensures { MatchResult result (λ begins. (at + 8 ≤ length bytes.now) × (IsTrue begins ↔ IsMarkAt snapshot_mark bytes.now at))
        (λ fault. (length bytes.now < at + 8) × (fault ≡ SnapFault.Short at)) }
{
    if bytes.len() - at < MARK.len() {
        return Err(SnapFault::Short(at));
    }
    Ok(bytes[at..].starts_with(&MARK))
}

/// Whether the stream ends here: not before its first snapshot, and with no byte behind the end mark.
fn check_end(bytes: &[u8], at: usize, is_first: bool) -> Result<(), SnapFault>
    requires { at + 8 ≤ length bytes.now }
    ensures { MatchResult result (λ _. Ends bytes.now at is_first) (λ fault. EndFails bytes.now at is_first fault) }
{
    if is_first || !bytes[at..].starts_with(&END) {
        return Err(SnapFault::Magic(at));
    }
    if bytes.len() > at + END.len() {
        return Err(SnapFault::Trailing(at + END.len()));
    }
    Ok(())
}

/// The snapshot whose mark stands here, at a tick no less than the least one.
fn snapshot_at(alloc: Global, bytes: &[u8], least: u32, at: usize) -> Result<Snapshot, SnapFault>
    requires { at ≤ length bytes.now }
    ensures { GivesInRoom (λ (s : Snapshot). s) bytes.now (snapshot_fields bytes.now least at) (snapshot_in bytes.now at) result }
{
    let tick = number_at(bytes, at + 8, least, LAST_TICK)?;
    let count = number_at(bytes, at + 12, 1, MOST_ROWS)?;
    let rows = rows_at(alloc, bytes, count, at + HEAD)?;
    Ok(Snapshot {
        tick,
        rows: RowList::from_vec(rows),
    })
}
