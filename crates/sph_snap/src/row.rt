//! The rows of a snapshot, read one after the other.
ghost use Rattle.std.specs.Prelude.{◌≡◌, ℕ, ◌+◌, ◌*◌, ◌^◌, ◌<◌, ◌≤◌};
ghost use Rattle.std.specs.declared.alloc.Global.{Global};
ghost use Rattle.std.specs.declared.vec.Vec.{Vec};
ghost use Rattle.sph_snap.specs.declared.snapshot.SnapRow.{SnapRow};
ghost use Rattle.sph_snap.specs.Fields.{row_fields, rows_fields};
ghost use Rattle.sph_snap.specs.inner.Parts.{Gives, GivesInRoom, row_in, rows_in};

use crate::fault::SnapFault;
use crate::field::{long_at, momentum_at, number_at, place_at};
use crate::layout::ROW;
use crate::snapshot::SnapRow;
use std::alloc::Global;

/// The least density: a mass of 1 alone, in the greatest smoothing length.
const LEAST_RHO: u64 = 20;

const GREATEST_RHO: u64 = (1 << 61) - 1;

/// So many rows from here on, numbered from 1. Their room is reserved at once.
pub fn rows_at(
    alloc: Global,
    bytes: &[u8],
    count: u32,
    at: usize,
) -> Result<Vec<SnapRow>, SnapFault>
    requires { at + 84 * count < 2 ^ 64 }
    ensures { GivesInRoom (λ (v : Vec SnapRow Global). v.items) bytes.now (rows_fields count 1 at) (rows_in bytes.now count at) result }
{
    let mut rows = Vec::with_capacity(alloc, count as usize)?;
    for i in 0..count {
        let row = row_at(bytes, i + 1, at + ROW * i as usize)?;
        rows.push(row)?;
    }
    Ok(rows)
}

/// The row here, which has this number.
fn row_at(bytes: &[u8], number: u32, at: usize) -> Result<SnapRow, SnapFault>
    requires { at + 84 < 2 ^ 64 }
    ensures { Gives bytes.now (row_fields number at) (row_in bytes.now at) result }
{
    Ok(SnapRow {
        number: number_at(bytes, at, number, number)?,
        mass: number_at(bytes, at + 4, 1, 1 << 16)?,
        h: number_at(bytes, at + 8, 1 << 10, 1 << 17)?,
        x: place_at(bytes, at + 12)?,
        q: momentum_at(bytes, at + 24)?,
        rho: long_at(bytes, at + 72, 8, LEAST_RHO, GREATEST_RHO)?,
        bin: number_at(bytes, at + 80, 0, 10)?,
    })
}
