//! The fields of a snapshot, each read at its offset from the begin of the bytes.
ghost use Rattle.std.specs.Prelude.{◌≡◌, ℕ, ◌+◌, ◌^◌, ◌<◌, ◌≤◌, length, drop, IfOk, MatchResult};
ghost use Rattle.sph_snap.specs.inner.Parts.{Gives, component_field, momentum_fields, momentum_in, number_field, number_in, place_fields, place_in, signed_in};

use crate::fault::SnapFault;
use byteorder::{ByteOrder, LittleEndian};
use sph_num::BOX_SIDE;

/// The greatest coordinate.
const LAST_PLACE: u32 = BOX_SIDE - 1;

/// Each component of a momentum is of a lower absolute value.
const COMPONENT_LIMIT: u128 = 1 << 96;

/// The number of four bytes here, from the least to the greatest.
pub fn number_at(bytes: &[u8], at: usize, least: u32, greatest: u32) -> Result<u32, SnapFault>
    requires { at + 4 < 2 ^ 64 }
    ensures { Gives bytes.now (number_field at 4 least greatest) (number_in bytes.now at 4) result }
{
    let n = long_at(bytes, at, 4, u64::from(least), u64::from(greatest))?;
    Ok(n as u32)
}

/// The number of so many bytes here, from the least to the greatest.
pub fn long_at(
    bytes: &[u8],
    at: usize,
    size: usize,
    least: u64,
    greatest: u64,
) -> Result<u64, SnapFault>
    requires some { 1 ≤ size }
    requires few { size ≤ 8 }
    requires fits { at + size < 2 ^ 64 }
    ensures read { Gives bytes.now (number_field at size least greatest) (number_in bytes.now at size) result }
    ensures high { IfOk result (λ n. n ≤ greatest) }
{
    let n = LittleEndian::read_uint(bytes_at(bytes, at, size)?, size);
    if n < least || n > greatest {
        return Err(SnapFault::Range(at));
    }
    Ok(n)
}

/// The three coordinates here.
pub fn place_at(bytes: &[u8], at: usize) -> Result<[u32; 3], SnapFault>
    requires { at + 12 < 2 ^ 64 }
    ensures { Gives bytes.now (place_fields at) (place_in bytes.now at) result }
{
    let x = number_at(bytes, at, 0, LAST_PLACE)?;
    let y = number_at(bytes, at + 4, 0, LAST_PLACE)?;
    let z = number_at(bytes, at + 8, 0, LAST_PLACE)?;
    Ok([x, y, z])
}

/// The three components of a momentum here.
pub fn momentum_at(bytes: &[u8], at: usize) -> Result<[i128; 3], SnapFault>
    requires { at + 48 < 2 ^ 64 }
    ensures { Gives bytes.now (momentum_fields at) (momentum_in bytes.now at) result }
{
    let x = component_at(bytes, at)?;
    let y = component_at(bytes, at + 16)?;
    let z = component_at(bytes, at + 32)?;
    Ok([x, y, z])
}

/// One component of a momentum.
fn component_at(bytes: &[u8], at: usize) -> Result<i128, SnapFault>
    requires { at + 16 < 2 ^ 64 }
    ensures { Gives bytes.now (component_field at) (signed_in bytes.now at) result }
{
    let q = LittleEndian::read_i128(bytes_at(bytes, at, 16)?);
    if q.unsigned_abs() >= COMPONENT_LIMIT {
        return Err(SnapFault::Range(at));
    }
    Ok(q)
}

/// The bytes from here on, which are so many at least.
fn bytes_at(bytes: &[u8], at: usize, size: usize) -> Result<&[u8], SnapFault>
    requires { at + size < 2 ^ 64 }
    ensures { MatchResult result (λ rest. (at + size ≤ length bytes.now) × (rest.now ≡ drop at bytes.now))
        (λ fault. (length bytes.now < at + size) × (fault ≡ SnapFault.Short at)) }
{
    if bytes.len() < at + size {
        return Err(SnapFault::Short(at));
    }
    Ok(&bytes[at..])
}
