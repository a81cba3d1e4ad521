//! Writing a snapshot: particles in little-endian bytes.
ghost use Rattle.std.specs.Prelude.{◌≡◌, ◌++◌, All, IfOk, OnOk, flat_map};
ghost use Rattle.byteorder.specs.Endian.{little_bytes};
ghost use Rattle.sph_num.specs.declared.particle.Particle.{Particle};
ghost use Rattle.sph_snap.specs.Snapshot.{IsSnapshot, row_bytes, row_of, signed_bytes, snapshot_of, spell};

use crate::layout::{HEAD, MARK, ROW};
use byteorder::{ByteOrder, LittleEndian};
use sph_num::Particle;
use std::alloc::{AllocError, Global};

/// The bytes of the snapshot of these particles at tick `t`: 16, and 84 for each particle. The place at
/// a particle's last kick is taken for its place, so each was kicked at this tick.
pub fn put_snapshot(alloc: Global, t: u32, particles: &[Particle]) -> Result<Vec<u8>, AllocError>
    requires ranges { IsSnapshot (snapshot_of t particles.now) }
    requires kicked { All (λ (p : Particle). p.t0 ≡ t) particles.now }
    ensures { IfOk result (λ bytes. bytes.items ≡ spell (snapshot_of t particles.now)) }
{
    let mut out = Vec::with_capacity(alloc, HEAD + ROW * particles.len())?;
    out.extend_from_slice(&MARK)?;
    put_u32(&mut out, t)?;
    put_u32(&mut out, particles.len() as u32)?;
    for (i, particle) in particles.iter().enumerate() {
        put_row(&mut out, i as u32 + 1, particle)?;
    }
    Ok(out)
}

/// Puts the row of the particle of this number.
fn put_row(out: &mut Vec<u8>, number: u32, particle: &Particle) -> Result<(), AllocError>
    ensures { OnOk result (out.new.items ≡ out.old.items ++ row_bytes (row_of number particle.now)) }
{
    put_u32(out, number)?;
    put_u32(out, particle.mass)?;
    put_u32(out, particle.h)?;
    put_u32s(out, &particle.x0)?;
    put_i128s(out, &particle.q)?;
    put_u64(out, particle.rho)?;
    put_u32(out, particle.bin)
}

/// Puts each of the numbers in four bytes.
fn put_u32s(out: &mut Vec<u8>, numbers: &[u32]) -> Result<(), AllocError>
    ensures { OnOk result (out.new.items ≡ out.old.items ++ flat_map (little_bytes 4) numbers.now) }
{
    for n in numbers {
        put_u32(out, *n)?;
    }
    Ok(())
}

/// Puts each of the numbers in sixteen bytes.
fn put_i128s(out: &mut Vec<u8>, numbers: &[i128]) -> Result<(), AllocError>
    ensures { OnOk result (out.new.items ≡ out.old.items ++ flat_map signed_bytes numbers.now) }
{
    for n in numbers {
        put_i128(out, *n)?;
    }
    Ok(())
}

/// Puts a number in four bytes.
fn put_u32(out: &mut Vec<u8>, n: u32) -> Result<(), AllocError>
    ensures { OnOk result (out.new.items ≡ out.old.items ++ little_bytes 4 n) }
{
    let mut bytes = [0; 4];
    LittleEndian::write_u32(&mut bytes, n);
    out.extend_from_slice(&bytes)
}

/// Puts a number in eight bytes.
fn put_u64(out: &mut Vec<u8>, n: u64) -> Result<(), AllocError>
    ensures { OnOk result (out.new.items ≡ out.old.items ++ little_bytes 8 n) }
{
    let mut bytes = [0; 8];
    LittleEndian::write_u64(&mut bytes, n);
    out.extend_from_slice(&bytes)
}

/// Puts a number in sixteen bytes.
fn put_i128(out: &mut Vec<u8>, n: i128) -> Result<(), AllocError>
    ensures { OnOk result (out.new.items ≡ out.old.items ++ signed_bytes n) }
{
    let mut bytes = [0; 16];
    LittleEndian::write_i128(&mut bytes, n);
    out.extend_from_slice(&bytes)
}
