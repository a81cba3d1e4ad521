//! The stream of one particle, byte for byte, and what is refused around it.
ghost use Rattle.std.specs.Prelude.{◌<◌};

use sph_num::Particle;
use sph_snap::SnapFault::{Magic, Range, Short, Trailing};
use sph_snap::{END, SnapRow, put_snapshot, read_stream};
use std::alloc::{AllocError, Global};
use std::test::Fail;

/// The snapshot at tick 0 of one particle of mass 1 and h 131072 at the origin, at rest.
const ONE_PARTICLE: [u8; 100] = [
    0x53, 0x50, 0x48, 0x53, 0x4e, 0x41, 0x50, 0x31, 0, 0, 0, 0, 1, 0, 0, 0, //
    1, 0, 0, 0, 1, 0, 0, 0, 0, 0, 2, 0, 0, 0, 0, 0, 0, 0, 0, 0, 0, 0, 0, 0, //
    0, 0, 0, 0, 0, 0, 0, 0, 0, 0, 0, 0, 0, 0, 0, 0, //
    0, 0, 0, 0, 0, 0, 0, 0, 0, 0, 0, 0, 0, 0, 0, 0, //
    0, 0, 0, 0, 0, 0, 0, 0, 0, 0, 0, 0, 0, 0, 0, 0, //
    0x14, 0, 0, 0, 0, 0, 0, 0, 0, 0, 0, 0,
];

const END_MARK: [u8; 8] = [0x53, 0x50, 0x48, 0x53, 0x4e, 0x45, 0x4e, 0x44];

/// The row of that particle.
const ROW: SnapRow = SnapRow {
    number: 1,
    mass: 1,
    h: 131_072,
    x: [0; 3],
    q: [0; 3],
    rho: 20,
    bin: 0,
};

/// The stream of that particle.
fn one_particle(alloc: Global) -> Result<Vec<u8>, AllocError> {
    let mut bytes = Vec::from_slice(alloc, &ONE_PARTICLE)?;
    bytes.extend_from_slice(&END_MARK)?;
    Ok(bytes)
}

/// The snapshots of that particle at two ticks, and the end mark.
fn two_ticks(alloc: Global, first: u8, second: u8) -> Result<Vec<u8>, AllocError> {
    let mut bytes = Vec::new(alloc);
    for tick in [first, second] {
        let mut snapshot = ONE_PARTICLE;
        snapshot[8] = tick;
        bytes.extend_from_slice(&snapshot)?;
    }
    bytes.extend_from_slice(&END_MARK)?;
    Ok(bytes)
}

#[test]
fn writes_one_particle(rt: HostRuntime) -> Result<(), Fail> {
    let particle = Particle {
        mass: 1,
        h: 131_072,
        x0: [0; 3],
        t0: 0,
        p: [0; 3],
        q: [0; 3],
        f: [0; 3],
        rho: 20,
        g: 0,
        bin: 0,
    };
    let bytes = put_snapshot(rt.alloc(), 0, &[particle])?;
    assert_eq!(rt; bytes.as_slice(), ONE_PARTICLE.as_slice());
    assert_eq!(rt; END, END_MARK);
    Ok(())
}

#[test]
fn reads_snapshots(rt: HostRuntime) -> Result<(), Fail> {
    let alloc = rt.alloc();
    let one = read_stream(alloc, &one_particle(alloc)?)?;
    assert_eq!(rt; one.len(), 1);
    let two = read_stream(alloc, &two_ticks(alloc, 0, 1)?)?;
    assert_eq!(rt; two.len(), 2);
    for (i, snapshot) in one.iter().chain(two.iter()).enumerate() {
        assert_eq!(rt; snapshot.tick, if i == 2 { 1 } else { 0 });
        assert_eq!(rt; snapshot.rows.as_slice(), [ROW].as_slice());
    }
    Ok(())
}

#[test]
fn reads_a_negative_momentum(rt: HostRuntime) -> Result<(), Fail> {
    let alloc = rt.alloc();
    let mut bytes = one_particle(alloc)?;
    for (i, byte) in bytes.iter_mut().enumerate() {
        if 56 <= i && i < 72 {
            *byte = 0xff;
        }
    }
    let snapshots = read_stream(alloc, &bytes)?;
    let snapshot = snapshots.get(0).ok_or("no snapshot")?;
    let row = snapshot.rows.get(0).ok_or("no row")?;
    assert_eq!(rt; row.q, [0, -1, 0]);
    Ok(())
}

#[test]
fn refuses_another_byte(rt: HostRuntime) -> Result<(), Fail> {
    let alloc = rt.alloc();
    let cases = [
        (0, 0x52, Magic(0)),
        (10, 2, Range(8)),
        (12, 0, Range(12)),
        (12, 2, Range(100)),
        (13, 0xff, Range(12)),
        (16, 2, Range(16)),
        (20, 0, Range(20)),
        (26, 3, Range(24)),
        (30, 0x10, Range(28)),
        (52, 1, Range(40)),
        (71, 0x80, Range(56)),
        (88, 19, Range(88)),
        (95, 0x20, Range(88)),
        (96, 11, Range(96)),
        (107, 0, Magic(100)),
    ];
    for (at, other, fault) in cases {
        let mut bytes = one_particle(alloc)?;
        if let Some(byte) = bytes.get_mut(at) {
            *byte = other;
        }
        let refusal = read_stream(alloc, &bytes).err();
        assert!(rt; refusal == Some(fault), "at {at}");
    }
    Ok(())
}

#[test]
fn refuses_other_lengths(rt: HostRuntime) -> Result<(), Fail> {
    let alloc = rt.alloc();
    let cuts = [
        (0, 0),
        (7, 0),
        (8, 8),
        (15, 12),
        (99, 96),
        (100, 100),
        (107, 100),
    ];
    for (length, at) in cuts {
        let mut bytes = one_particle(alloc)?;
        bytes.truncate(length);
        let refusal = read_stream(alloc, &bytes).err();
        assert!(rt; refusal == Some(Short(at)), "of {length}");
    }
    let mut longer = one_particle(alloc)?;
    longer.push(0)?;
    assert!(rt; read_stream(alloc, &longer).err() == Some(Trailing(108)));
    Ok(())
}

#[test]
fn refuses_what_is_out_of_order(rt: HostRuntime) -> Result<(), Fail> {
    let alloc = rt.alloc();
    assert!(rt; read_stream(alloc, &END_MARK).err() == Some(Magic(0)));
    for (first, second) in [(0, 0), (7, 7), (2, 1)] {
        let bytes = two_ticks(alloc, first, second)?;
        let refusal = read_stream(alloc, &bytes).err();
        assert!(rt; refusal == Some(Range(108)), "at {first} and {second}");
    }
    Ok(())
}
