//! A run from bytes to bytes.
use crate::bytes::run_bytes_past;
use crate::{RunRefusal, run_bytes};
use qs_gate::CrowdGate;
use sph_deck::DeckFault;
use sph_lattice::lattice;
use std::test::Fail;

/// One particle of mass 1 and h 131072 at the origin, at rest, and one snapshot.
const DECK: &str =
    "ticks = 0\nevery = 1\nbin_min = 0\nbin_max = 0\nsound = 65536\nshift = 20\naccuracy = 0\nleaf = 16\npairs = 4096\nslack = 0\n[[particle]]\nmass = 1\nh = 131072\nx = 0\ny = 0\nz = 0\npx = 0\npy = 0\npz = 0\n";

/// Its stream.
const STREAM: [u8; 108] = [
    0x53, 0x50, 0x48, 0x53, 0x4e, 0x41, 0x50, 0x31, 0, 0, 0, 0, 1, 0, 0, 0, //
    1, 0, 0, 0, 1, 0, 0, 0, 0, 0, 2, 0, 0, 0, 0, 0, 0, 0, 0, 0, 0, 0, 0, 0, //
    0, 0, 0, 0, 0, 0, 0, 0, 0, 0, 0, 0, 0, 0, 0, 0, //
    0, 0, 0, 0, 0, 0, 0, 0, 0, 0, 0, 0, 0, 0, 0, 0, //
    0, 0, 0, 0, 0, 0, 0, 0, 0, 0, 0, 0, 0, 0, 0, 0, //
    0x14, 0, 0, 0, 0, 0, 0, 0, 0, 0, 0, 0, //
    0x53, 0x50, 0x48, 0x53, 0x4e, 0x45, 0x4e, 0x44,
];

/// No contract can say that ample memory is not refused.
#[test]
fn runs_bytes_by_any_number_of_workers(rt: HostRuntime) -> Result<(), Fail> {
    let alloc = rt.alloc();
    for workers in [0, 2, u32::MAX] {
        let stream = run_bytes(&rt, alloc, DECK.as_bytes(), workers)
            .ok()
            .ok_or("refused")?;
        assert!(rt; stream.as_slice() == STREAM.as_slice(), "by {workers}");
    }
    let refusal = run_bytes(&rt, alloc, b"a = ", 1).err();
    assert_eq!(rt; refusal, Some(RunRefusal::DeckRefused(DeckFault::NotToml)));
    Ok(())
}

/// No contract can say that it goes by the graph, nor by how many workers.
#[test]
fn runs_bytes_by_workers_that_meet(rt: HostRuntime) -> Result<(), Fail> {
    let alloc = rt.alloc();
    let text = lattice(alloc, 8, 7)?;
    let gate = CrowdGate::new(3, 10_000_000);
    let stream = run_bytes_past(&rt, alloc, text.as_slice(), 3, &gate);
    assert!(rt; stream.is_ok());
    assert!(rt; gate.met());
    Ok(())
}
