//! Whole runs over a sink in memory.
use crate::{Form, RunEnd, run_plain};
use sph_deck::read_deck;
use sph_edge::MemorySink;
use std::alloc::{AllocError, Global};
use std::test::Fail;

/// The numbers that all decks share, and two particles at rest, half a smoothing length apart.
const PAIR: &str =
    "bin_min = 0\nsound = 65536\nshift = 20\naccuracy = 0\nleaf = 16\npairs = 4096\nslack = 0\n[[particle]]\nmass = 1024\nh = 1024\nx = 1000\ny = 0\nz = 0\npx = 0\npy = 0\npz = 0\n[[particle]]\nmass = 1024\nh = 1024\nx = 1512\ny = 0\nz = 0\npx = 0\npy = 0\npz = 0\n";

/// The sums over the two particles, which push each other by opposite forces.
const SUMMARY: &[u8] =
    b"tick 0 rho 109370408960 qx 0 qy 0 qz 0\ntick 1 rho 87496327168 qx 0 qy 0 qz 0\n";

fn pair(alloc: Global, ticks: u32, every: u32, bin_max: u32) -> Result<String, AllocError> {
    format!(in alloc; "ticks = {ticks}\nevery = {every}\nbin_max = {bin_max}\n{PAIR}")
}

/// A snapshot of two particles takes 184 bytes, the end mark 8.
#[test]
fn writes_each_snapshot(rt: HostRuntime) -> Result<(), Fail> {
    let alloc = rt.alloc();
    for (ticks, every, bin_max, room, end, held) in [
        (1, 1, 0, 1000, RunEnd::Done, 376),
        (0, 4, 2, 1000, RunEnd::Done, 192),
        (1, 1, 0, 376, RunEnd::Done, 376),
        (1, 1, 0, 200, RunEnd::WriteFault, 200),
    ] {
        let text = pair(alloc, ticks, every, bin_max)?;
        let deck = read_deck(alloc, text.as_bytes()).ok().ok_or("refused")?;
        let mut out = MemorySink::new(alloc, room, 100, Vec::new(alloc))?;
        assert_eq!(rt;
            run_plain(alloc, &deck, Form::Snapshots, &mut out),
            end,
            "to {ticks}"
        );
        assert_eq!(rt; out.held().len(), held, "to {ticks}");
    }
    Ok(())
}

#[test]
fn sums_up_each_snapshot(rt: HostRuntime) -> Result<(), Fail> {
    let alloc = rt.alloc();
    let text = pair(alloc, 1, 1, 0)?;
    let deck = read_deck(alloc, text.as_bytes()).ok().ok_or("refused")?;
    let mut out = MemorySink::new(alloc, 1000, 100, Vec::new(alloc))?;
    assert_eq!(rt;
        run_plain(alloc, &deck, Form::Summary, &mut out),
        RunEnd::Done
    );
    assert!(rt; out.held() == SUMMARY);
    Ok(())
}
