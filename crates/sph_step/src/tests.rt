//! Pairs of particles, prepared and stepped.
use crate::blocks::blocks_of;
use crate::stepping::{threads_for, workers_for};
use crate::{prepare, step};
use qs_gate::NoGate;
use sph_deck::{Deck, read_deck};
use sph_num::Particle;
use sph_plain::start;
use std::alloc::Global;
use std::test::Fail;

/// One step, but for how many particles may share a leaf.
const TOP: &str =
    "ticks = 0\nevery = 1\nbin_min = 0\nbin_max = 0\nsound = 65536\nshift = 20\naccuracy = 0\npairs = 4096\nslack = 0\n";

/// The rest of a particle of mass 1024 at rest on the x axis.
const AT_REST: &str = "mass = 1024\ny = 0\nz = 0\npx = 0\npy = 0\npz = 0\n";

/// Two such particles, half a smoothing length apart: each by its length and its x.
const HALF_REACH: [(u32, u32); 2] = [(1024, 1000), (1024, 1512)];

/// Two particles with at most so many in a leaf.
fn pair(alloc: Global, leaf: u32, bodies: [(u32, u32); 2]) -> Result<Deck, Fail> {
    let mut text = format!(in alloc; "leaf = {leaf}\n{TOP}")?;
    for (h, x) in bodies {
        let row = format!(in alloc; "[[particle]]\nh = {h}\nx = {x}\n{AT_REST}")?;
        text.push_str(row.as_str())?;
    }
    Ok(read_deck(alloc, text.as_bytes()).ok().ok_or("refused")?)
}

/// What the step leaves of such a particle, by its length, its x, its density, its ghost and the force on it.
const fn pressed(h: u32, x: u32, rho: u64, g: u64, f: i128) -> Particle {
    Particle {
        mass: 1024,
        h,
        x0: [x, 0, 0],
        t0: 0,
        p: [f, 0, 0],
        q: [0; 3],
        f: [f, 0, 0],
        rho,
        g,
        bin: 0,
    }
}

/// One more for each so many, from there on, and none beyond those that may.
#[test]
fn shares_out_by_tasks_and_by_particles(rt: HostRuntime) {
    for (tasks, want) in [(0, 1), (31, 1), (32, 2), (95, 3), (96, 4), (u32::MAX, 4)] {
        assert_eq!(rt; workers_for(tasks, 4), want, "{tasks} tasks");
    }
    for (particles, want) in [
        (0, 1),
        (8_191, 1),
        (8_192, 2),
        (24_575, 3),
        (24_576, 4),
        (32_768, 4),
    ] {
        assert_eq!(rt; threads_for(particles, 4), want, "{particles} particles");
    }
}

/// Five particles in a row, a smoothing length apart, each in a leaf of its own.
fn row(alloc: Global) -> Result<Deck, Fail> {
    let mut text = format!(in alloc; "leaf = 1\n{TOP}")?;
    for x in [1000_u32, 2024, 3048, 4072, 5096] {
        let row = format!(in alloc; "[[particle]]\nh = 1024\nx = {x}\n{AT_REST}")?;
        text.push_str(row.as_str())?;
    }
    Ok(read_deck(alloc, text.as_bytes()).ok().ok_or("refused")?)
}

/// By fewer threads than there are leaves, as many, and more.
#[test]
fn threads_make_the_same_blocks(rt: HostRuntime) -> Result<(), Fail> {
    let alloc = rt.alloc();
    let deck = row(alloc)?;
    let particles = start(alloc, &deck)?;
    let (stage, blocks) = prepare(alloc, &deck, &particles, 0)?;
    assert_eq!(rt; blocks.len(), 5);
    for threads in [1, 2, 3, 5, 7] {
        let made = blocks_of(&rt, alloc, &stage, threads)?;
        assert_eq!(rt; made.len(), 5, "{threads} threads");
        for (one, other) in made.iter().zip(blocks.iter()) {
            assert_eq!(rt; one.leaf, other.leaf, "{threads} threads");
            assert_eq!(rt;
                one.members.as_slice(),
                other.members.as_slice(),
                "{threads} threads"
            );
            assert_eq!(rt;
                one.moving.as_slice(),
                other.moving.as_slice(),
                "{threads} threads"
            );
        }
    }
    Ok(())
}

/// A pair by its length and place each, and what a step leaves of it.
type Worked = (&'static str, [(u32, u32); 2], [Particle; 2]);

/// The worked pairs.
fn worked_pairs() -> [Worked; 4] {
    let alone = 43_748_163_584;
    let near = 54_685_204_480;
    [
        (
            "at half reach",
            HALF_REACH,
            [
                pressed(1024, 1000, near, 1286, -659_298_496_512),
                pressed(1024, 1512, near, 1286, 659_298_496_512),
            ],
        ),
        (
            "across the face",
            [(1024, 1_048_320), (1024, 256)],
            [
                pressed(1024, 1_048_320, near, 1286, -659_298_496_512),
                pressed(1024, 256, near, 1286, 659_298_496_512),
            ],
        ),
        (
            "at exact reach",
            [(1024, 1000), (1024, 2024)],
            [
                pressed(1024, 1000, alone, 1608, 0),
                pressed(1024, 2024, alone, 1608, 0),
            ],
        ),
        (
            "within one length",
            [(1024, 1000), (2048, 2024)],
            [
                pressed(1024, 1000, alone, 1608, -164_920_750_080),
                pressed(2048, 2024, 6_835_650_560, 10_294, 164_920_750_080),
            ],
        ),
    ]
}

/// In one leaf, and in one each.
#[test]
fn steps_pairs(rt: HostRuntime) -> Result<(), Fail> {
    let alloc = rt.alloc();
    for (name, bodies, want) in worked_pairs() {
        for leaf in [16, 1] {
            let deck = pair(alloc, leaf, bodies)?;
            let mut particles = start(alloc, &deck)?;
            step(&rt, alloc, &deck, &mut particles, 0, 1, &NoGate)?;
            assert_eq!(rt;
                particles.as_slice(),
                want.as_slice(),
                "{name}, {leaf} in a leaf"
            );
        }
    }
    Ok(())
}
