//! Whole runs of worked decks: their snapshots, read back from the stream.
use crate::tests::{Body, LIGHT, ONE_SNAPSHOT, Top, deck, do_job};
use sph_snap::{Snapshot, read_stream};
use sph_top::Status;
use std::alloc::Global;
use std::test::Fail;

/// A row of a snapshot: x, the momentum on x, the density, the bin.
type Row = (u32, i128, u64, u32);

/// A deck, how many snapshots it has, and the rows of its first and of its last one, with that one's tick.
#[derive(Clone, Copy)]
struct Worked {
    name: &'static str,
    top: Top,
    bodies: &'static [Body],
    snapshots: usize,
    first: &'static [Row],
    last: (u32, &'static [Row]),
}

/// A particle at rest of mass and smoothing length 1024.
pub(crate) const REST: Body = Body {
    mass: 1_024,
    h: 1_024,
    x: 0,
    px: 0,
};

/// The density of a particle of that kind alone, and with one at half its length.
const ALONE: u64 = 43_748_163_584;

const PAIR: u64 = 54_685_204_480;

const ONE: Worked = Worked {
    name: "one particle",
    top: ONE_SNAPSHOT,
    bodies: &[REST],
    snapshots: 1,
    first: &[(0, 0, ALONE, 0)],
    last: (0, &[(0, 0, ALONE, 0)]),
};

const HALF_REACH: Worked = Worked {
    name: "a pair at half reach",
    top: Top {
        ticks: 1,
        ..ONE_SNAPSHOT
    },
    bodies: &[Body { x: 1_000, ..REST }, Body { x: 1_512, ..REST }],
    snapshots: 2,
    first: &[(1_000, 0, PAIR, 0), (1_512, 0, PAIR, 0)],
    last: (
        1,
        &[
            (385, -659_298_496_512, ALONE, 0),
            (2_126, 659_298_496_512, ALONE, 0),
        ],
    ),
};

const ACROSS_THE_FACE: Worked = Worked {
    name: "a pair across the face",
    top: ONE_SNAPSHOT,
    bodies: &[
        Body {
            x: 1_048_320,
            ..REST
        },
        Body { x: 256, ..REST },
    ],
    snapshots: 1,
    first: &[(1_048_320, 0, PAIR, 0), (256, 0, PAIR, 0)],
    last: (0, &[(1_048_320, 0, PAIR, 0), (256, 0, PAIR, 0)]),
};

const EXACT_REACH: Worked = Worked {
    name: "a pair at exact reach",
    top: ONE_SNAPSHOT,
    bodies: &[Body { x: 1_000, ..REST }, Body { x: 2_024, ..REST }],
    snapshots: 1,
    first: &[(1_000, 0, ALONE, 0), (2_024, 0, ALONE, 0)],
    last: (0, &[(1_000, 0, ALONE, 0), (2_024, 0, ALONE, 0)]),
};

const TWO_LENGTHS: Worked = Worked {
    name: "two lengths",
    top: ONE_SNAPSHOT,
    bodies: &[
        Body { x: 1_000, ..REST },
        Body {
            h: 2_048,
            x: 2_024,
            ..REST
        },
    ],
    snapshots: 1,
    first: &[(1_000, 0, ALONE, 0), (2_024, 0, 6_835_650_560, 0)],
    last: (0, &[(1_000, 0, ALONE, 0), (2_024, 0, 6_835_650_560, 0)]),
};

/// Nothing moves, and the first particle alone is kicked at ticks 1 to 7.
const TWO_BINS: Worked = Worked {
    name: "two bins",
    top: Top {
        ticks: 8,
        every: 8,
        bin_min: 0,
        bin_max: 3,
        shift: 60,
        accuracy: 1_861_822,
        ..ONE_SNAPSHOT
    },
    bodies: &[
        Body { x: 1_512, ..REST },
        Body {
            mass: 65_536,
            x: 1_000,
            px: 17_592_186_044_416,
            ..REST
        },
    ],
    snapshots: 2,
    first: &[
        (1_512, 0, 743_718_780_928, 0),
        (1_000, 17_592_186_044_416, 2_810_819_510_272, 3),
    ],
    last: (
        8,
        &[
            (1_512, 31_236_188_798_976, 743_718_780_928, 0),
            (1_000, -13_644_002_754_560, 2_810_819_510_272, 3),
        ],
    ),
};

/// At tick 1 the first particle alone is due, and the second's ghost is the one that it kept.
const KEPT_GHOST: Worked = Worked {
    name: "a kept ghost",
    top: Top {
        ticks: 2,
        every: 2,
        bin_min: 0,
        bin_max: 1,
        shift: 22,
        accuracy: 1_200_000,
        ..ONE_SNAPSHOT
    },
    bodies: &[
        Body { x: 1_512, ..REST },
        Body {
            mass: 4_096,
            x: 1_000,
            px: 2_423_921_688_576,
            ..REST
        },
    ],
    snapshots: 2,
    first: &[
        (1_512, 0, 87_496_327_168, 0),
        (1_000, 2_423_921_688_576, 185_929_695_232, 1),
    ],
    last: (
        2,
        &[
            (2_254, 1_976_930_689_336, ALONE, 1),
            (1_000, 0, 174_992_654_336, 1),
        ],
    ),
};

/// The pair at half reach in steps of two ticks, at half the speed: the same moves, and twice the momenta.
const STEPS_OF_TWO: Worked = Worked {
    name: "steps of two ticks",
    top: Top {
        ticks: 2,
        every: 2,
        bin_min: 1,
        bin_max: 1,
        shift: 22,
        ..ONE_SNAPSHOT
    },
    bodies: &[Body { x: 1_000, ..REST }, Body { x: 1_512, ..REST }],
    snapshots: 2,
    first: &[(1_000, 0, PAIR, 1), (1_512, 0, PAIR, 1)],
    last: (
        2,
        &[
            (385, -1_318_596_993_024, ALONE, 1),
            (2_126, 1_318_596_993_024, ALONE, 1),
        ],
    ),
};

/// Whether the snapshot has this tick and these rows.
fn is_as_worked(snapshot: &Snapshot, tick: u32, rows: &[Row]) -> bool {
    snapshot.tick == tick
        && snapshot.rows.len() == rows.len()
        && snapshot.rows.as_slice().iter().zip(rows).all(|(row, want)| (
            row.x[0], row.q[0], row.rho, row.bin,
        ) == *want)
}

/// The snapshots of a stream.
fn snapshots(alloc: Global, stream: &[u8]) -> Result<Vec<Snapshot>, Fail> {
    Ok(read_stream(alloc, stream).ok().ok_or("no stream")?)
}

#[test]
fn worked_decks(rt: HostRuntime) -> Result<(), Fail> {
    let alloc = rt.alloc();
    for worked in [
        ONE,
        HALF_REACH,
        ACROSS_THE_FACE,
        EXACT_REACH,
        TWO_LENGTHS,
        TWO_BINS,
        KEPT_GHOST,
        STEPS_OF_TWO,
    ] {
        let name = worked.name;
        let text = deck(alloc, worked.top, worked.bodies)?;
        let run = do_job(&rt, alloc, "run", text.as_str())?;
        assert_eq!(rt; run.status, Status::Done, "{name}");
        assert!(rt; run.err.held().is_empty(), "{name}");
        let read = snapshots(alloc, run.out.held())?;
        assert_eq!(rt; read.len(), worked.snapshots, "{name}");
        let first = read.first().ok_or("no snapshot")?;
        let last = read.last().ok_or("no snapshot")?;
        assert!(rt; is_as_worked(first, 0, worked.first), "first of {name}");
        assert!(rt;
            is_as_worked(last, worked.last.0, worked.last.1),
            "last of {name}"
        );
        let plain = do_job(&rt, alloc, "plain", text.as_str())?;
        assert_eq!(rt; plain.status, Status::Done, "{name}");
        assert!(rt; plain.out.held() == run.out.held(), "{name}");
    }
    Ok(())
}

#[test]
fn streams_have_their_lengths(rt: HostRuntime) -> Result<(), Fail> {
    let alloc = rt.alloc();
    let pair = deck(alloc, HALF_REACH.top, HALF_REACH.bodies)?;
    let run = do_job(&rt, alloc, "run", pair.as_str())?;
    assert_eq!(rt; run.out.held().len(), 376);

    // A deck of longer steps with no tick to go has one snapshot.
    let top = Top {
        every: 4,
        bin_max: 2,
        ..ONE_SNAPSHOT
    };
    let one = deck(alloc, top, &[LIGHT])?;
    let run = do_job(&rt, alloc, "run", one.as_str())?;
    assert_eq!(rt; run.status, Status::Done);
    assert_eq!(rt; snapshots(alloc, run.out.held())?.len(), 1);
    Ok(())
}

#[test]
fn forty_at_one_point(rt: HostRuntime) -> Result<(), Fail> {
    let alloc = rt.alloc();
    let text = deck(alloc, ONE_SNAPSHOT, &[LIGHT; 40])?;
    let run = do_job(&rt, alloc, "run", text.as_str())?;
    assert_eq!(rt; run.status, Status::Done);
    let read = snapshots(alloc, run.out.held())?;
    let rows = &read.first().ok_or("no snapshot")?.rows;
    assert_eq!(rt; rows.len(), 40);
    for row in rows.as_slice() {
        assert_eq!(rt; row.rho, 800, "at {}", row.number);
    }
    Ok(())
}

#[test]
fn checks_a_pair(rt: HostRuntime) -> Result<(), Fail> {
    let alloc = rt.alloc();
    let text = deck(alloc, ONE_SNAPSHOT, HALF_REACH.bodies)?;
    let run = do_job(&rt, alloc, "check", text.as_str())?;
    assert_eq!(rt; run.status, Status::Done);
    assert!(rt; run.out.held() == b"accepted: particles 2 bound 13190071320576\n".as_slice());
    assert!(rt; run.err.held().is_empty());
    Ok(())
}

#[test]
fn shows_the_tree_of_forty_at_one_point(rt: HostRuntime) -> Result<(), Fail> {
    let alloc = rt.alloc();
    let text = deck(alloc, ONE_SNAPSHOT, &[LIGHT; 40])?;
    let run = do_job(&rt, alloc, "tree", text.as_str())?;
    assert_eq!(rt; run.status, Status::Done);
    let want: &[u8] = b"particles 40 cells 11 leaves 1 deepest 10 largest 40\n\
          density 1 ghost 1 force 1 kick 1 edges 3 heaviest 1680\n";
    assert!(rt; run.out.held() == want);
    Ok(())
}

#[test]
fn shows_the_tree_of_a_pair(rt: HostRuntime) -> Result<(), Fail> {
    let alloc = rt.alloc();
    let top = Top {
        leaf: 1,
        pairs: 1,
        ..ONE_SNAPSHOT
    };
    let text = deck(alloc, top, HALF_REACH.bodies)?;
    let run = do_job(&rt, alloc, "tree", text.as_str())?;
    assert_eq!(rt; run.status, Status::Done);
    let want: &[u8] = b"particles 2 cells 12 leaves 2 deepest 10 largest 1\n\
          density 3 ghost 2 force 3 kick 2 edges 12 heaviest 4\n";
    assert!(rt; run.out.held() == want);
    assert!(rt; run.err.held().is_empty());
    Ok(())
}
