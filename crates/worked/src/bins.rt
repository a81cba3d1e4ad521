//! Who is due, which bin a particle takes, and what a kick leaves.
use sph_bins::{choose, due, kick, next_tick};
use sph_num::{Params, Particle, position};

const PARAMS: Params = Params {
    ticks: 8,
    every: 8,
    bin_min: 0,
    bin_max: 3,
    sound: 65_536,
    shift: 20,
    accuracy: 1_861_822,
    leaf: 16,
    pairs: 4096,
    slack: 0,
};

#[test]
fn tells_who_is_due(rt: HostRuntime) {
    for (t, bin, want) in [(8, 3, true), (4, 3, false), (0, 10, true)] {
        assert!(rt; bin <= 10);
        assert_eq!(rt; due(t, bin), want, "at {t}, {bin}");
    }
    for (t, bin_min, want) in [(0, 0, 1), (5, 2, 8), (8, 2, 12)] {
        assert!(rt; t <= 65_536 && bin_min <= 10);
        assert_eq!(rt; next_tick(t, bin_min), want, "at {t}, {bin_min}");
    }
}

#[test]
fn chooses_by_tick_and_mass(rt: HostRuntime) {
    assert_eq!(rt; choose(0, 1_952_261_799_936, 1024, 1024, &PARAMS), 0);
    assert_eq!(rt; choose(0, 1_952_261_799_936, 65_536, 1024, &PARAMS), 3);
    let two_bins = Params {
        bin_max: 1,
        accuracy: 1_200_000,
        ..PARAMS
    };
    for (t, mass, want) in [(0, 1024, 0), (0, 4096, 1), (1, 4096, 0)] {
        assert!(rt; mass >= 1024);
        assert_eq!(rt;
            choose(t, 1_211_960_844_288, mass, 1024, &two_bins),
            want,
            "at {t}, {mass}"
        );
    }
}

/// The first of a pair at half reach.
const FIRST: Particle = Particle {
    mass: 1024,
    h: 1024,
    x0: [1000, 0, 0],
    t0: 0,
    p: [0; 3],
    q: [0; 3],
    f: [0; 3],
    rho: 54_685_204_480,
    g: 0,
    bin: 0,
};

#[test]
fn kicks_by_half_a_step_and_then_by_a_whole_one(rt: HostRuntime) {
    let params = Params {
        bin_max: 0,
        accuracy: 0,
        ..PARAMS
    };
    let force = [-659_298_496_512, 0, 0];
    let mut particle = FIRST;
    let place = position(&particle, 0, params.shift);
    kick(&params, 0, place, force, 1286, &mut particle);
    let want = Particle {
        p: force,
        f: force,
        g: 1286,
        ..FIRST
    };
    assert_eq!(rt; particle, want);

    let mut particle = Particle { p: force, ..FIRST };
    let place = position(&particle, 1, params.shift);
    assert_eq!(rt; place, [385, 0, 0]);
    kick(&params, 1, place, [0; 3], 1608, &mut particle);
    assert_eq!(rt; particle.x0, [385, 0, 0]);
    assert_eq!(rt; particle.t0, 1);
    assert_eq!(rt; particle.q, force);
    assert_eq!(rt; particle.p, force);
}
