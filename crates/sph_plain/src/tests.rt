//! Worked decks of particles on the x axis, step by step.
ghost use Rattle.std.specs.Prelude.{◌≡◌, ◌+◌, ◌≤◌, OnOk};
ghost use Rattle.sph_plain.specs.Run.{before};

use crate::{plain_step, runs_stay_in_bounds, start};
use sph_deck::{Deck, read_deck};
use sph_num::Particle;
use std::alloc::{AllocError, Global};
use std::test::Fail;

/// What no deck here changes.
const TOP: &str = "bin_min = 0\nsound = 65536\nleaf = 16\npairs = 4096\nslack = 0\n";

/// The rest of a particle on the x axis.
const ON_X: &str = "y = 0\nz = 0\npy = 0\npz = 0\n";

/// Steps of one tick, however strong the force.
const ONE_BIN: &str = "every = 1\nbin_max = 0\nshift = 20\naccuracy = 0\n";

/// What a step leaves of a particle, on the x axis.
#[derive(Clone, Copy, Debug, PartialEq, Eq)]
struct Left {
    x: u32,
    rho: u64,
    g: u64,
    f: i128,
    q: i128,
    p: i128,
    bin: u32,
}

fn on_x(particle: &Particle) -> Left {
    Left {
        x: particle.x0[0],
        rho: particle.rho,
        g: particle.g,
        f: particle.f[0],
        q: particle.q[0],
        p: particle.p[0],
        bin: particle.bin,
    }
}

/// A deck of particles on the x axis, each by its mass, its smoothing length, its x and its px.
fn deck(
    alloc: Global,
    ticks: u32,
    numbers: &str,
    bodies: &[(u32, u32, u32, i64)],
) -> Result<Deck, Fail> {
    let mut text = format!(in alloc; "ticks = {ticks}\n{TOP}{numbers}")?;
    for (mass, h, x, px) in bodies {
        let row = format!(in alloc;
            "[[particle]]\nmass = {mass}\nh = {h}\nx = {x}\npx = {px}\n{ON_X}"
        )?;
        text.push_str(row.as_str())?;
    }
    Ok(read_deck(alloc, text.as_bytes()).ok().ok_or("refused")?)
}

/// The step at tick `t` of a deck whose steps stand at every tick.
fn step(alloc: Global, deck: &Deck, particles: &mut Vec<Particle>, t: u32) -> Result<(), AllocError>
    requires every_tick { deck.now.params.bin_min ≡ 0 }
    requires within { t ≤ deck.now.params.ticks }
    requires before { particles.old.items ≡ before deck.now t }
    ensures { OnOk result (particles.new.items ≡ before deck.now (t + 1)) }
{
    runs_stay_in_bounds();
    plain_step(alloc, deck, particles, t)
}

/// What each step of the deck leaves of the particles, one after another.
fn steps(alloc: Global, deck: &Deck) -> Result<Vec<Left>, AllocError>
    requires { deck.now.params.bin_min ≡ 0 }
{
    let mut rows = Vec::new(alloc);
    let mut particles = start(alloc, deck)?;
    for t in 0..deck.params.ticks + 1 {
        step(alloc, deck, &mut particles, t)?;
        for particle in &particles {
            rows.push(on_x(particle))?;
        }
    }
    Ok(rows)
}

#[test]
fn pushes_a_pair_apart(rt: HostRuntime) -> Result<(), Fail> {
    let first = Left {
        x: 1000,
        rho: 54_685_204_480,
        g: 1286,
        f: -659_298_496_512,
        q: 0,
        p: -659_298_496_512,
        bin: 0,
    };
    let second = Left {
        x: 1512,
        f: 659_298_496_512,
        p: 659_298_496_512,
        ..first
    };
    let first_alone = Left {
        x: 385,
        rho: 43_748_163_584,
        g: 1608,
        f: 0,
        q: -659_298_496_512,
        ..first
    };
    let second_alone = Left {
        x: 2126,
        q: 659_298_496_512,
        p: 659_298_496_512,
        ..first_alone
    };
    let one_step = [first, second];
    let two_steps = [first, second, first_alone, second_alone];
    for (ticks, want) in [(0, one_step.as_slice()), (1, two_steps.as_slice())] {
        let deck = deck(
            rt.alloc(),
            ticks,
            ONE_BIN,
            &[(1024, 1024, 1000, 0), (1024, 1024, 1512, 0)],
        )?;
        assert!(rt; deck.params.bin_min == 0);
        let rows = steps(rt.alloc(), &deck)?;
        assert_eq!(rt; rows.as_slice(), want, "after {ticks} ticks");
    }
    Ok(())
}

#[test]
fn kicks_only_who_is_due(rt: HostRuntime) -> Result<(), Fail> {
    let numbers = "every = 2\nbin_max = 1\nshift = 22\naccuracy = 1200000\n";
    let pair = [(1024, 1024, 1512, 0), (4096, 1024, 1000, 2_423_921_688_576)];
    let deck = deck(rt.alloc(), 2, numbers, &pair)?;
    assert!(rt; deck.params.bin_min == 0);
    let light = Left {
        x: 1512,
        rho: 87_496_327_168,
        g: 804,
        f: 1_211_960_844_288,
        q: 0,
        p: 1_211_960_844_288,
        bin: 0,
    };
    let heavy = Left {
        x: 1000,
        rho: 185_929_695_232,
        g: 378,
        f: -1_211_960_844_288,
        q: 2_423_921_688_576,
        p: 0,
        bin: 1,
    };
    let light_kicked = Left {
        x: 1794,
        rho: 47_713_987_728,
        g: 1474,
        f: 382_484_922_524,
        q: 1_594_445_766_812,
        p: 1_976_930_689_336,
        bin: 0,
    };
    let light_alone = Left {
        x: 2254,
        rho: 43_748_163_584,
        g: 1608,
        f: 0,
        q: 1_976_930_689_336,
        p: 1_976_930_689_336,
        bin: 1,
    };
    let heavy_alone = Left {
        x: 1000,
        rho: 174_992_654_336,
        g: 402,
        f: 0,
        q: 0,
        p: 0,
        bin: 1,
    };
    let want = [light, heavy, light_kicked, heavy, light_alone, heavy_alone];
    let rows = steps(rt.alloc(), &deck)?;
    assert_eq!(rt; rows.as_slice(), want.as_slice());
    Ok(())
}

/// A particle of mass 1024 at rest at tick 0, by its x, its density, its ghost and the force on it.
const fn pressed(x: u32, rho: u64, g: u64, f: i128) -> Left {
    Left {
        x,
        rho,
        g,
        f,
        q: 0,
        p: f,
        bin: 0,
    }
}

#[test]
fn presses_by_distance_and_length(rt: HostRuntime) -> Result<(), Fail> {
    let alone = 43_748_163_584;
    let near = 54_685_204_480;
    let cases = [
        (
            "across the face",
            [(1024, 1024, 1_048_320, 0), (1024, 1024, 256, 0)],
            [
                pressed(1_048_320, near, 1286, -659_298_496_512),
                pressed(256, near, 1286, 659_298_496_512),
            ],
        ),
        (
            "at exact reach",
            [(1024, 1024, 1000, 0), (1024, 1024, 2024, 0)],
            [pressed(1000, alone, 1608, 0), pressed(2024, alone, 1608, 0)],
        ),
        (
            "within one length",
            [(1024, 1024, 1000, 0), (1024, 2048, 2024, 0)],
            [
                pressed(1000, alone, 1608, -164_920_750_080),
                pressed(2024, 6_835_650_560, 10_294, 164_920_750_080),
            ],
        ),
    ];
    for (name, [first, second], want) in cases {
        let deck = deck(rt.alloc(), 0, ONE_BIN, &[first, second])?;
        assert!(rt; deck.params.bin_min == 0);
        let rows = steps(rt.alloc(), &deck)?;
        assert_eq!(rt; rows.as_slice(), want.as_slice(), "{name}");
    }
    let one = deck(rt.alloc(), 0, ONE_BIN, &[(1024, 1024, 0, 0)])?;
    assert!(rt; one.params.bin_min == 0);
    let rows = steps(rt.alloc(), &one)?;
    assert_eq!(rt; rows.as_slice(), [pressed(0, alone, 1608, 0)].as_slice());
    Ok(())
}

#[test]
fn kicks_the_light_one_at_each_tick(rt: HostRuntime) -> Result<(), Fail> {
    let numbers = "every = 8\nbin_max = 3\nshift = 60\naccuracy = 1861822\n";
    let pair = [
        (1024, 1024, 1512, 0),
        (65_536, 1024, 1000, 17_592_186_044_416),
    ];
    let deck = deck(rt.alloc(), 8, numbers, &pair)?;
    assert!(rt; deck.params.bin_min == 0);
    let light = pressed(1512, 743_718_780_928, 94, 1_952_261_799_936);
    let heavy = Left {
        x: 1000,
        rho: 2_810_819_510_272,
        g: 25,
        f: -1_952_261_799_936,
        q: 17_592_186_044_416,
        p: 1_974_091_644_928,
        bin: 3,
    };
    let rows = steps(rt.alloc(), &deck)?;
    assert_eq!(rt; rows.len(), 18);
    assert!(rt; rows.first() == Some(&light));
    for t in 0..8usize {
        assert!(rt; rows.get(2 * t + 1) == Some(&heavy), "at {t}");
    }
    let light_last = rows.get(16).ok_or("light")?;
    assert_eq!(rt; light_last.q, 31_236_188_798_976);
    assert_eq!(rt; light_last.bin, 0);
    let heavy_last = rows.get(17).ok_or("heavy")?;
    assert_eq!(rt; heavy_last.q, -13_644_002_754_560);
    assert_eq!(rt; heavy_last.bin, 3);
    Ok(())
}

#[test]
fn forty_at_one_point_push_none(rt: HostRuntime) -> Result<(), Fail> {
    let deck = deck(rt.alloc(), 0, ONE_BIN, &[(1, 131_072, 0, 0); 40])?;
    assert!(rt; deck.params.bin_min == 0);
    let mut particles = start(rt.alloc(), &deck)?;
    step(rt.alloc(), &deck, &mut particles, 0)?;
    assert_eq!(rt; particles.len(), 40);
    assert!(rt;
        particles
            .iter()
            .all(|particle| particle.rho == 800 && particle.f == [0; 3])
    );
    Ok(())
}
