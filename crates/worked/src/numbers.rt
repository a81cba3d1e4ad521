//! Distances, the kernel, and what a pair of particles gives.
ghost use Rattle.std.specs.Prelude.{◌≡◌, ◌<◌, ◌≤◌, ◌^◌, [], ◌∷◌, pos, unsigned_abs};
ghost use Rattle.sph_num.specs.Space.{box_side};

use sph_num::{
    BOX_SIDE, Length, Particle, ParticleList, Pull, Tables, density_part, dist2, force_part,
    ghost_of, minimal, position, root,
};
use std::alloc::AllocError;

#[test]
fn takes_the_nearer_image(rt: HostRuntime) {
    for (a, b, want, square) in [
        (1000, 1512, -512, 262_144),
        (1_048_320, 256, -512, 262_144),
        (0, 524_288, -524_288, 274_877_906_944),
    ] {
        assert!(rt; a < BOX_SIDE && b < BOX_SIDE);
        assert_eq!(rt; minimal(a, b), want, "at {a}, {b}");
        assert_eq!(rt; dist2([a, 0, 0], [b, 0, 0]), square, "at {a}, {b}");
    }
}

#[test]
fn tabulates_the_kernel(rt: HostRuntime) -> Result<(), AllocError> {
    let tables = Tables::new(rt.alloc())?;
    for (s, w, u) in [(0, 1 << 30, 12_288), (512, 1 << 28, 3072), (1024, 0, 0)] {
        assert!(rt; s <= 1024);
        assert_eq!(rt; tables.w(s), w, "at {s}");
        assert_eq!(rt; tables.u(s), u, "at {s}");
    }
    Ok(())
}

#[test]
fn adds_what_the_kernel_gives(rt: HostRuntime) -> Result<(), AllocError> {
    let tables = Tables::new(rt.alloc())?;
    assert_eq!(rt; root(262_143, 1024), 511);
    assert_eq!(rt; density_part(&tables, 1, 0, 131_072), 20);
    assert_eq!(rt; density_part(&tables, 1024, 262_144, 1024), 10_937_040_896);
    let length = Length::new(1024);
    assert_eq!(rt; length.root(&tables, 262_144), 512);
    assert_eq!(rt; length.density_part(&tables, 1024, 0), 43_748_163_584);
    Ok(())
}

#[test]
fn rounds_the_ghost_down(rt: HostRuntime) {
    for (rho, want) in [
        (43_748_163_584, 1608),
        (54_685_204_480, 1286),
        (6_835_650_560, 10_294),
    ] {
        assert!(rt; rho >= 20);
        assert_eq!(rt; ghost_of(65_536, rho), want, "at {rho}");
    }
}

#[test]
fn adds_what_each_length_gives(rt: HostRuntime) -> Result<(), AllocError> {
    let tables = Tables::new(rt.alloc())?;
    let even = force_part(&tables, [1024, 1024], [1024, 1024], [1286, 1286], 262_144);
    assert_eq!(rt; even, 1_287_692_376);
    let short = Pull::new(Length::new(1024), 1024, 1608);
    let long = Pull::new(Length::new(2048), 1024, 10_294);
    assert_eq!(rt; short.pair_factor(&tables, &long, 1_048_576), 161_055_420);
    let light = Pull::new(Length::new(1024), 1024, 1474);
    let heavy = Pull::new(Length::new(1024), 4096, 378);
    assert_eq!(rt; light.pair_factor(&tables, &heavy, 794 * 794), 481_719_046);
    Ok(())
}

/// A mass of 1024 at this place on the first axis, kicked at tick 0.
fn kicked(x: u32, push: i128) -> Particle
    ensures mass { result.mass ≡ 1024 }
    ensures since { result.t0 ≡ 0 }
    ensures place { result.x0 ≡ x ∷ 0 ∷ 0 ∷ [] }
    ensures momentum { result.p ≡ push ∷ pos 0 ∷ pos 0 ∷ [] }
{
    Particle {
        mass: 1024,
        h: 1024,
        x0: [x, 0, 0],
        t0: 0,
        p: [push, 0, 0],
        q: [0; 3],
        f: [0; 3],
        rho: 0,
        g: 0,
        bin: 0,
    }
}

/// Where such a mass is one tick later.
fn after_a_tick(x: u32, push: i128, shift: u32) -> [u32; 3]
    requires x { x < box_side }
    requires push { unsigned_abs push < 2 ^ 96 }
    requires shift { shift ≤ 60 }
{
    position(&kicked(x, push), 1, shift)
}

#[test]
fn rounds_a_drift_down(rt: HostRuntime) {
    assert_eq!(rt; after_a_tick(1000, -659_298_496_512, 20), [385, 0, 0]);
    assert_eq!(rt; after_a_tick(1512, 659_298_496_512, 20), [2126, 0, 0]);
    assert_eq!(rt; after_a_tick(1512, 1_211_960_844_288, 22), [1794, 0, 0]);
    assert_eq!(rt; after_a_tick(1_048_575, 659_298_496_512, 20), [613, 0, 0]);
    assert_eq!(rt; after_a_tick(100, -659_298_496_512, 20), [1_048_061, 0, 0]);
}

#[test]
fn keeps_the_order_of_the_deck(rt: HostRuntime) -> Result<(), AllocError> {
    let first = kicked(1000, 0);
    let second = kicked(1512, 0);
    let list = ParticleList::from_vec(vec![in rt.alloc(); first, second]?);
    assert_eq!(rt; list.len(), 2);
    assert_eq!(rt; list.get(1), Some(&second));
    assert_eq!(rt; list.get(2), None);
    assert_eq!(rt; list.as_slice(), [first, second].as_slice());
    Ok(())
}
