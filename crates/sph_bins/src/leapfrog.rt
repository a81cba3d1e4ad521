//! The kick of a particle by the force on it.
ghost use Rattle.std.specs.Prelude.{◌≡◌, ℕ, ◌<◌, ◌≤◌, ◌^◌, pos, ◌+ℤ◌, ◌*ℤ◌, unsigned_abs};
ghost use Rattle.sph_num.specs.Motion.{IsMomentum, pushed};
ghost use Rattle.sph_num.specs.Totals.{component};
ghost use Rattle.sph_bins.specs.Bins.{IsDue};
ghost use Rattle.sph_bins.specs.Kick.{kicked_with, momentum_at, place_at};

use crate::bins::choose;
use sph_num::{Params, Particle, greatest_size};

/// Kicks a particle that is due at tick `t`, in place, by the force `f` on it and with the ghost `g`: the
/// second half of the step that ends there, but for tick 0, and the first half of the next. It stands at
/// `place` at the tick, and has the tick's density already.
pub fn kick(params: &Params, t: u32, place: [u32; 3], f: [i128; 3], g: u64, particle: &mut Particle)
    requires bins { params.now.bin_min ≤ params.now.bin_max }
    requires bin_max { params.now.bin_max ≤ 10 }
    requires tick { IsDue t params.now.bin_min }
    requires bin { particle.old.bin ≤ 10 }
    requires place { place ≡ place_at params.now t particle.old }
    requires force { IsMomentum f }
    requires momentum { IsMomentum particle.old.p }
    ensures { particle.new ≡ kicked_with params.now t particle.old particle.old.rho g f }
{
    let bin = choose(t, greatest_size(&f), particle.mass, particle.h, params);
    let q = momentum(t, particle, f);
    *particle = Particle {
        x0: place,
        t0: t,
        p: pushed(q, f, bin),
        q,
        f,
        g,
        bin,
        ..*particle
    };
}

/// The momentum at the tick, at the end of the step before it; tick 0 has none before it.
#[inline]
fn momentum(t: u32, particle: &Particle, f: [i128; 3]) -> [i128; 3]
    requires bin { particle.now.bin ≤ 10 }
    requires force { IsMomentum f }
    requires momentum { IsMomentum particle.now.p }
    ensures value { result ≡ momentum_at t particle.now f }
    ensures below { (axis : ℕ) → unsigned_abs (component result axis) < 2 ^ 110 }
{
    if t == 0 {
        particle.p
    } else {
        pushed(particle.p, f, particle.bin)
    }
}

/// A momentum after a force of `2^bin` ticks.
#[inline]
fn pushed(p: [i128; 3], f: [i128; 3], bin: u32) -> [i128; 3]
    requires momentum { (axis : ℕ) → unsigned_abs (component p axis) < 2 ^ 110 }
    requires force { IsMomentum f }
    requires bin { bin ≤ 10 }
    ensures { result ≡ pushed p f (2 ^ bin) }
{
    let ticks = 1 << bin;
    let [px, py, pz] = p;
    let [fx, fy, fz] = f;
    [
        pushed_along(px, fx, ticks),
        pushed_along(py, fy, ticks),
        pushed_along(pz, fz, ticks),
    ]
}

/// A component after so many ticks.
#[inline]
fn pushed_along(p: i128, f: i128, ticks: u32) -> i128
    requires momentum { unsigned_abs p < 2 ^ 110 }
    requires force { unsigned_abs f < 2 ^ 96 }
    requires ticks { ticks ≤ 1024 }
    ensures value { result ≡ p +ℤ (f *ℤ pos ticks) }
    ensures small { unsigned_abs result < 2 ^ 111 }
{
    p + f * i128::from(ticks)
}
