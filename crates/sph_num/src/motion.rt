//! Where a particle is between its kicks.
ghost use Rattle.std.specs.Prelude.{◌≡◌, ◌+◌, ◌^◌, ◌<◌, ◌≤◌, pos, ◌+ℤ◌, ◌*ℤ◌, ◌<ℤ◌, unsigned_abs};
ghost use Rattle.std.specs.Int.{int_div_euclid, int_rem_euclid};
ghost use Rattle.sph_num.specs.Motion.{position_of, IsMomentum};
ghost use Rattle.sph_num.specs.Ranges.{IsMass};
ghost use Rattle.sph_num.specs.Space.{IsPlace, box_side};

use crate::particle::Particle;
use crate::space::BOX_SIDE;

/// The place of a particle at tick `t`, in length units: since its last kick it drifts with its momentum,
/// round the box. A momentum p moves a mass m by `p / (m * 2^shift)` length units in a tick.
pub fn position(particle: &Particle, t: u32, shift: u32) -> [u32; 3]
    requires since { particle.now.t0 ≤ t }
    requires soon { t ≤ particle.now.t0 + 1024 }
    requires momentum { IsMomentum particle.now.p }
    requires mass { IsMass particle.now.mass }
    requires place { IsPlace particle.now.x0 }
    requires shift { shift ≤ 60 }
    ensures value { result ≡ position_of shift t particle.now }
    ensures place { IsPlace result }
{
    let since = t - particle.t0;
    let inertia = i128::from(particle.mass) << shift;
    let [px, py, pz] = particle.p;
    let [x, y, z] = particle.x0;
    [
        drifted(x, px, since, inertia),
        drifted(y, py, since, inertia),
        drifted(z, pz, since, inertia),
    ]
}

/// How many length units a momentum moves a particle in so many ticks, rounded down.
#[inline]
fn drift(p: i128, ticks: u32, inertia: i128) -> i128
    requires momentum { unsigned_abs p < 2 ^ 96 }
    requires ticks { ticks ≤ 1024 }
    requires inertia { pos 0 <ℤ inertia }
    ensures value { result ≡ int_div_euclid (p *ℤ pos ticks) inertia }
    ensures small { unsigned_abs result < 2 ^ 106 }
{
    (p * i128::from(ticks)).div_euclid(inertia)
}

/// A coordinate after so many ticks, round the box.
#[inline]
fn drifted(x: u32, p: i128, ticks: u32, inertia: i128) -> u32
    requires in_box { x < box_side }
    requires momentum { unsigned_abs p < 2 ^ 96 }
    requires ticks { ticks ≤ 1024 }
    requires inertia { pos 0 <ℤ inertia }
    ensures value { let drift = int_div_euclid (p *ℤ pos ticks) inertia in
        result ≡ unsigned_abs (int_rem_euclid (pos x +ℤ drift) (pos box_side)) }
    ensures in_box { result < box_side }
{
    (i128::from(x) + drift(p, ticks, inertia)).rem_euclid(BOX_SIDE as i128) as u32
}
