//! The double sums: each goes over all bodies for one of them. Of a pair out of reach it reads the spot and
//! no more, and of a pair in reach it takes no root, and a division only where a reciprocal can't tell the quotient.
ghost use Rattle.std.specs.Prelude.{◌≡◌, ℕ, ◌<◌, ◌≤◌, ◌*◌, ◌^◌, All, length, map, sum_by, pos, ◌*ℤ◌, unsigned_abs};
ghost use Rattle.sph_num.specs.Ranges.{most_particles};
ghost use Rattle.sph_num.specs.Space.{box_side, dist2, minimal, IsPlace};
ghost use Rattle.sph_num.specs.Totals.{component};
ghost use Rattle.sph_plain.specs.inner.Bodies.{IsInRange, density_from, force_on, pulled, spot_of};

use crate::body::{Body, Spot};
use sph_num::{Tables, dist2, minimal};

/// The density at a body of the list.
pub(crate) fn density(tables: &Tables, bodies: &[Body], spots: &[Spot], i: &Body) -> u64
    requires bodies { All IsInRange bodies.now }
    requires spots { spots.now ≡ map spot_of bodies.now }
    requires body { IsInRange i.now }
    requires count { length bodies.now ≤ most_particles }
    ensures value { result ≡ sum_by (density_from i.now) bodies.now }
{
    let length = i.pull.length();
    let reach = length.square();
    let mut total = 0;
    for (j, spot) in spots.iter().enumerate() {
        let r2 = dist2(i.place, spot.place);
        if r2 < reach {
            total += length.density_part(tables, bodies[j].pull.mass(), r2);
        }
    }
    total
}

/// The force on a body of the list, on each axis.
pub(crate) fn force(tables: &Tables, bodies: &[Body], spots: &[Spot], i: &Body) -> [i128; 3]
    requires bodies { All IsInRange bodies.now }
    requires spots { spots.now ≡ map spot_of bodies.now }
    requires body { IsInRange i.now }
    requires count { length bodies.now ≤ most_particles }
    ensures value { result ≡ force_on i.now bodies.now }
{
    let h = i.pull.length().h();
    let mut total = [0; 3];
    for (j, spot) in spots.iter().enumerate() {
        let r2 = dist2(i.place, spot.place);
        let reach = u64::from(h.max(spot.h));
        if r2 < reach * reach {
            add_pull(&mut total, tables, i, &bodies[j], r2);
        }
    }
    total
}

/// Adds the force on `i` from `j`.
#[inline]
fn add_pull(total: &mut [i128; 3], tables: &Tables, i: &Body, j: &Body, r2: u64)
    requires room { (axis : ℕ) → unsigned_abs (component total.old axis) < 2 ^ 120 }
    requires first { IsPlace i.now.place }
    requires second { IsPlace j.now.place }
    requires distance { r2 ≡ dist2 i.now.place j.now.place }
    ensures { total.new ≡ pulled total.old i.now j.now }
{
    let factor = i.pull.pair_factor(tables, &j.pull, r2);
    let [x, y, z] = *total;
    *total = [
        x + pull_along(factor, i.place[0], j.place[0]),
        y + pull_along(factor, i.place[1], j.place[1]),
        z + pull_along(factor, i.place[2], j.place[2]),
    ];
}

/// The force of a pair on one axis.
#[inline]
fn pull_along(factor: u128, a: u32, b: u32) -> i128
    requires factor { factor < 2 ^ 76 }
    requires a_in_box { a < box_side }
    requires b_in_box { b < box_side }
    ensures value { result ≡ pos factor *ℤ minimal a b }
    ensures small { unsigned_abs result < 2 ^ 96 }
{
    factor as i128 * i128::from(minimal(a, b))
}
