//! The forces of pairs: the factor of a pair is found once, and gives to each of its two with the sign turned for the
//! second.
ghost use Rattle.std.specs.Prelude.{◌≡◌, ℕ, ◌<◌, ◌≤◌, ◌*◌, ◌^◌, true, pos, ◌+ℤ◌, ◌-ℤ◌, ◌*ℤ◌, unsigned_abs, if◌then◌else◌};
ghost use Rattle.sph_num.specs.Space.{IsPlace, box_side, minimal};
ghost use Rattle.sph_num.specs.Totals.{component, vector_of};
ghost use Rattle.cell_kern.specs.inner.Gathered.{IsSmall, force_given, pull_along};
ghost use Rattle.cell_kern.specs.inner.Rooms.{HasForceRoom};

use crate::members::{Member, Other};
use crate::pairing::Pairing;
use cell_block::Spot;
use sph_num::{Pull, Tables, minimal};

/// The forces on members: none gives itself one.
pub(crate) struct Forces;

impl Pairing for Forces {
    type Sum = [i128; 3];

    ghost given = { force_given };

    ghost has_room = { HasForceRoom };

    #[inline]
    fn add_own(_tables: &Tables, _one: &Member, _force: &mut [i128; 3]) {}

    #[inline]
    fn add_pair(
        tables: &Tables,
        one: &Member,
        other: &Other,
        r2: u64,
        sum: &mut [i128; 3],
        other_sum: &mut [i128; 3],
    ) {
        if one.due || other.due {
            let force = pair_force(tables, one, other.spot, other.pull, r2);
            add_force(sum, one.due, force);
            take_force(other_sum, other.due, force);
        }
    }
}

/// The force on the first of a pair, on each axis, from the square `r2` of its distance.
#[inline]
fn pair_force(tables: &Tables, one: &Member, spot: &Spot, pull: &Pull, r2: u64) -> [i128; 3]
    requires first { IsPlace one.now.spot.place }
    requires second { IsPlace spot.now.place }
    ensures value { result ≡ vector_of (pull_along one.now.pull pull.now r2 one.now.spot.place spot.now.place) }
    ensures small { (axis : ℕ) → unsigned_abs (component result axis) ≤ 2 ^ 95 }
{
    let factor = one.pull.pair_factor(tables, pull, r2);
    [
        force_along(factor, one.spot.place[0], spot.place[0]),
        force_along(factor, one.spot.place[1], spot.place[1]),
        force_along(factor, one.spot.place[2], spot.place[2]),
    ]
}

/// The force of a pair on one axis.
#[inline]
fn force_along(factor: u128, a: u32, b: u32) -> i128
    requires factor { factor < 2 ^ 76 }
    requires a_in_box { a < box_side }
    requires b_in_box { b < box_side }
    ensures value { result ≡ pos factor *ℤ minimal a b }
    ensures small { unsigned_abs result ≤ 2 ^ 95 }
{
    factor as i128 * i128::from(minimal(a, b))
}

/// Adds a force to a member's sum, where it is due.
#[inline]
fn add_force(sum: &mut [i128; 3], due: bool, force: [i128; 3])
    requires room { due ≡ true → IsSmall (2 ^ 120) sum.old }
    requires small { (axis : ℕ) → unsigned_abs (component force axis) ≤ 2 ^ 95 }
    ensures { sum.new ≡ if due then vector_of (λ axis. component sum.old axis +ℤ component force axis) else sum.old }
{
    if due {
        let [x, y, z] = *sum;
        *sum = [x + force[0], y + force[1], z + force[2]];
    }
}

/// Takes a force from a member's sum, where it is due.
#[inline]
fn take_force(sum: &mut [i128; 3], due: bool, force: [i128; 3])
    requires room { due ≡ true → IsSmall (2 ^ 120) sum.old }
    requires small { (axis : ℕ) → unsigned_abs (component force axis) ≤ 2 ^ 95 }
    ensures { sum.new ≡ if due then vector_of (λ axis. component sum.old axis -ℤ component force axis) else sum.old }
{
    if due {
        let [x, y, z] = *sum;
        *sum = [x - force[0], y - force[1], z - force[2]];
    }
}
