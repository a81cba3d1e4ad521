//! The densities of pairs.
ghost use Rattle.std.specs.Prelude.{◌≡◌, ◌+◌, ◌<◌, ◌^◌, true, if◌then◌else◌};
ghost use Rattle.sph_num.specs.Density.{density_within};
ghost use Rattle.cell_kern.specs.inner.Gathered.{rho_given};
ghost use Rattle.cell_kern.specs.inner.Rooms.{rho_room};

use crate::members::{Member, Other};
use crate::pairing::Pairing;
use sph_num::{Pull, Tables};

/// The densities of members.
pub(crate) struct Densities;

impl Pairing for Densities {
    type Sum = u64;

    ghost given = { rho_given };

    ghost has_room = { rho_room };

    #[inline]
    fn add_own(tables: &Tables, one: &Member, rho: &mut u64) {
        *rho = given(tables, *rho, one.due, &one.pull, &one.pull, 0);
    }

    #[inline]
    fn add_pair(
        tables: &Tables,
        one: &Member,
        other: &Other,
        r2: u64,
        rho: &mut u64,
        other_rho: &mut u64,
    ) {
        *rho = given(tables, *rho, one.due, &one.pull, other.pull, r2);
        *other_rho = given(tables, *other_rho, other.due, other.pull, &one.pull, r2);
    }
}

/// The density of a member after what another at the square `r2` of a distance gives to it, where it is due.
#[inline]
fn given(tables: &Tables, rho: u64, due: bool, to: &Pull, from: &Pull, r2: u64) -> u64
    requires room { due ≡ true → rho < 2 ^ 63 + 2 ^ 62 }
    ensures { result ≡ if due then rho + density_within from.now.mass r2 to.now.h else rho }
{
    let length = to.length();
    if due && r2 < length.square() {
        rho + length.density_part(tables, from.mass(), r2)
    } else {
        rho
    }
}
