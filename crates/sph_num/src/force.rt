//! What one pair of particles gives to the force on each of the two.
ghost use Rattle.std.specs.Prelude.{◌≡◌, ◌<◌, ◌≤◌, ◌^◌, slice_index, All};
ghost use Rattle.sph_num.specs.Force.{ghost_value, force_factor, InReach};
ghost use Rattle.sph_num.specs.Ranges.{IsMass, IsLength};

use crate::kernel::Tables;
use crate::length::Length;
use crate::pull::Pull;

/// The ghost of a particle: the pressure over the square of its density, at a scale of 2^30. `sound` is
/// the square of the isothermal speed of sound.
#[inline]
pub fn ghost_of(sound: u32, rho: u64) -> u64
    requires { 20 ≤ rho }
    ensures value { result ≡ ghost_value sound rho }
    ensures below { sound ≤ 65536 → result < 2 ^ 42 }
{
    (u64::from(sound) << 30) / rho
}

/// The factor of the force of a pair, from the square `r2` of its distance: the force on the first is
/// the factor times the minimal image of its place minus the other's, on each axis. For many pairs of one
/// particle make its `Pull` once.
#[inline]
pub fn force_part(tables: &Tables, masses: [u32; 2], hs: [u32; 2], gs: [u64; 2], r2: u64) -> u128
    requires masses { All IsMass masses }
    requires lengths { All IsLength hs }
    requires ghosts { All (λ g. g < 2 ^ 42) gs }
    requires in_reach { InReach r2 (slice_index hs 0) (slice_index hs 1) }
    ensures value { result ≡ force_factor masses hs gs r2 }
    ensures below { result < 2 ^ 76 }
{
    let first = Pull::new(Length::new(hs[0]), masses[0], gs[0]);
    let second = Pull::new(Length::new(hs[1]), masses[1], gs[1]);
    first.pair_factor(tables, &second, r2)
}
