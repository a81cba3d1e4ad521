//! What one particle adds to the density at another.
ghost use Rattle.std.specs.Prelude.{◌≡◌, ◌<◌, ◌*◌, ◌^◌};
ghost use Rattle.sph_num.specs.Density.{density_part};
ghost use Rattle.sph_num.specs.Ranges.{IsMass, IsLength};

use crate::kernel::Tables;
use crate::length::Length;

/// What a mass adds to the density at a particle of smoothing length `h`, from the square `r2` of their
/// distance. For many pairs of one particle make its `Length` once.
#[inline]
pub fn density_part(tables: &Tables, mass: u32, r2: u64, h: u32) -> u64
    requires mass { IsMass mass }
    requires h { IsLength h }
    requires in_reach { r2 < h * h }
    ensures value { result ≡ density_part mass r2 h }
    ensures below { result < 2 ^ 46 }
{
    Length::new(h).density_part(tables, mass, r2)
}
