//! A smoothing length with the reciprocals of its powers, so that a pair needs no division but where a
//! reciprocal can't tell the quotient.
ghost use Rattle.std.specs.Prelude.{◌≡◌, ◌<◌, ◌≤◌, ◌*◌, ◌/◌, ◌^◌};
ghost use Rattle.sph_num.specs.Density.{density_part};
ghost use Rattle.sph_num.specs.Kernel.{root_of};
ghost use Rattle.sph_num.specs.inner.Parts.{slope_within};
ghost use Rattle.sph_num.specs.Ranges.{IsLength, IsMass};

use crate::kernel::{KERNEL_CONSTANT, Tables};
use crate::reciprocal::quotient;
use std::marker::Model;

/// A smoothing length, in length units, and what is made of it once for all pairs.
#[derive(Clone, Copy, Debug)]
pub struct Length {
    h: u32,
    /// `2^64 / h²`, rounded down.
    by_square: u64,
    /// `2^93 / h³`, rounded down.
    by_cube: u64,
}

impl Model for Length {
    ghost use Rattle.std.specs.Prelude.{ℕ, ◌*◌, ◌/◌, ◌^◌};
    ghost use Rattle.std.proofs.Common.{sym};

    ghost Value = { ℕ };

    ghost use Rattle.sph_num.specs.inner.Parts.{AreReciprocals};

    ghost view = { λ l. l.h };

    ghost invariant = { λ l. AreReciprocals l.h l.by_square l.by_cube };

    ghost inverse = { λ h. record { h = h; by_square = 2 ^ 64 / (h * h); by_cube = 2 ^ 93 / (h * h * h) } };

    ghost inverse_ok = { λ l are i. record { h = l.h; by_square = sym are.square i; by_cube = sym are.cube i } };
}

impl Length {
    /// What is made of the length `h`: in two divisions.
    pub fn new(h: u32) -> Length
        requires { IsLength h }
        ensures { result ≡ h }
    {
        let length = u128::from(h);
        let square = length * length;
        Length {
            h,
            by_square: ((1u128 << 64) / square) as u64,
            by_cube: ((1u128 << 93) / (square * length)) as u64,
        }
    }

    /// The length itself.
    #[inline]
    pub fn h(&self) -> u32
        ensures value { result ≡ self.now }
        ensures in_range { IsLength result }
    {
        self.h
    }

    /// The square of the length, below which the square of a distance is in reach.
    #[inline]
    pub fn square(&self) -> u64
        ensures { result ≡ self.now * self.now }
    {
        u64::from(self.h) * u64::from(self.h)
    }

    /// The distance in 1024ths of the length, rounded down, from the square `r2` of the distance.
    #[inline]
    pub fn root(&self, tables: &Tables, r2: u64) -> u32
        requires { r2 < self.now * self.now }
        ensures value { result ≡ root_of r2 self.now }
        ensures below { result < 1024 }
    {
        tables.roots.square_root(self.share(r2))
    }

    /// What a mass adds to the density at a particle of this length, from the square `r2` of their
    /// distance.
    #[inline]
    pub fn density_part(&self, tables: &Tables, mass: u32, r2: u64) -> u64
        requires mass { IsMass mass }
        requires in_reach { r2 < self.now * self.now }
        ensures value { result ≡ density_part mass r2 self.now }
        ensures below { result < 2 ^ 42 }
    {
        let weighted = u64::from(mass) * KERNEL_CONSTANT * tables.w(self.root(tables, r2));
        self.per_volume(weighted)
    }

    /// The kernel's slope at a distance with the square `r2`, as `Tables::u` gives it: 0 from the length on.
    #[inline]
    pub(crate) fn slope(&self, tables: &Tables, r2: u64) -> u32
        ensures value { result ≡ slope_within r2 self.now }
        ensures below { result ≤ 12288 }
    {
        if r2 < self.square() {
            tables.u(self.root(tables, r2))
        } else {
            0
        }
    }

    /// The square `r2` of a distance over the square of the length, in 2^20ths, rounded down.
    #[inline]
    fn share(&self, r2: u64) -> u64
        requires { r2 < self.now * self.now }
        ensures value { result ≡ (r2 * 2 ^ 20) / (self.now * self.now) }
        ensures below { result < 2 ^ 20 }
    {
        let scaled = r2 << 20;
        match quotient(scaled, self.by_square, 64) {
            Some(share) => share,
            None => scaled / self.square(),
        }
    }

    /// A mass weighted by the kernel over the third power of the length, in 2^8ths, rounded down.
    #[inline]
    fn per_volume(&self, weighted: u64) -> u64
        ensures value { result ≡ (weighted * 2 ^ 8) / (self.now * self.now * self.now) }
        ensures below { result < 2 ^ 42 }
    {
        match quotient(weighted, self.by_cube, 85) {
            Some(part) => part,
            None => {
                let cube = self.square() * u64::from(self.h);
                (weighted / cube << 8) + (weighted % cube << 8) / cube
            }
        }
    }
}
