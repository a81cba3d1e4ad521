//! A particle's side of the forces of a step, so that a pair needs no division but where a
//! reciprocal can't tell the quotient.
ghost use Rattle.std.specs.Prelude.{◌≡◌, ◌<◌, ◌≤◌, ◌*◌, ◌/◌, ◌^◌};
ghost use Rattle.sph_num.specs.inner.Parts.{strength_of, fifth_power};
ghost use Rattle.sph_num.specs.Pull.{puller, pair_factor};
ghost use Rattle.sph_num.specs.Ranges.{IsLength, IsMass};

use crate::kernel::{KERNEL_CONSTANT, Tables};
use crate::length::Length;
use crate::reciprocal::quotient;
use std::marker::Model;

/// What one particle's length gives to the factors of the forces of its pairs, made once for a step.
#[derive(Clone, Copy, Debug)]
pub struct Pull {
    length: Length,
    mass: u32,
    g: u64,
    /// The particle's own part of a factor, rounded down. The other's is its mass times the slope.
    whole: u64,
    /// What that leaves, in 2^64ths, rounded down.
    broken: u64,
}

impl Model for Pull {
    ghost use Rattle.std.specs.Prelude.{◌*◌, ◌/◌, ◌%◌, ◌^◌};
    ghost use Rattle.std.proofs.Common.{sym};
    ghost use Rattle.sph_num.specs.Pull.{Puller, puller};

    ghost Value = { Puller };

    ghost use Rattle.sph_num.specs.inner.Parts.{strength_of, fifth_power, ArePartsOf};

    ghost view = { λ p. puller p.length p.mass p.g };

    ghost invariant = { λ p. ArePartsOf (puller p.length p.mass p.g) p.whole p.broken };

    ghost inverse = { λ p. record {
      length = p.h;
      mass = p.mass;
      g = p.g;
      whole = strength_of p.mass p.g / fifth_power p.h;
      broken = (2 ^ 64 * (strength_of p.mass p.g % fifth_power p.h)) / fifth_power p.h;
    } };

    ghost inverse_ok = { λ p are i. record {
      length = p.length;
      mass = p.mass;
      g = p.g;
      whole = sym are.whole_is i;
      broken = sym are.broken_is i;
    } };
}

impl Pull {
    /// The side of a particle of this length and mass, and with this ghost.
    pub fn new(length: Length, mass: u32, g: u64) -> Pull
        requires mass { IsMass mass }
        requires ghost_term { g < 2 ^ 42 }
        ensures { result ≡ puller length mass g }
    {
        let strength = strength(mass, g);
        let fifth = fifth_power(length.h());
        Pull {
            length,
            mass,
            g,
            whole: (strength / fifth) as u64,
            broken: broken_part(strength % fifth, fifth),
        }
    }

    /// The particle's smoothing length.
    #[inline]
    pub fn length(&self) -> Length
        ensures { result ≡ self.now.h }
    {
        self.length
    }

    /// The particle's mass.
    #[inline]
    pub fn mass(&self) -> u32
        ensures value { result ≡ self.now.mass }
        ensures in_range { IsMass result }
    {
        self.mass
    }

    /// The particle's ghost.
    #[inline]
    pub fn g(&self) -> u64
        ensures value { result ≡ self.now.g }
        ensures below { result < 2 ^ 42 }
    {
        self.g
    }

    /// The factor of the force of the particle's pair with another, from the square `r2` of their distance:
    /// the force on this one is the factor times the minimal image of its place minus the other's, on each
    /// axis. It is 0 out of reach. Two equal lengths share their root.
    #[inline]
    pub fn pair_factor(&self, tables: &Tables, other: &Pull, r2: u64) -> u128
        ensures value { result ≡ pair_factor self.now other.now r2 }
        ensures below { result < 2 ^ 76 }
    {
        let slope = self.length.slope(tables, r2);
        let other_slope = if other.length.h() == self.length.h() {
            slope
        } else {
            other.length.slope(tables, r2)
        };
        self.factor(other.mass, slope) + other.factor(self.mass, other_slope)
    }

    /// What the particle's length gives to the factor of its pair with one of this mass, from the kernel's
    /// slope at their distance.
    #[inline]
    fn factor(&self, other: u32, slope: u32) -> u128
        requires other { IsMass other }
        requires slope { slope ≤ 12288 }
        ensures value { result ≡ (strength_of self.now.mass self.now.g * (other * slope)) / fifth_power self.now.h }
        ensures below { result < 2 ^ 75 }
    {
        let weight = u64::from(other) * u64::from(slope);
        match quotient(weight, self.broken, 64) {
            Some(part) => u128::from(self.whole) * u128::from(weight) + u128::from(part),
            None => {
                strength(self.mass, self.g) * u128::from(weight) / fifth_power(self.length.h())
            }
        }
    }
}

/// The particle's own part of the numerator of a factor.
fn strength(mass: u32, g: u64) -> u128
    requires mass { IsMass mass }
    requires ghost_term { g < 2 ^ 42 }
    ensures value { result ≡ strength_of mass g }
    ensures below { result < 2 ^ 96 }
{
    let mass_term = u64::from(mass) * KERNEL_CONSTANT;
    u128::from(mass_term) * u128::from(g) << 20
}

/// The denominator of a factor.
fn fifth_power(h: u32) -> u128
    requires { IsLength h }
    ensures value { result ≡ fifth_power h }
    ensures low { 2 ^ 50 ≤ result }
    ensures high { result ≤ 2 ^ 85 }
{
    let length = u128::from(h);
    let square = length * length;
    square * square * length
}

/// A rest over its divisor in 2^64ths, rounded down: in two divisions, since 2^64 times the rest can have
/// more than 128 bits.
fn broken_part(rest: u128, divisor: u128) -> u64
    requires rest { rest < divisor }
    requires divisor { divisor ≤ 2 ^ 85 }
    ensures { result ≡ (2 ^ 64 * rest) / divisor }
{
    let scaled = rest << 32;
    let high = scaled / divisor;
    let low = (scaled % divisor << 32) / divisor;
    ((high << 32) + low) as u64
}
