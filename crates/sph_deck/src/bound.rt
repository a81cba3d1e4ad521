//! How large the sums of a deck's run may get, from the least and the greatest of its numbers.
ghost use Rattle.std.specs.Prelude.{◌≡◌, ◌<◌, ◌≤◌, ◌^◌, ℕ, length, slice_index_or};
ghost use Rattle.sph_num.specs.Bound.{bound_of, bounds_of, greatest_momentum, least_density, greatest_ghost, greatest_factor, greatest_force};
ghost use Rattle.sph_num.specs.Ranges.{AreBoundsInRange, AreParamsInRange, IsBody, IsDeckMomentum, most_particles};
ghost use Rattle.sph_num.specs.declared.particle.Particle.{Particle};

use sph_num::{Bounds, KERNEL_CONSTANT, Params, Particle, greatest_size};

/// The number of particles, and the least and the greatest of their masses and lengths. The parameters
/// don't matter so far.
pub fn bounds_of(_params: &Params, particles: &[Particle]) -> Bounds
    requires bodies { (k : ℕ) (d : Particle) → k < length particles.now → IsBody (slice_index_or particles.now k d) }
    requires some { 1 ≤ length particles.now }
    requires not_too_many { length particles.now ≤ most_particles }
    ensures { result ≡ bounds_of particles.now }
{
    let mut mass = (particles[0].mass, 0);
    let mut h = (particles[0].h, 0);
    for particle in particles {
        mass = (mass.0.min(particle.mass), mass.1.max(particle.mass));
        h = (h.0.min(particle.h), h.1.max(particle.h));
    }
    Bounds {
        count: particles.len() as u32,
        mass,
        h,
    }
}

/// What the momenta of a run may reach, from the least and the greatest of a deck's numbers. An accepted
/// deck keeps it below 2^96.
pub fn bound_of(params: &Params, particles: &[Particle]) -> u128
    requires params { AreParamsInRange params.now }
    requires bodies { (k : ℕ) (d : Particle) → k < length particles.now → IsBody (slice_index_or particles.now k d) }
    requires momenta { (k : ℕ) (d : Particle) → k < length particles.now → IsDeckMomentum (slice_index_or particles.now k d) }
    requires some { 1 ≤ length particles.now }
    requires not_too_many { length particles.now ≤ most_particles }
    ensures { result ≡ bound_of params.now particles.now }
{
    let bounds = bounds_of(params, particles);
    let force = greatest_force(params.sound, bounds);
    let steps = 2 * u128::from(params.ticks) + (1 << params.bin_max);
    greatest_momentum(particles) + force * steps
}

/// The greatest absolute value of a component of a momentum.
fn greatest_momentum(particles: &[Particle]) -> u128
    ensures { result ≡ greatest_momentum particles.now }
{
    particles.iter().fold(
        0,
        |greatest, particle| greatest.max(greatest_size(&particle.p)),
    )
}

/// No density is less than this: the least mass alone, within the greatest length.
fn least_density(bounds: Bounds) -> u128
    requires { AreBoundsInRange bounds }
    ensures { result ≡ least_density bounds }
{
    let h = u128::from(bounds.h.1);
    (u128::from(bounds.mass.0) * u128::from(KERNEL_CONSTANT) << 38) / (h * h * h)
}

/// No pressure over the square of a density is more.
fn greatest_ghost(sound: u32, bounds: Bounds) -> u128
    requires sound { sound ≤ 65536 }
    requires bounds { AreBoundsInRange bounds }
    ensures { result ≡ greatest_ghost sound bounds }
{
    (u128::from(sound) << 30) / least_density(bounds)
}

/// No factor of a force within one length is more.
fn greatest_factor(sound: u32, bounds: Bounds) -> u128
    requires sound { sound ≤ 65536 }
    requires bounds { AreBoundsInRange bounds }
    ensures { result ≡ greatest_factor sound bounds }
{
    let mass = u128::from(bounds.mass.1);
    let ghost_term = greatest_ghost(sound, bounds);
    let h = u128::from(bounds.h.0);
    (mass * mass * ghost_term * u128::from(KERNEL_CONSTANT) * 12_288 << 20) / (h * h * h * h * h)
}

/// No component of a force is more.
fn greatest_force(sound: u32, bounds: Bounds) -> u128
    requires sound { sound ≤ 65536 }
    requires bounds { AreBoundsInRange bounds }
    ensures { result ≡ greatest_force sound bounds }
{
    2 * u128::from(bounds.count) * greatest_factor(sound, bounds) * u128::from(bounds.h.1)
}
