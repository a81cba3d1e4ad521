//! What a run is about: its parameters, its particles and the bounds of their numbers.

/// The greatest number of particles.
pub const MOST_PARTICLES: usize = 32_768;

/// The numbers of a deck's top, in their units.
#[derive(Clone, Copy, Debug, PartialEq, Eq)]
pub struct Params {
    /// The last tick of the run.
    pub ticks: u32,
    /// A snapshot stands at each multiple of this.
    pub every: u32,
    /// The shortest step of a particle is `2^bin_min` ticks.
    pub bin_min: u32,
    /// The longest step of a particle is `2^bin_max` ticks.
    pub bin_max: u32,
    /// Pressure is this times the density: the square of the isothermal speed of sound.
    pub sound: u32,
    /// A momentum p moves a mass m by `p / (m * 2^shift)` length units in a tick.
    pub shift: u32,
    /// How strong a force may be in a long step: the greater, the longer the steps.
    pub accuracy: u32,
    /// A cell with more particles than this is split.
    pub leaf: u32,
    /// A task whose counts of members multiply to more than this is split, as far as its cells aren't leaves.
    pub pairs: u32,
    /// How far particles may move on an axis from the places of their tree, in length units, with every pair in reach still met.
    pub slack: u32,
}

/// One particle: what the deck gave it and what its last kick left.
#[derive(Clone, Copy, Debug, PartialEq, Eq)]
pub struct Particle {
    pub mass: u32,
    /// The smoothing length, at which the kernel ends, in length units.
    pub h: u32,
    /// The place at the last kick, in length units; the box has a side of 2^20.
    pub x0: [u32; 3],
    /// The tick of the last kick.
    pub t0: u32,
    /// The momentum half a step ahead of the last kick, with which the particle drifts.
    pub p: [i128; 3],
    /// The momentum at the last kick.
    pub q: [i128; 3],
    /// The force at the last kick.
    pub f: [i128; 3],
    /// The density at the last kick.
    pub rho: u64,
    /// Pressure over the square of the density at the last kick: the factor of the force.
    pub g: u64,
    /// The time bin: the particle's step is `2^bin` ticks.
    pub bin: u32,
}

/// How many particles there are, and the least and the greatest of their masses and lengths.
#[derive(Clone, Copy, Debug, PartialEq, Eq)]
pub struct Bounds {
    pub count: u32,
    pub mass: (u32, u32),
    pub h: (u32, u32),
}
