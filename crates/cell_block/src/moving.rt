//! What a kick reads and writes of a particle, but for what stands in the lists of a block.
ghost use Rattle.std.specs.Prelude.{◌≡◌};
ghost use Rattle.cell_block.specs.Blocks.{moving_of};
ghost use Rattle.cell_block.specs.Reading.{with_sums};

use sph_num::Particle;

/// What a kick reads and writes of a member. Its density, its ghost and the force on it stand in lists of their own.
#[derive(Clone, Copy, Debug, PartialEq, Eq)]
pub struct Moving {
    pub mass: u32,
    /// The smoothing length, in length units.
    pub h: u32,
    /// The place at the last kick, in length units.
    pub x0: [u32; 3],
    /// The tick of the last kick.
    pub t0: u32,
    /// The momentum half a step ahead of the last kick.
    pub p: [i128; 3],
    /// The momentum at the last kick.
    pub q: [i128; 3],
    /// The time bin: the step is `2^bin` ticks.
    pub bin: u32,
}

impl Moving {
    /// What a kick reads and writes of this particle.
    pub fn of(particle: &Particle) -> Moving
        ensures { result ≡ moving_of particle.now }
    {
        Moving {
            mass: particle.mass,
            h: particle.h,
            x0: particle.x0,
            t0: particle.t0,
            p: particle.p,
            q: particle.q,
            bin: particle.bin,
        }
    }

    /// The particle with this density, this ghost and this force.
    pub fn with_sums(&self, rho: u64, g: u64, f: [i128; 3]) -> Particle
        ensures { result ≡ with_sums self.now rho g f }
    {
        Particle {
            mass: self.mass,
            h: self.h,
            x0: self.x0,
            t0: self.t0,
            p: self.p,
            q: self.q,
            f,
            rho,
            g,
            bin: self.bin,
        }
    }
}
