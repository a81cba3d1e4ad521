//! A list of particles, in the order of the deck.
use crate::particle::Particle;
use std::marker::Model;

/// The particles of a deck or of a moment of a run.
#[derive(Debug, Drop)]
pub struct ParticleList {
    items: Vec<Particle>,
}

impl Model for ParticleList {
    ghost use Rattle.std.specs.Prelude.{List};
    ghost use Rattle.sph_num.specs.declared.particle.Particle.{Particle};

    ghost Value = { List Particle };

    ghost view = { λ l. l.items.items };
}

impl ParticleList {
    ghost use Rattle.std.specs.Prelude.{◌≡◌, length, slice_get, option_copied};

    /// The list of these particles, in their order.
    pub fn from_vec(items: Vec<Particle>) -> ParticleList
        ensures { result ≡ items.items }
    {
        ParticleList { items }
    }

    /// The particles as a slice.
    pub fn as_slice(&self) -> &[Particle]
        ensures { result.now ≡ self.now }
    {
        self.items.as_slice()
    }

    /// How many particles there are.
    pub fn len(&self) -> usize
        ensures { result ≡ length self.now }
    {
        self.items.len()
    }

    /// The particle at an index from 0, if there is one.
    pub fn get(&self, i: usize) -> Option<&Particle>
        ensures { option_copied result ≡ slice_get self.now i }
    {
        self.items.as_slice().get(i)
    }
}
