//! The list before a run.
ghost use Rattle.std.specs.Prelude.{◌≡◌, IfOk};
ghost use Rattle.sph_plain.specs.Run.{before, start, started};

use sph_deck::Deck;
use sph_num::Particle;
use std::alloc::{AllocError, Global};

/// The particles of a deck before the first step.
pub fn start(alloc: Global, deck: &Deck) -> Result<Vec<Particle>, AllocError>
    ensures start { IfOk result (λ list. list.items ≡ start deck.now) }
    ensures before { IfOk result (λ list. list.items ≡ before deck.now 0) }
{
    let mut list = Vec::with_capacity(alloc, deck.particles.len())?;
    for particle in deck.particles.as_slice() {
        list.push(started(particle))?;
    }
    Ok(list)
}

/// A particle before the run: the momentum is the deck's, and no step has left anything.
fn started(particle: &Particle) -> Particle
    ensures { result ≡ started particle.now }
{
    Particle {
        t0: 0,
        q: particle.p,
        f: [0; 3],
        rho: 0,
        g: 0,
        bin: 0,
        ..*particle
    }
}
