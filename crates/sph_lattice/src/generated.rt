//! The deck of a lattice, as numbers and as a text.
ghost use Rattle.std.specs.Prelude.{◌≡◌, IfOk};
ghost use Rattle.sph_lattice.specs.Lattice.{IsSide, lattice_params, lattice_particles};
ghost use Rattle.sph_lattice.specs.LatticeText.{lattice_text};

use crate::lines::{push_params, push_particle};
use crate::sites::lattice_particles;
use sph_deck::Deck;
use sph_num::{Params, ParticleList};
use std::alloc::{AllocError, Global};

/// More bytes than the lines of the parameters and of a particle take.
const PARAMS_ROOM: usize = 160;

const PARTICLE_ROOM: usize = 140;

/// The deck of a lattice with so many sites on an edge, drawn from a seed.
pub fn lattice_deck(alloc: Global, side: u32, seed: u64) -> Result<Deck, AllocError>
    requires { IsSide side }
    ensures params { IfOk result (λ deck. deck.params ≡ lattice_params seed) }
    ensures particles { IfOk result (λ deck. deck.particles ≡ lattice_particles side seed) }
{
    let particles = lattice_particles(alloc, side, seed)?;
    Ok(Deck {
        params: lattice_params(seed),
        particles: ParticleList::from_vec(particles),
    })
}

/// The text of that deck, which `read_deck` reads back.
pub fn lattice(alloc: Global, side: u32, seed: u64) -> Result<Vec<u8>, AllocError>
    requires { IsSide side }
    ensures { IfOk result (λ text. text.items ≡ lattice_text side seed) }
{
    let particles = lattice_particles(alloc, side, seed)?;
    let room = PARAMS_ROOM + PARTICLE_ROOM * particles.len();
    let mut text = String::with_capacity(alloc, room)?;
    push_params(&mut text, &lattice_params(seed))?;
    for particle in &particles {
        push_particle(&mut text, particle)?;
    }
    Ok(text.into_bytes())
}

/// The parameters of every lattice: an even seed has one time bin, an odd one three.
fn lattice_params(seed: u64) -> Params
    ensures { result ≡ lattice_params seed }
{
    Params {
        ticks: 4,
        every: 4,
        bin_min: 0,
        bin_max: if seed % 2 == 0 { 0 } else { 2 },
        sound: 256,
        shift: 4,
        accuracy: 1,
        leaf: 16,
        pairs: 4096,
        slack: 1024,
    }
}

#[cfg(test)]
mod tests {
    use super::*;
    use sph_deck::read_deck;
    use std::test::Fail;

    /// The text's first lines at side 1 and seed 0.
    const FIRST_LINES: &str =
        "ticks = 4\nevery = 4\nbin_min = 0\nbin_max = 0\nsound = 256\nshift = 4\naccuracy = 1\nleaf = 16\npairs = 4096\nslack = 1024\n\
         [[particle]]\nmass = 1918\nh = 131072\n";

    /// Whether the text begins so.
    fn begins(alloc: Global, side: u32, seed: u64, lines: &str) -> Result<bool, AllocError>
        requires { IsSide side }
    {
        let text = lattice(alloc, side, seed)?;
        Ok(text.as_slice().starts_with(lines.as_bytes()))
    }

    /// Whether `read_deck` of the text gives the deck.
    fn is_read_back(alloc: Global, side: u32, seed: u64) -> Result<bool, Fail>
        requires { IsSide side }
    {
        let text = lattice(alloc, side, seed)?;
        let deck = lattice_deck(alloc, side, seed)?;
        let read = read_deck(alloc, &text).ok().ok_or("refused")?;
        Ok(read.params == deck.params && read.particles.as_slice() == deck.particles.as_slice())
    }

    #[test]
    fn writes_the_first_lines(rt: HostRuntime) -> Result<(), Fail> {
        assert!(rt; begins(rt.alloc(), 1, 0, FIRST_LINES)?);
        Ok(())
    }

    #[test]
    fn reads_its_own_text(rt: HostRuntime) -> Result<(), Fail> {
        assert!(rt; is_read_back(rt.alloc(), 1, 0)?);
        assert!(rt; is_read_back(rt.alloc(), 8, 7)?);
        Ok(())
    }
}
