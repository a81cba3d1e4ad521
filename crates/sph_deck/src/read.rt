//! Reading a deck.
ghost use Rattle.std.specs.Prelude.{◌≡◌, ◌≤◌, ◌⊎◌, length, IsOk, MatchResult};
ghost use Rattle.toml.specs.View.{table_view};
ghost use Rattle.sph_deck.specs.Accepted.{AreInRange};
ghost use Rattle.sph_deck.specs.Agreement.{Disagree};
ghost use Rattle.sph_deck.specs.Document.{elements};
ghost use Rattle.sph_deck.specs.declared.fault.DeckFault.{DeckFault};
ghost use Rattle.sph_deck.specs.declared.refusal.DeckRefusal.TheVariants.{Fault, Memory};
ghost use Rattle.sph_deck.specs.Faults.{longest_text, IsAccepted, StandsInTable};
ghost use Rattle.sph_deck.specs.FirstFault.{AnswersDeck, IsFirstFault};
ghost use Rattle.sph_deck.specs.inner.Meets.{IsFirst};
ghost use Rattle.sph_deck.specs.inner.Rows.{IsRefusal, IsTableRead};

use crate::bound::bound_of;
use crate::deck::Deck;
use crate::fault::DeckFault;
use crate::first::Faults;
use crate::particle::read_particles;
use crate::refusal::DeckRefusal;
use crate::top::{particle_elements, read_params};
use sph_num::{Params, Particle, ParticleList};
use std::alloc::Global;
use toml::Table;

/// A text of more bytes is no deck.
pub const LONGEST_TEXT: usize = 16_777_216;

/// The numbers of a document, each in its range, or the first fault of its rows and their number.
fn read_table(alloc: Global, top: &Table) -> Result<(Params, Vec<Particle>), DeckRefusal>
    requires { length (elements (table_view top.now)) ≤ longest_text }
    ensures { MatchResult result
        (λ numbers. IsTableRead (table_view top.now) numbers.0 numbers.1.items)
        (IsRefusal (IsFirst (StandsInTable (table_view top.now)))) }
{
    let mut faults = Faults { first: None };
    let params = read_params(top, &mut faults);
    let values = particle_elements(top, &mut faults);
    let particles = read_particles(alloc, values, &mut faults)?;
    match faults.first {
        Some(fault) => Err(DeckRefusal::Fault(fault)),
        None => Ok((params, particles)),
    }
}

/// The deck of numbers that fit together.
fn accept(params: Params, particles: Vec<Particle>) -> Result<Deck, DeckFault>
    requires { AreInRange params particles.items }
    ensures { MatchResult result
        (λ deck. (deck.params ≡ params) × (deck.particles ≡ particles.items))
        (IsFirst (Disagree params particles.items)) }
{
    let unit = 1u32 << params.bin_max;
    if params.every % unit != 0 {
        return Err(DeckFault::BadEvery {
            every: params.every,
            unit,
        });
    }
    if params.ticks % params.every != 0 {
        return Err(DeckFault::BadTicks {
            ticks: params.ticks,
            every: params.every,
        });
    }
    if params.bin_max < params.bin_min {
        return Err(DeckFault::BadBins {
            min: params.bin_min,
            max: params.bin_max,
        });
    }
    let bound = bound_of(&params, &particles);
    if bound >= 1 << 96 {
        return Err(DeckFault::Sums(bound));
    }
    Ok(Deck {
        params,
        particles: ParticleList::from_vec(particles),
    })
}

/// The deck of a text that isn't too long, or its first fault.
fn read_document(alloc: Global, bytes: &[u8]) -> Result<Deck, DeckRefusal>
    requires { length bytes.now ≤ longest_text }
    ensures { AnswersDeck bytes.now result }
{
    let top = match toml::table_from_slice(alloc, bytes) {
        Ok(top) => top,
        Err(error) if error.is_memory() => return Err(DeckRefusal::Memory),
        Err(_) => return Err(DeckRefusal::Fault(DeckFault::NotToml)),
    };
    let (params, particles) = read_table(alloc, &top)?;
    Ok(accept(params, particles)?)
}

/// Reads an accepted deck, or says the first fault of the text.
#[tactic(auto, using(crate::proofs::FirstFaults::first_answered, crate::proofs::FirstFaults::accepted_answered))]
pub fn read_deck(alloc: Global, bytes: &[u8]) -> Result<Deck, DeckRefusal>
    ensures answers { AnswersDeck bytes.now result }
    ensures first { (fault : DeckFault) → IsFirstFault bytes.now fault → (result ≡ Err (Fault fault)) ⊎ (result ≡ Err Memory) }
    ensures accepted { IsAccepted bytes.now → IsOk result ⊎ (result ≡ Err Memory) }
{
    if bytes.len() > LONGEST_TEXT {
        return Err(DeckRefusal::Fault(DeckFault::TooLong));
    }
    read_document(alloc, bytes)
}
