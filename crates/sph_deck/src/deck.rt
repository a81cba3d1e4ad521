//! An accepted deck.
ghost use Rattle.sph_deck.specs.Accepted.{AreAccepted};

use sph_num::{Params, ParticleList};

/// The numbers of a deck that has no fault: the parameters, and the particles in the order of the file
/// as they are at the start of a run.
#[derive(Debug, Drop)]
pub struct Deck {
    pub params: Params,
    pub particles: ParticleList,
    ghost accepted: { AreAccepted params particles },
}
