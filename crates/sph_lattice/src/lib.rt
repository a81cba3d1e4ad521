//! Generated decks: a lattice of particles drawn from a seed, as numbers and as a deck's text.
#![tactic(auto)]

mod draws;
mod generated;
mod lines;
mod sites;

pub use generated::{lattice, lattice_deck};
