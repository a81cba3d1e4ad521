//! The deck: from the bytes of a TOML document to the accepted numbers of a run.
#![tactic(auto)]

mod bound;
mod deck;
mod fault;
mod first;
mod key;
mod particle;
mod read;
mod refusal;
mod row;
mod top;

pub use bound::{bound_of, bounds_of};
pub use deck::Deck;
pub use fault::{DeckFault, Place};
pub use key::Key;
pub use read::{LONGEST_TEXT, read_deck};
pub use refusal::DeckRefusal;

#[cfg(test)]
mod tests;
