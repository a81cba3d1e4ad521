//! The texts that the program writes beside its streams.
#![tactic(auto)]

mod check;
mod deck;
#[cfg(test)]
mod decks;
mod summary;
mod tree;
mod words;

pub use check::check_text;
pub use deck::deck_text;
pub use summary::summary_line;
pub use tree::tree_text;
pub use words::words_text;
