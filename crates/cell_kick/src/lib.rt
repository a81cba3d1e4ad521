//! What the tasks on one leaf do to its block: the drift, the ghost and the kick of its members.
#![tactic(auto)]

mod members;
mod tasks;
#[cfg(test)]
mod tests;

pub use tasks::{drift, kick, set_ghosts};
