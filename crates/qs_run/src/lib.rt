//! Whole graphs: every task of a work is done on the blocks of its leaves.
#![tactic(auto)]

mod graph;
mod ordered;

pub use graph::{RunRefused, run_graph};
pub use ordered::finish_rest;

#[cfg(test)]
mod tests;
