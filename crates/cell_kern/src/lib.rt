//! The pair loops: what a density or a force task adds to the sums of the members of its blocks.
#![tactic(auto)]

mod blocks;
mod density;
mod force;
mod members;
mod pairing;
mod pairs;
mod sums;
mod tasks;
#[cfg(test)]
mod tests;

pub use tasks::{density_pair, density_self, force_pair, force_self};
