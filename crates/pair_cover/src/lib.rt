//! The cover: which cells, alone and in pairs, have tasks, so that each pair of particles in reach meets once.
#![tactic(auto)]

mod looks;
mod spans;

pub use looks::Limits;
pub use spans::cover;
