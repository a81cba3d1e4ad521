//! The plain program: a run of a deck by double sums over all pairs of particles.
#![tactic(auto)]

mod body;
mod initial;
mod laws;
mod step;
mod sums;
#[cfg(test)]
mod tests;

pub use initial::start;
pub use laws::{momentum_is_kept, runs_stay_in_bounds};
pub use step::{PlainSteps, plain_step};
