//! Time bins and the step of a list of particles: who is due, what a kick leaves, and why no sum gets too large.
#![tactic(auto)]

mod bins;
mod laws;
mod leapfrog;

pub use bins::{choose, due, next_tick};
pub use laws::steps_keep_bounds;
pub use leapfrog::kick;
