//! Whole runs: from an accepted deck to its stream of snapshots, or to a summary of it.
#![tactic(auto)]

mod form;
mod laws;
mod runs;

pub use form::{Form, RunEnd};
pub use laws::{outputs_ignore_work, snapshots_keep_momentum, streams_can_be_read};
pub use runs::{run, run_plain};

#[cfg(test)]
mod tests;
