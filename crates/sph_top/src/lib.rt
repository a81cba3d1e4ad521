//! The top call, which carries the snapshot theorem.
#![tactic(auto)]

mod answer;
mod bytes;
mod job;
mod output;
mod report;
mod status;

pub use answer::swiftq;
pub use bytes::{RunRefusal, run_bytes};
pub use status::{Status, exit_of};

#[cfg(test)]
mod tests;
