//! A gate that stands between a task's claim and its work: the program's does nothing, and tests see by theirs that workers work.
#![tactic(auto)]

mod count;
mod crowd;
mod gate;
mod noted;

pub use count::CountGate;
pub use crowd::CrowdGate;
pub use gate::{Gate, NoGate};
pub use noted::{LogGate, Pass};

#[cfg(test)]
mod tests;
