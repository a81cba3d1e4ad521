//! One step of a run through the graph of its tasks: tree, cover, graph and blocks, every task applied once,
//! and the blocks gathered.
#![tactic(auto)]

mod apply;
mod blocks;
mod cells;
mod gathering;
mod lines;
mod preparing;
mod stage;
mod stepping;
#[cfg(test)]
mod tests;

pub use gathering::gather;
pub use preparing::prepare;
pub use stage::{Stage, StagePlan};
pub use stepping::{GraphSteps, step};
