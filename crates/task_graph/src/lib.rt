//! The graph of the tasks of a step: drifts, densities, ghosts, forces and kicks on the cells of a tree.
#![tactic(auto)]

mod costs;
mod graph;
mod leaves;
mod numbers;
mod successors;
mod task;
mod waits;

pub use graph::Graph;
