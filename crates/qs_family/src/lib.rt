//! A small work for the tests of the crates above: the program never runs it.
#![tactic(auto)]

mod family;

pub use family::{CELLS, Family, Marks, TASKS, THREE};

#[cfg(test)]
mod tests;
