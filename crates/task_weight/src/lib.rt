//! Tasks that wait for one another, and how urgent each is: the greatest cost of a path that begins with it.
#![tactic(auto)]

mod edges;
mod weight;

pub use edges::Edges;
pub use weight::weights;
