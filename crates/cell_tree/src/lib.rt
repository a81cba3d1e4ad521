//! The octree of cells over a list of points in the periodic box.
#![tactic(auto)]

mod cells;
mod children;
mod due;
mod grow;
mod leaves;
mod node;
mod octants;
mod tree;

pub use due::{due_counts, has_due};
pub use tree::{Span, Tree};
