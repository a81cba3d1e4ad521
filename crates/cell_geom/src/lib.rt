//! Cubes of the periodic box: which points they hold, how they nest, and how near two of them come.
#![tactic(auto)]

mod cube;
mod gap;

pub use cube::{Cube, DEEPEST_LEVEL, child, contains, holds, octant};
pub use gap::gap2;
