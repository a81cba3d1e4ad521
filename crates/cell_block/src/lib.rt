//! The plain data from which a step starts, and a leaf's block with the tasks that are done on it.
#![tactic(auto)]

mod beginning;
mod block;
mod extent;
mod flat;
mod laws;
mod moving;
mod reading;
mod rows;
mod scene;
mod threads;
mod touching;

pub use block::Block;
pub use extent::{Extent, Interval};
pub use flat::Flat;
pub use laws::sums_are_whole;
pub use moving::Moving;
pub use rows::{BlockRows, Mark, Spot};
pub use scene::{LeafList, LeafMembers, LineList, Scene, TaskLine};
pub use threads::{block_is_sent, scene_is_sync};
pub use touching::tasks_by_leaf;
