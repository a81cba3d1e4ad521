//! What a tree keeps of one cell.
ghost use Rattle.std.specs.Prelude.{◌≡◌};

use cell_geom::{Cube, DEEPEST_LEVEL};

/// A cell, without its place in the tree.
#[derive(Clone, Copy, Debug, PartialEq, Eq)]
pub struct Node {
    /// Which cube it is.
    pub cube: Cube,
    /// How many members the cell has.
    pub count: u32,
    /// The greatest smoothing length of its members.
    pub reach: u32,
    /// How many cells its subtree has, itself included.
    pub size: u32,
}

ghost use Rattle.cell_tree.specs.inner.Nodes.{is_leaf_node};

/// Whether the cell has few members or lies on the last level.
pub fn is_leaf(node: &Node, leaf: u32) -> bool
    ensures { result ≡ is_leaf_node leaf node.now }
{
    node.count <= leaf || node.cube.level >= DEEPEST_LEVEL
}
