//! The leaves of a tree, numbered in the order of their cells.
ghost use Rattle.std.specs.Prelude.{IfOk};
ghost use Rattle.cell_tree.specs.inner.Parts.{AreFirsts, AreLeaves};

use crate::cells::Cells;
use std::alloc::{AllocError, Global};

/// A leaf: its cell, and where its members start in the order of the leaves.
#[derive(Clone, Copy, Debug, PartialEq, Eq)]
pub struct Leaf {
    /// The number of its cell.
    pub cell: u32,
    /// How many members the leaves before it have.
    pub start: u32,
}

/// How many leaves there are before each cell, and in all.
pub fn first_leaves(alloc: Global, cells: &Cells) -> Result<Vec<u32>, AllocError>
    ensures { IfOk result (λ firsts. AreFirsts cells.now firsts.items) }
{
    let mut firsts = Vec::new(alloc);
    let mut first = 0;
    firsts.push(first)?;
    for cell in 0..cells.len() {
        if cells.is_leaf(cell) {
            first += 1;
        }
        firsts.push(first)?;
    }
    Ok(firsts)
}

/// The leaves of the cells.
pub fn leaves_of(alloc: Global, cells: &Cells) -> Result<Vec<Leaf>, AllocError>
    ensures { IfOk result (λ leaves. AreLeaves cells.now leaves.items) }
{
    let mut leaves = Vec::new(alloc);
    let mut start = 0;
    for cell in 0..cells.len() {
        if cells.is_leaf(cell) {
            leaves.push(Leaf { cell, start })?;
            start += cells.node(cell).count;
        }
    }
    Ok(leaves)
}
