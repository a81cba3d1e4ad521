//! The parents and the children of a tree's cells.
ghost use Rattle.std.specs.Prelude.{◌≡◌, ◌+◌, ◌<◌, length, IfOk, OnOk};
ghost use Rattle.cell_tree.specs.inner.Parts.{AddsChildren, AreChildrenOf, KnowsParents};
ghost use Rattle.cell_tree.specs.Tree.{cells_of};

use crate::cells::Cells;
use std::alloc::{AllocError, Global};

/// The parent of each cell, and the children of each, one cell's after another's.
#[derive(Debug, Drop)]
pub struct Children {
    /// The parent of each cell but the first.
    pub parents: Vec<u32>,
    /// Where each cell's children start, and where the last cell's end.
    pub starts: Vec<usize>,
    /// The children.
    pub numbers: Vec<u32>,
}

/// Appends the numbers of the cell's children, and notes the cell as their parent.
fn append_children(
    cells: &Cells,
    cell: u32,
    parents: &mut [u32],
    numbers: &mut Vec<u32>,
) -> Result<(), AllocError>
    requires within { cell < length (cells_of cells.now) }
    requires long { length parents.old ≡ length (cells_of cells.now) }
    requires known { KnowsParents cells.now cell parents.old }
    ensures added { OnOk result (AddsChildren cells.now cell numbers.old.items numbers.new.items) }
    ensures known { OnOk result (KnowsParents cells.now (cell + 1) parents.new) }
{
    let end = cell + cells.node(cell).size;
    let mut child = cell + 1;
    while child < end {
        numbers.push(child)?;
        parents[child as usize] = cell;
        child += cells.node(child).size;
    }
    Ok(())
}

/// The parents and the children of all cells.
pub fn children_of(alloc: Global, cells: &Cells) -> Result<Children, AllocError>
    ensures long { IfOk result (λ c. length c.parents.items ≡ length (cells_of cells.now)) }
    ensures parents { IfOk result (λ c.
        KnowsParents cells.now (length (cells_of cells.now)) c.parents.items) }
    ensures children { IfOk result (λ c.
        AreChildrenOf cells.now (length (cells_of cells.now)) c.starts.items c.numbers.items) }
{
    let mut parents = vec![in alloc; 0; cells.len() as usize]?;
    let mut starts = Vec::new(alloc);
    let mut numbers = Vec::new(alloc);
    starts.push(0)?;
    for cell in 0..cells.len() {
        append_children(cells, cell, &mut parents, &mut numbers)?;
        starts.push(numbers.len())?;
    }
    Ok(Children {
        parents,
        starts,
        numbers,
    })
}
