//! What a stage keeps of the cells and leaves of its tree.
ghost use Rattle.std.specs.Prelude.{◌≡◌, IfOk};
ghost use Rattle.sph_step.specs.Made.{leaves_in};
ghost use Rattle.sph_step.specs.inner.Told.{AreParents, AreRanges};

use cell_block::{LeafList, LeafMembers};
use cell_tree::Tree;
use std::alloc::{AllocError, Global};

/// The cell above each cell.
pub(crate) fn parents_of(alloc: Global, tree: &Tree) -> Result<Vec<Option<u32>>, AllocError>
    ensures { IfOk result (λ parents. AreParents tree.now parents.items) }
{
    let mut parents = Vec::with_capacity(alloc, tree.cells() as usize)?;
    for cell in 0..tree.cells() {
        parents.push(tree.parent(cell))?;
    }
    Ok(parents)
}

/// The leaves below each cell.
pub(crate) fn ranges_of(alloc: Global, tree: &Tree) -> Result<Vec<(u32, u32)>, AllocError>
    ensures { IfOk result (λ ranges. AreRanges tree.now ranges.items) }
{
    let mut ranges = Vec::with_capacity(alloc, tree.cells() as usize)?;
    for cell in 0..tree.cells() {
        ranges.push(tree.leaves_below(cell))?;
    }
    Ok(ranges)
}

/// The members of each leaf.
pub(crate) fn leaves_of(alloc: Global, tree: &Tree) -> Result<LeafList, AllocError>
    ensures { IfOk result (λ leaves. leaves ≡ leaves_in tree.now) }
{
    let mut leaves = Vec::with_capacity(alloc, tree.leaves() as usize)?;
    for leaf in 0..tree.leaves() {
        let members = Vec::from_slice(alloc, tree.members(leaf))?;
        leaves.push(LeafMembers::from_vec(members))?;
    }
    Ok(LeafList::from_vec(leaves))
}
