//! Which cells of a tree have a due member, in constant time for each.
ghost use Rattle.std.specs.Prelude.{◌≡◌, ◌+◌, ◌<◌, Bool, List, false, length, All, IfOk, OnOk, get_or};
ghost use Rattle.std.specs.List.{list_any};
ghost use Rattle.cell_tree.specs.Due.{has_due, AreDueBefore};
ghost use Rattle.cell_tree.specs.Laws.{CanBeMade};
ghost use Rattle.cell_tree.specs.Tree.{cells_of, leaf_count};

use crate::tree::Tree;
use std::alloc::{AllocError, Global};

/// Whether one of these points is due.
fn any_due(members: &[u32], due: &[bool]) -> bool
    requires { All (λ i. i < length due.now) members.now }
    ensures { result ≡ list_any (λ i. get_or due.now i false) members.now }
{
    members.iter().any(|i| due[*i as usize])
}

/// How many of the leaves before each leaf have a due member, and last how many of all.
pub fn due_counts(alloc: Global, tree: &Tree, due: &[bool]) -> Result<Vec<u32>, AllocError>
    requires { length due.now ≡ length tree.now.points }
    ensures counts { IfOk result (λ before. AreDueBefore tree.now due.now before.items) }
    ensures can { OnOk result (CanBeMade tree.now) }
{
    // No leaf is empty, so there are no more leaves than points.
    let mut before = Vec::with_capacity(alloc, tree.points() as usize + 1)?;
    let mut count = 0;
    before.push(count)?;
    for leaf in 0..tree.leaves() {
        if any_due(tree.members(leaf), due) {
            count += 1;
        }
        before.push(count)?;
    }
    Ok(before)
}

/// Whether the cell has a due member: then the leaves below it have one.
pub fn has_due(tree: &Tree, before: &[u32], cell: u32) -> bool
    requires can { CanBeMade tree.now }
    requires long { length before.now ≡ leaf_count tree.now + 1 }
    requires cell { cell < length (cells_of tree.now) }
    ensures { (due : List Bool) → AreDueBefore tree.now due before.now → result ≡ has_due tree.now due cell }
{
    let (from, to) = tree.leaves_below(cell);
    before[from as usize] < before[to as usize]
}
