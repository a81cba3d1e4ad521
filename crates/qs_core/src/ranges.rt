//! The leaves of a task, as two ranges.
ghost use Rattle.std.specs.Prelude.{◌≡◌, ◌<◌, length};
ghost use Rattle.qs_core.specs.Shape.{IsShape};
ghost use Rattle.qs_core.specs.Ranges.{AreLeafRanges};

use crate::work::Work;

/// The leaves below a cell: from one number up to another, which is excluded.
#[derive(Clone, Copy)]
pub struct LeafRange {
    /// The first leaf.
    pub from: u32,
    /// The number behind the last leaf.
    pub to: u32,
}

impl LeafRange {
    fn of(range: (u32, u32)) -> LeafRange
        ensures { result ≡ record { from = range.0; to = range.1 } }
    {
        LeafRange {
            from: range.0,
            to: range.1,
        }
    }
}

/// The leaves of a task's first cell, and of its second: none, behind the others, where it has one cell.
pub fn ranges_of<W: Work>(work: &W, task: u32) -> (LeafRange, LeafRange)
    requires task { task < length (W.shape (W.plan work.now)).tasks }
    ensures ranges { AreLeafRanges (W.shape (W.plan work.now)) task result.0.from result.0.to result.1.from result.1.to }
    ensures laws { IsShape (W.shape (W.plan work.now)) }
{
    // The call whose contract has the laws of what is scheduled.
    let _cells = work.cells();
    let (first, second) = work.cells_of(task);
    let first = LeafRange::of(work.leaf_range(first));
    match second {
        Some(cell) => (first, LeafRange::of(work.leaf_range(cell))),
        None => (
            first,
            LeafRange {
                from: first.to,
                to: first.to,
            },
        ),
    }
}
