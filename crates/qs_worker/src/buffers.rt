//! The room that a worker asks for: buffers for the blocks of a task, and the list of the tasks that are ready.
ghost use Rattle.std.specs.Prelude.{IfOk, vec_capacity};
ghost use Rattle.qs_worker.specs.inner.Rooms.{HasBlockRoom, IsRoom};

use qs_core::{Work, ranges_of};
use std::alloc::{AllocError, Global};

/// Where the blocks of a task lie while it is done: those of its first cell's leaves, and those of its second's.
#[derive(Drop)]
pub(crate) struct Buffers<B: Drop> {
    pub(crate) first: Vec<B>,
    pub(crate) second: Vec<B>,
}

/// The greatest numbers of leaves of a first cell, and of a second.
pub(crate) fn most_leaves<W: Work>(work: &W) -> (u32, u32)
    ensures { HasBlockRoom (W.shape (W.plan work.now)) result.0 result.1 }
{
    let mut most = (0, 0);
    for task in 0..work.tasks() {
        let (first, second) = ranges_of(work, task);
        most = (
            most.0.max(first.to - first.from),
            most.1.max(second.to - second.from),
        );
    }
    most
}

/// Empty buffers with room for so many leaves, and an empty list with room for all tasks that can be ready, and behind them
/// for those that one more frees.
pub(crate) fn reserve_buffers<W: Work>(
    alloc: Global,
    work: &W,
    most: (u32, u32),
) -> Result<(Buffers<W::Block>, Vec<u32>), AllocError>
    requires { HasBlockRoom (W.shape (W.plan work.now)) most.0 most.1 }
    ensures { IfOk result (λ r. IsRoom (W.shape (W.plan work.now)) r.0.first.items r.0.second.items r.1.items (vec_capacity r.0.first) (vec_capacity r.0.second) (vec_capacity r.1)) }
{
    let buffers = Buffers {
        first: Vec::with_capacity(alloc, most.0 as usize)?,
        second: Vec::with_capacity(alloc, most.1 as usize)?,
    };
    let ready = Vec::with_capacity(alloc, 2 * work.tasks() as usize)?;
    Ok((buffers, ready))
}
