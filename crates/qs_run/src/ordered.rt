//! Tasks in the order of their numbers.
ghost use Rattle.std.specs.Prelude.{◌≡◌, ◌<◌, length};
ghost use Rattle.qs_core.specs.Blocks.{AreDone};
ghost use Rattle.qs_run.specs.Blocks.{AreAllDone};
ghost use Rattle.qs_table.specs.Blocks.{IsClaimedTask};
ghost use Rattle.qs_run.specs.inner.Steps.{CanDo, IsDoneOn};

use qs_core::{Work, ranges_of};
use qs_gate::Gate;
use qs_table::Closed;

/// Does each task that wasn't claimed when a table was closed, in the order of their numbers, and passes the gate with each
/// before, as this worker. The answer is the blocks, in the order of the leaves. It takes no memory.
pub fn finish_rest<W: Work, G: Gate>(
    work: &W,
    mut closed: Closed<W>,
    worker: u32,
    gate: &G,
) -> Vec<W::Block>
    requires shape { closed.shape ≡ W.shape (W.plan work.now) }
    requires claimed_done { AreDone (W.shape (W.plan work.now)) (W.fits (W.plan work.now)) W.done (IsClaimedTask (W.shape (W.plan work.now)) closed.words) closed.blocks }
    ensures all_done { AreAllDone (W.shape (W.plan work.now)) (W.fits (W.plan work.now)) W.done result.items }
{
    // The call whose contract has the laws of what is scheduled.
    let _cells = work.cells();
    for task in 0..work.tasks() {
        if !closed.claimed(task) {
            do_task(work, task, closed.blocks_mut(), worker, gate);
        }
    }
    closed.into_blocks()
}

/// Passes the gate with a task, and does the task on the blocks of all leaves: those of its cells' leaves are cut out.
fn do_task<W: Work, G: Gate>(work: &W, task: u32, blocks: &mut [W::Block], worker: u32, gate: &G)
    requires task { task < length (W.shape (W.plan work.now)).tasks }
    requires ready { CanDo (W.shape (W.plan work.now)) task (W.fits (W.plan work.now)) W.done blocks.old }
    ensures { IsDoneOn (W.shape (W.plan work.now)) task (W.fits (W.plan work.now)) W.done blocks.old blocks.new }
{
    gate.pass(worker, task);
    let (first, second) = ranges_of(work, task);
    if first.to <= second.from {
        let (low, high) = blocks.split_at_mut(second.from as usize);
        work.apply(
            task,
            &mut low[first.from as usize..first.to as usize],
            &mut high[..(second.to - second.from) as usize],
        );
    } else {
        let (low, high) = blocks.split_at_mut(first.from as usize);
        work.apply(
            task,
            &mut high[..(first.to - first.from) as usize],
            &mut low[second.from as usize..second.to as usize],
        );
    }
}
