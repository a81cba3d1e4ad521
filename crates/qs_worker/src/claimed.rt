//! A claimed task, from the fetch of its blocks to the release of the tasks that wait for it.
ghost use Rattle.std.specs.Prelude.{◌≡◌, ◌+◌, ◌<◌, ◌≤◌, ◌⊎◌, ℕ, [], count_by, length, vec_capacity};
ghost use Rattle.qs_core.specs.Shape.{task_at};
ghost use Rattle.qs_core.specs.Blocks.{AreApplied, AreApplicable, first_leaves, second_leaves};
ghost use Rattle.qs_core.specs.Steps.{HasReturned};
ghost use Rattle.qs_table.specs.Notes.{frees_task};
ghost use Rattle.qs_table.specs.Seats.{IsSeatOf};
ghost use Rattle.qs_worker.specs.inner.Claimed.{HasDone, claimed_view, got_view, over_view};
ghost use Rattle.qs_worker.specs.inner.Leaves.{GrewQuietly};
ghost use Rattle.qs_worker.specs.inner.Rooms.{HasBlockRoom};

use crate::buffers::Buffers;
use crate::leaves::{fetch_leaves, put_leaves};
use qs_core::{Work, ranges_of};
use qs_table::{QsSeat, ResTable};

/// Does a task on the blocks in the buffers.
fn apply_to<W: Work>(work: &W, buffers: &mut Buffers<W::Block>, task: u32)
    requires task { task < length (W.shape (W.plan work.now)).tasks }
    requires first { AreApplicable (W.shape (W.plan work.now)) task (W.fits (W.plan work.now)) W.done (first_leaves (W.shape (W.plan work.now)) task) buffers.old.first.items }
    requires second { AreApplicable (W.shape (W.plan work.now)) task (W.fits (W.plan work.now)) W.done (second_leaves (W.shape (W.plan work.now)) task) buffers.old.second.items }
    ensures first { AreApplied (W.shape (W.plan work.now)) task (W.fits (W.plan work.now)) W.done (first_leaves (W.shape (W.plan work.now)) task) buffers.old.first.items buffers.new.first.items }
    ensures second { AreApplied (W.shape (W.plan work.now)) task (W.fits (W.plan work.now)) W.done (second_leaves (W.shape (W.plan work.now)) task) buffers.old.second.items buffers.new.second.items }
    ensures room { (vec_capacity buffers.new.first ≡ vec_capacity buffers.old.first) × (vec_capacity buffers.new.second ≡ vec_capacity buffers.old.second) }
{
    work.apply(
        task,
        buffers.first.as_mut_slice(),
        buffers.second.as_mut_slice(),
    );
}

/// Does the task that runs on the blocks of its leaves: they are fetched, and put back with it.
fn work_on<W: Work>(
    work: &W,
    table: &ResTable<W>,
    seat: &mut QsSeat<W>,
    buffers: &mut Buffers<W::Block>,
    task: u32,
)
    requires work { W.plan work.now ≡ table.now.plan }
    requires seat { IsSeatOf table.now seat.old }
    requires task { task < length (W.shape table.now.plan).tasks }
    requires runs { seat.old.view.holds ≡ claimed_view (W.shape table.now.plan) task }
    requires empty { (buffers.old.first.items ≡ []) × (buffers.old.second.items ≡ []) }
    requires room { HasBlockRoom (W.shape table.now.plan) (vec_capacity buffers.old.first) (vec_capacity buffers.old.second) }
    ensures seat { IsSeatOf table.now seat.new }
    ensures holds { seat.new.view.holds ≡ over_view (W.shape table.now.plan) task }
    ensures place { seat.new.view.place ≡ seat.old.view.place }
    ensures notes { GrewQuietly seat.old.view.notes seat.new.view.notes }
    ensures empty { (buffers.new.first.items ≡ []) × (buffers.new.second.items ≡ []) }
    ensures room { (vec_capacity buffers.new.first ≡ vec_capacity buffers.old.first) × (vec_capacity buffers.new.second ≡ vec_capacity buffers.old.second) }
{
    let (first, second) = ranges_of(work, task);
    fetch_leaves(table, seat, first, &mut buffers.first);
    fetch_leaves(table, seat, second, &mut buffers.second);
    apply_to(work, buffers, task);
    put_leaves(table, seat, second.from, &mut buffers.second);
    put_leaves(table, seat, first.from, &mut buffers.first);
}

/// Gives back the cells of a task.
pub(crate) fn give_cells<W: Work>(work: &W, table: &ResTable<W>, seat: &mut QsSeat<W>, task: u32)
    requires work { W.plan work.now ≡ table.now.plan }
    requires seat { IsSeatOf table.now seat.old }
    requires task { task < length (W.shape table.now.plan).tasks }
    requires cells { seat.old.view.holds.chains ≡ (got_view (W.shape table.now.plan) task).chains }
    requires none_out { seat.old.view.holds.out ≡ [] }
    requires returned { HasReturned seat.old.view.holds.running }
    ensures seat { IsSeatOf table.now seat.new }
    ensures holds { seat.new.view.holds ≡ record seat.old.view.holds { chains = [] } }
    ensures place { seat.new.view.place ≡ seat.old.view.place }
    ensures notes { GrewQuietly seat.old.view.notes seat.new.view.notes }
{
    let (_first, second) = work.cells_of(task);
    table.give_cell(seat);
    if second.is_some() {
        table.give_cell(seat);
    }
}

/// Does a claimed task: its blocks are fetched, worked on and put back, its cells are given back, and those that wait for it
/// are released. Of these the ones that wait for no other come to the end of the list.
pub(crate) fn do_claimed<W: Work>(
    work: &W,
    table: &ResTable<W>,
    seat: &mut QsSeat<W>,
    buffers: &mut Buffers<W::Block>,
    ready: &mut Vec<u32>,
    task: u32,
)
    requires work { W.plan work.now ≡ table.now.plan }
    requires seat { IsSeatOf table.now seat.old }
    requires task { task < length (W.shape table.now.plan).tasks }
    requires runs { seat.old.view.holds ≡ claimed_view (W.shape table.now.plan) task }
    requires empty { (buffers.old.first.items ≡ []) × (buffers.old.second.items ≡ []) }
    requires room { HasBlockRoom (W.shape table.now.plan) (vec_capacity buffers.old.first) (vec_capacity buffers.old.second) }
    requires spare { length ready.old.items + length (task_at (W.shape table.now.plan) task).successors ≤ vec_capacity ready.old }
    ensures seat { IsSeatOf table.now seat.new }
    ensures done { HasDone (W.shape table.now.plan) task seat.old.view seat.new.view ready.old.items ready.new.items }
    ensures once { (ready.new.items ≡ ready.old.items) ⊎ ((freed : ℕ) → count_by (frees_task freed) seat.new.view.notes ≤ 1) }
    ensures empty { (buffers.new.first.items ≡ []) × (buffers.new.second.items ≡ []) }
    ensures room { (vec_capacity buffers.new.first ≡ vec_capacity buffers.old.first) × (vec_capacity buffers.new.second ≡ vec_capacity buffers.old.second) }
    ensures spare { vec_capacity ready.new ≡ vec_capacity ready.old }
{
    work_on(work, table, seat, buffers, task);
    give_cells(work, table, seat, task);
    if !work.successors(task).is_empty() {
        table.release(work, seat, ready);
    }
}
