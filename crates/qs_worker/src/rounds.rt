//! The queues are looked at for a task.
ghost use Rattle.std.specs.Prelude.{◌≡◌, ◌<◌, ℕ, None, length};
ghost use Rattle.qs_core.specs.Core.{empty_view};
ghost use Rattle.qs_table.specs.Seats.{IsSeatOf};
ghost use Rattle.qs_queues.specs.Calls.{Noted};
ghost use Rattle.qs_queues.specs.Seats as queue;
ghost use Rattle.qs_worker.specs.Rounds.{Found};
ghost use Rattle.qs_worker.specs.Refusals.{WasRefused};
ghost use Rattle.qs_worker.specs.inner.Trials.{HasLooked, since};

use crate::trial::TaskTrial;
use qs_core::Work;
use qs_heap::Trial;
use qs_queues::{QueueSeat, Queues, Scan};
use qs_table::{QsSeat, ResTable};

/// Looks at the queues in cyclic order from the worker's own, until a task is taken.
fn look_round<T: Trial>(
    queues: &Queues,
    seat: &mut QueueSeat,
    own: u32,
    trial: &mut T,
) -> Option<u32>
    requires seat { queue.IsQueueSeatOf queues.now seat.old }
    requires own { own < queues.now.queues }
    requires none { T.taken trial.old ≡ None }
    requires limit { T.limit trial.old ≡ queues.now.tasks }
    ensures seat { queue.IsQueueSeatOf queues.now seat.new }
    ensures found { Noted (Found (T.refused trial.new) queues.now.queues own result) seat.old.view seat.new.view }
    ensures taken { T.taken trial.new ≡ result }

    // What the trial was made with stays, and what was refused stays so.
    ensures limit { T.limit trial.new ≡ T.limit trial.old }
    ensures origin { T.origin trial.new ≡ T.origin trial.old }
    ensures kept { (other : ℕ) → T.refused trial.old other → T.refused trial.new other }
{
    let count = queues.queues();
    for k in 0..count {
        match queues.scan(seat, (own + k) % count, trial) {
            Scan::Got(task) => return Some(task),
            Scan::Held { .. } | Scan::Empty | Scan::AllBusy => {}
        }
    }
    None
}

/// Looks at the queues with a trial of tasks.
fn look_with<W: Work>(
    queues: &Queues,
    queue_seat: &mut QueueSeat,
    own: u32,
    trial: &mut TaskTrial<W>,
) -> Option<u32>
    requires queue_seat { queue.IsQueueSeatOf queues.now queue_seat.old }
    requires own { own < queues.now.queues }
    requires tasks { queues.now.tasks ≡ length (W.shape trial.old.table.plan).tasks }
    requires none { trial.old.taken ≡ None }
    ensures queue_seat { queue.IsQueueSeatOf queues.now queue_seat.new }
    ensures name { trial.new.name ≡ trial.old.name }
    ensures start { (trial.new.start ≡ trial.old.start) × (trial.new.table ≡ trial.old.table) }
    ensures taken { trial.new.taken ≡ result }
    ensures found { Noted (Found (WasRefused (W.shape trial.new.table.plan) (since trial.new.start.notes trial.new.now.view.notes)) queues.now.queues own result) queue_seat.old.view queue_seat.new.view }
{
    look_round(queues, queue_seat, own, trial)
}

/// Looks at the queues for a task that can be claimed.
pub(crate) fn look<W: Work>(
    work: &W,
    table: &ResTable<W>,
    queues: &Queues,
    seat: &mut QsSeat<W>,
    queue_seat: &mut QueueSeat,
    own: u32,
) -> Option<u32>
    requires work { W.plan work.now ≡ table.now.plan }
    requires seat { IsSeatOf table.now seat.old }
    requires rests { seat.old.view.holds ≡ empty_view }
    requires queue_seat { queue.IsQueueSeatOf queues.now queue_seat.old }
    requires own { own < queues.now.queues }
    requires tasks { queues.now.tasks ≡ length (W.shape table.now.plan).tasks }
    ensures seat { IsSeatOf table.now seat.new }
    ensures queue_seat { queue.IsQueueSeatOf queues.now queue_seat.new }
    ensures looked { HasLooked (W.shape table.now.plan) queues.now.queues own seat.old.view queue_seat.old.view result seat.new.view queue_seat.new.view }
{
    let mut trial = TaskTrial::new(work, table, seat);
    let found = look_with(queues, queue_seat, own, &mut trial);
    let _lent = trial.into_seat();
    found
}
