//! Tasks that are ready are offered to the queues.
ghost use Rattle.std.specs.Prelude.{◌≡◌, ◌<◌, All, length, vec_capacity};
ghost use Rattle.qs_heap.specs.Entries.{entry_of};
ghost use Rattle.qs_queues.specs.Calls.{Noted};
ghost use Rattle.qs_queues.specs.Seats.{IsQueueSeatOf};
ghost use Rattle.qs_worker.specs.Offers.{ArePushed};
ghost use Rattle.qs_worker.specs.Turns.{entry_in};
ghost use Rattle.qs_worker.specs.inner.Pushing.{Offered};

use qs_core::Work;
use qs_queues::{Push, QueueSeat, Queues};

/// Offers a task to the queues, in cyclic order from the worker's own, until one takes it.
fn offer(queues: &Queues, seat: &mut QueueSeat, own: u32, weight: u64, task: u32) -> bool
    requires seat { IsQueueSeatOf queues.now seat.old }
    requires own { own < queues.now.queues }
    requires task { task < queues.now.tasks }
    ensures seat { IsQueueSeatOf queues.now seat.new }
    ensures offered { Offered queues.now.room queues.now.queues own (entry_of weight task) result seat.old.view seat.new.view }
{
    let count = queues.queues();
    for k in 0..count {
        match queues.push(seat, (own + k) % count, weight, task) {
            Push::In => return true,
            Push::Held { .. } | Push::Full => {}
        }
    }
    false
}

/// Offers the tasks of the ready list, from the last. It stops at the first that no queue takes.
pub(crate) fn push_ready<W: Work>(
    work: &W,
    queues: &Queues,
    seat: &mut QueueSeat,
    own: u32,
    ready: &mut Vec<u32>,
)
    requires seat { IsQueueSeatOf queues.now seat.old }
    requires own { own < queues.now.queues }
    requires tasks { queues.now.tasks ≡ length (W.shape (W.plan work.now)).tasks }
    requires ready { All (λ task. task < queues.now.tasks) ready.old.items }
    ensures seat { IsQueueSeatOf queues.now seat.new }
    ensures pushed { Noted (ArePushed queues.now.room queues.now.queues own (entry_in (W.shape (W.plan work.now))) ready.old.items ready.new.items) seat.old.view seat.new.view }
    ensures room { vec_capacity ready.new ≡ vec_capacity ready.old }
{
    while let Some(task) = ready.pop() {
        if !offer(queues, seat, own, work.weight(task), task) {
            ready.push_reserved(task);
            return;
        }
    }
}
