//! The tasks that wait for no other are shared out among workers.
ghost use Rattle.std.specs.Prelude.{◌≡◌, ◌<◌, [], All, Some, length};
ghost use Rattle.qs_worker.specs.inner.Sharing.{AreShared};

use crate::worker::Worker;
use qs_core::Work;

/// Puts each task that waits for no other into the ready list of the worker at the place that is its remainder by the number
/// of workers.
pub(crate) fn share_out<W: Work>(work: &W, workers: &mut [Worker<W>])
    requires some { 0 < length workers.old }
    requires plan { All (λ w. w.lock_seat.plan ≡ Some (W.plan work.now)) workers.old }
    requires none { All (λ w. w.ready ≡ []) workers.old }
    ensures { AreShared (W.shape (W.plan work.now)) (length (W.shape (W.plan work.now)).tasks) workers.old workers.new }
{
    for task in 0..work.tasks() {
        if work.waits(task) == 0 {
            let place = task as usize % workers.len();
            workers[place].add_ready(task);
        }
    }
}
