//! A hold of a queue: its heap is taken, changed, and brought home.
ghost use Rattle.std.specs.Prelude.{◌≡◌, ◌+◌, ◌<◌, ℕ, [], ◌∷◌, None, Some, IfErr, IfOk};
ghost use Rattle.qs_heap.specs.Entries.{entry_of};
ghost use Rattle.qs_heap.specs.Heap.{Heap};
ghost use Rattle.qs_heap.specs.Scans.{AreBelow};
ghost use Rattle.qs_queues.specs.Rule.{IsRightHeap};
ghost use Rattle.qs_queues.specs.Views.{with_note};
ghost use Rattle.qs_queues.specs.declared.view.Held.{Held};
ghost use Rattle.qs_queues.specs.declared.view.QueueNote.TheVariants.{Unlocked};
ghost use Rattle.qs_queues.specs.inner.Holds.{GotHeap, IsEmptyHanded, IsHeldOff, Looks, Puts, TriesHeap};

use crate::answers::{Push, Scan};
use crate::steps::{HeapSeat, HeapShared, lock, unlock};
use qs_heap::{Trial, WeightHeap};

/// Takes the heap out of the slot of a queue that is held.
fn take_out(shared: &HeapShared, seat: &mut HeapSeat, queue: usize) -> WeightHeap
    requires same { seat.old.table_id ≡ shared.now.table_id }
    requires held { (heap : Heap) × (seat.old.me.1 ≡ (queue, Some heap) ∷ []) }
    ensures same { seat.new.table_id ≡ seat.old.table_id }
    ensures was { seat.old.me.1 ≡ (queue, Some result) ∷ [] }
    ensures made { seat.new.me ≡ (seat.old.me.0, (queue, None) ∷ []) }
{
    shared.exchange(seat, queue, None).unwrap()
}

/// Locks a queue and takes its heap. Where the queue was held it gives the word seen.
pub(crate) fn take(
    shared: &HeapShared,
    seat: &mut HeapSeat,
    queue: usize,
) -> Result<WeightHeap, u64>
    requires same { (seat.old.table_id ≡ shared.now.table_id) × (shared.now.table_id.words ≡ shared.now.key.queues + 1) }
    requires queue { (queue < shared.now.key.queues) × (queue < 64) }
    requires none { IsEmptyHanded seat.old.me }
    ensures same { seat.new.table_id ≡ seat.old.table_id }
    ensures taken { IfOk result (λ heap. GotHeap queue seat.old.me heap seat.new.me) }
    ensures held_off { IfErr result (λ seen. IsHeldOff queue seat.old.me seen seat.new.me) }
{
    let seen = lock(shared, seat, queue);
    if seen != 0 {
        return Err(seen);
    }
    Ok(take_out(shared, seat, queue))
}

/// Puts the heap back, and unlocks the queue.
pub(crate) fn bring_home(shared: &HeapShared, seat: &mut HeapSeat, queue: usize, heap: WeightHeap)
    requires same { (seat.old.table_id ≡ shared.now.table_id) × (shared.now.table_id.words ≡ shared.now.key.queues + 1) }
    requires queue { (queue < shared.now.key.queues) × (queue < 64) }
    requires held { (hold : Held) × (seat.old.me.0.held ≡ Some hold) × (hold.queue ≡ queue) }
    requires slot { seat.old.me.1 ≡ (queue, None) ∷ [] }
    requires right { IsRightHeap seat.old.me.0.room seat.old.me.0.tasks heap }
    ensures same { seat.new.table_id ≡ seat.old.table_id }
    ensures made { (hold : Held) → seat.old.me.0.held ≡ Some hold → seat.new.me ≡ (with_note seat.old.me.0 None (Unlocked queue (hold.before + 1) hold.found heap.entries), []) }
{
    let _empty = shared.exchange(seat, queue, Some(heap));
    unlock(shared, seat, queue);
}

/// Puts an entry where there is room.
pub(crate) fn put(heap: &mut WeightHeap, weight: u64, task: u32) -> Push
    ensures put { Puts heap.old.room (entry_of weight task) heap.old.entries result heap.new.entries }
    ensures right { (room tasks : ℕ) → task < tasks → IsRightHeap room tasks heap.old → IsRightHeap room tasks heap.new }
{
    if heap.len() >= heap.room() {
        return Push::Full;
    }
    heap.push(weight, task);
    Push::In
}

/// Takes the first entry that the trial takes.
pub(crate) fn look<T: Trial>(heap: &mut WeightHeap, trial: &mut T) -> Scan
    requires none { T.taken trial.old ≡ None }
    requires below { AreBelow (T.limit trial.old) heap.old.entries }
    ensures limit { T.limit trial.new ≡ T.limit trial.old }
    ensures origin { T.origin trial.new ≡ T.origin trial.old }
    ensures kept { (other : ℕ) → T.refused trial.old other → T.refused trial.new other }
    ensures looked { Looks (T.refused trial.new) (T.taken trial.new) heap.old.entries result heap.new.entries }
    ensures tried { TriesHeap (T.refused trial.new) heap.old.entries result (T.tries trial.old) (T.tries trial.new) }
    ensures right { (room tasks : ℕ) → IsRightHeap room tasks heap.old → IsRightHeap room tasks heap.new }
{
    if heap.len() == 0 {
        return Scan::Empty;
    }
    match heap.scan(trial) {
        Some(task) => Scan::Got(task),
        None => Scan::AllBusy,
    }
}
