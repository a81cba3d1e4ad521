//! The four kinds of step on a shared word.
ghost use Rattle.std.specs.Prelude.{◌≡◌, ◌+◌, ◌<◌, [], ◌∷◌, Some};
ghost use Rattle.qs_heap.specs.Heap.{Heap};
ghost use Rattle.qs_queues.specs.Rule.{IsRightHeap};
ghost use Rattle.qs_queues.specs.declared.view.Held.{Held};
ghost use Rattle.qs_queues.specs.inner.Holds.{IsEmptyHanded};
ghost use Rattle.qs_queues.specs.inner.Plays.{HasLoaded, HasLocked, HasSubtracted, HasUnlocked};

use crate::rule::{About, Loads, Locks, QueueRule, Subtracts, Unlocks};
use crate::view::QueueView;
use atomic_table::{Seat, Shared};
use qs_heap::WeightHeap;

/// The shared words, with a slot for each queue's heap.
pub(crate) type HeapShared = Shared<Option<WeightHeap>, QueueView, About, QueueRule>;

/// A seat at them.
pub(crate) type HeapSeat = Seat<Option<WeightHeap>, QueueView>;

/// Locks a queue where its word is 0: the word seen.
pub(crate) fn lock(shared: &HeapShared, seat: &mut HeapSeat, queue: usize) -> u64
    requires same { (seat.old.table_id ≡ shared.now.table_id) × (shared.now.table_id.words ≡ shared.now.key.queues + 1) }
    requires queue { (queue < shared.now.key.queues) × (queue < 64) }
    requires none { IsEmptyHanded seat.old.me }
    ensures same { seat.new.table_id ≡ seat.old.table_id }
    ensures locked { HasLocked queue seat.old.me result seat.new.me }
{
    shared.compare_exchange::<Locks>(seat, queue + 1, 0, 1)
}

/// Unlocks the queue that is held.
pub(crate) fn unlock(shared: &HeapShared, seat: &mut HeapSeat, queue: usize)
    requires same { (seat.old.table_id ≡ shared.now.table_id) × (shared.now.table_id.words ≡ shared.now.key.queues + 1) }
    requires queue { (queue < shared.now.key.queues) × (queue < 64) }
    requires held { (hold : Held) × (heap : Heap) × (seat.old.me.0.held ≡ Some hold) × (hold.queue ≡ queue) × (seat.old.me.1 ≡ (queue, Some heap) ∷ []) × IsRightHeap seat.old.me.0.room seat.old.me.0.tasks heap }
    ensures same { seat.new.table_id ≡ seat.old.table_id }
    ensures unlocked { HasUnlocked queue seat.old.me seat.new.me }
{
    shared.store::<Unlocks>(seat, queue + 1, 0)
}

/// Lowers the number of tasks left by one.
pub(crate) fn subtract(shared: &HeapShared, seat: &mut HeapSeat)
    requires same { (seat.old.table_id ≡ shared.now.table_id) × (shared.now.table_id.words ≡ shared.now.key.queues + 1) }
    ensures same { seat.new.table_id ≡ seat.old.table_id }
    ensures subtracted { HasSubtracted seat.old.me seat.new.me }
{
    shared.fetch_sub::<Subtracts>(seat, 0, 1);
}

/// Reads the number of tasks left.
pub(crate) fn load(shared: &HeapShared, seat: &mut HeapSeat) -> u64
    requires same { (seat.old.table_id ≡ shared.now.table_id) × (shared.now.table_id.words ≡ shared.now.key.queues + 1) }
    ensures same { seat.new.table_id ≡ seat.old.table_id }
    ensures loaded { HasLoaded seat.old.me result seat.new.me }
{
    shared.load::<Loads>(seat, 0)
}
