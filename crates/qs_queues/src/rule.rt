//! The rule of the shared words, and what each step on them tells its seat.
use crate::view::QueueView;
use atomic_table::{Play, Split, TableRule};
use qs_heap::WeightHeap;

/// What the shared words are told once: how many queues there are, the room of each, and the number of tasks.
#[derive(Drop)]
pub struct About {
    pub queues: u64,
    pub room: u64,
    pub tasks: u64,
}

/// The rule.
pub struct QueueRule;

impl TableRule<Option<WeightHeap>, QueueView, About> for QueueRule {
    ghost use Rattle.qs_queues.specs.Rule.{ShowsQueues};
    ghost use Rattle.qs_queues.specs.Views.{fresh_view};

    ghost holds = { λ key. ShowsQueues key.queues key.room key.tasks };

    ghost first = { λ key. fresh_view key.room key.tasks };
}

/// A lock of a queue.
pub(crate) struct Locks;

impl Play<Option<WeightHeap>, QueueView> for Locks {
    ghost use Rattle.qs_queues.specs.inner.Plays.{locked};

    ghost then = { locked };
}

/// An unlock of a queue.
pub(crate) struct Unlocks;

impl Play<Option<WeightHeap>, QueueView> for Unlocks {
    ghost use Rattle.qs_queues.specs.inner.Plays.{unlocked};

    ghost then = { unlocked };
}

/// A subtraction from the number of tasks left.
pub(crate) struct Subtracts;

impl Play<Option<WeightHeap>, QueueView> for Subtracts {
    ghost use Rattle.qs_queues.specs.inner.Plays.{subtracted};

    ghost then = { subtracted };
}

/// A load of it.
pub(crate) struct Loads;

impl Play<Option<WeightHeap>, QueueView> for Loads {
    ghost use Rattle.qs_queues.specs.inner.Plays.{loaded};

    ghost then = { loaded };
}

/// A seat stays as it is, and beside it stands one that has done nothing.
pub(crate) struct Beside;

impl Split<QueueView> for Beside {
    ghost use Rattle.qs_queues.specs.inner.Plays.{fresh_beside};

    ghost left = { λ v. v };

    ghost right = { fresh_beside };
}
