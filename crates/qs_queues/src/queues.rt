//! The queues, as threads share them.
ghost use Rattle.std.specs.Prelude.{◌≡◌, ◌<◌, ◌≤◌, ℕ, [], ◌∷◌, None};
ghost use Rattle.qs_heap.specs.Entries.{entry_of};
ghost use Rattle.qs_queues.specs.Calls.{Noted, SaysPush, SaysScan, SaysTries};
ghost use Rattle.qs_queues.specs.Seats.{IsQueueSeatOf};
ghost use Rattle.qs_queues.specs.Views.{with_less, with_notes};
ghost use Rattle.qs_queues.specs.declared.view.QueueNote.TheVariants.{Loaded};

use crate::answers::{Push, Scan};
use crate::held::{bring_home, look, put, take};
use crate::rule::{About, QueueRule};
use crate::seat::QueueSeat;
use crate::steps::{load, subtract};
use crate::view::QueueView;
use atomic_table::Table;
use qs_heap::{Trial, WeightHeap};
use std::alloc::Global;
use std::marker::Model;

/// The shared words, with their memory.
pub(crate) type QueueTable = Table<Option<WeightHeap>, QueueView, About, QueueRule, Global>;

/// Queues of tasks, each a heap with room for so many, and the number of tasks left. What threads share of them are
/// words, each changed in single steps: no call but `new` takes memory, waits, or tries a step again.
#[derive(Drop)]
pub struct Queues {
    pub(crate) table: QueueTable,
    pub(crate) queues: u32,
}

impl Model for Queues {
    ghost use Rattle.std.specs.Prelude.{◌≡◌, ◌≤◌, ◌+◌};
    ghost use Rattle.qs_queues.specs.Seats.{QueuesView};

    ghost Value = { QueuesView };

    ghost view = { λ q. record {
      id = q.table.shared.table_id;
      queues = q.table.shared.key.queues;
      room = q.table.shared.key.room;
      tasks = q.table.shared.key.tasks;
    } };

    ghost invariant = { λ q. (q.table.shared.table_id.words ≡ q.table.shared.key.queues + 1) × (q.queues ≡ q.table.shared.key.queues) × (q.queues ≤ 64) };
}

impl Queues {
    /// How many queues there are.
    pub fn queues(&self) -> u32
        ensures value { result ≡ self.now.queues }
        ensures few { self.now.queues ≤ 64 }
    {
        self.queues
    }

    /// Puts a task with its weight into a queue: by one hold of it, where it wasn't held.
    pub fn push(&self, seat: &mut QueueSeat, queue: u32, weight: u64, task: u32) -> Push
        requires seat { IsQueueSeatOf self.now seat.old }
        requires queue { queue < self.now.queues }
        requires task { task < self.now.tasks }
        ensures seat { IsQueueSeatOf self.now seat.new }
        ensures pushed { Noted (SaysPush self.now.room queue (entry_of weight task) result) seat.old.view seat.new.view }
    {
        let queue = queue as usize;
        let mut heap = match take(&self.table.shared, &mut seat.seat, queue) {
            Ok(heap) => heap,
            Err(seen) => return Push::Held { seen },
        };
        let answer = put(&mut heap, weight, task);
        bring_home(&self.table.shared, &mut seat.seat, queue, heap);
        answer
    }

    /// Tries the tasks of a queue in the order of its list, and takes the first that can be taken: by one hold of it,
    /// where it wasn't held.
    pub fn scan<T: Trial>(&self, seat: &mut QueueSeat, queue: u32, trial: &mut T) -> Scan
        requires seat { IsQueueSeatOf self.now seat.old }
        requires queue { queue < self.now.queues }
        requires none { T.taken trial.old ≡ None }
        requires limit { T.limit trial.old ≡ self.now.tasks }
        ensures seat { IsQueueSeatOf self.now seat.new }
        ensures scanned { Noted (SaysScan (T.refused trial.new) (T.taken trial.new) queue result) seat.old.view seat.new.view }
        ensures tried { Noted (SaysTries (T.refused trial.new) queue result (T.tries trial.old) (T.tries trial.new)) seat.old.view seat.new.view }

        // What the trial was made with stays, and what was refused stays so.
        ensures limit { T.limit trial.new ≡ T.limit trial.old }
        ensures origin { T.origin trial.new ≡ T.origin trial.old }
        ensures kept { (other : ℕ) → T.refused trial.old other → T.refused trial.new other }
    {
        let queue = queue as usize;
        let mut heap = match take(&self.table.shared, &mut seat.seat, queue) {
            Ok(heap) => heap,
            Err(seen) => return Scan::Held { seen },
        };
        let answer = look(&mut heap, trial);
        bring_home(&self.table.shared, &mut seat.seat, queue, heap);
        answer
    }

    /// Lowers the number of tasks left by one.
    pub fn finish_one(&self, seat: &mut QueueSeat)
        requires { IsQueueSeatOf self.now seat.old }
        ensures seat { IsQueueSeatOf self.now seat.new }
        ensures one { seat.new.view ≡ with_less seat.old.view }
    {
        subtract(&self.table.shared, &mut seat.seat);
    }

    /// The number of tasks left.
    pub fn left(&self, seat: &mut QueueSeat) -> u64
        requires { IsQueueSeatOf self.now seat.old }
        ensures seat { IsQueueSeatOf self.now seat.new }
        ensures loaded { seat.new.view ≡ with_notes seat.old.view (Loaded result ∷ []) }
    {
        load(&self.table.shared, &mut seat.seat)
    }
}
