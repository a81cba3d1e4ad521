//! A small work: a cell with three cells below it, each of which has one leaf and one task. No task waits for another, and
//! the second is the heaviest.
ghost use Rattle.std.specs.Prelude.{◌≡◌, ◌∷◌, [], IfOk};

use qs_core::Work;
use std::alloc::{AllocError, Global};
use std::sync::atomic::{AtomicU64, Ordering};

/// What stands at a leaf: the leaf's number, and how often its task was done.
#[derive(Clone, Copy, Debug, PartialEq, Eq)]
pub(crate) struct Tally {
    leaf: u32,
    times: u32,
}

impl Tally {
    fn of(leaf: u32, times: u32) -> Tally
        ensures { result ≡ record { leaf = leaf; times = times } }
    {
        Tally { leaf, times }
    }

    fn count(&mut self)
        requires { self.old.times ≡ 0 }
        ensures { self.new ≡ record { leaf = self.old.leaf; times = 1 } }
    {
        self.times += 1;
    }
}

/// The work, which counts how many of its tasks were done.
#[derive(Drop)]
pub(crate) struct FreeTasks {
    done: AtomicU64,
}

impl FreeTasks {
    pub(crate) fn new() -> FreeTasks {
        FreeTasks {
            done: AtomicU64::new(0),
        }
    }

    /// How many tasks were done.
    pub(crate) fn done(&self) -> u64 {
        self.done.load(Ordering::SeqCst)
    }
}

/// The blocks of all leaves, with each task done so often.
pub(crate) fn tallies(alloc: Global, times: u32) -> Result<Vec<Tally>, AllocError>
    ensures { IfOk result (λ v. v.items ≡ record { leaf = 0; times = times } ∷ record { leaf = 1; times = times } ∷ record { leaf = 2; times = times } ∷ []) }
{
    let blocks = vec![in alloc;
        Tally::of(0, times),
        Tally::of(1, times),
        Tally::of(2, times),
    ]?;
    Ok(blocks)
}

impl Work for FreeTasks {
    ghost use Rattle.std.specs.Prelude.{◌≡◌};
    ghost use Rattle.qs_run.specs.inner.Free.{done_times, free_tasks};

    type Plan = ();

    type Block = Tally;

    ghost plan = { λ _. tt };

    ghost shape = { λ _. free_tasks };

    ghost done = { λ t. done_times t.leaf t.times };

    ghost fits = { λ _ leaf t. t.leaf ≡ leaf };

    fn cells(&self) -> u32 {
        4
    }

    fn parent(&self, cell: u32) -> Option<u32> {
        match cell {
            0 => None,
            _ => Some(0),
        }
    }

    fn leaves(&self) -> u32 {
        3
    }

    fn leaf_range(&self, cell: u32) -> (u32, u32) {
        match cell {
            0 => (0, 3),
            _ => (cell - 1, cell),
        }
    }

    fn tasks(&self) -> u32 {
        3
    }

    fn cells_of(&self, task: u32) -> (u32, Option<u32>) {
        (task + 1, None)
    }

    fn successors(&self, _task: u32) -> &[u32] {
        &[]
    }

    fn waits(&self, _task: u32) -> u32 {
        0
    }

    fn weight(&self, task: u32) -> u64 {
        match task {
            0 => 1,
            1 => 2,
            _ => 0,
        }
    }

    fn apply(&self, _task: u32, first: &mut [Tally], _second: &mut [Tally]) {
        first[0].count();
        self.done.fetch_add(1, Ordering::SeqCst);
    }
}
