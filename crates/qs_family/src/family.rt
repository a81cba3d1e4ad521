//! Four cells, of which 1 is below 0, and 2 and 3 below 1, each with one leaf.
ghost use Rattle.std.specs.Prelude.{◌≡◌, ◌<◌, ◌↔◌, ◌⊎◌, ℕ, Contains, ⊤};
ghost use Rattle.qs_family.specs.Family.{done_by, family};

use qs_core::Work;

/// The tasks that are done on a leaf.
#[derive(Clone, Copy, Debug, PartialEq, Eq)]
pub struct Marks {
    zeroth: bool,
    first: bool,
    second: bool,
}

impl Marks {
    /// The marks of a leaf.
    pub fn of(zeroth: bool, first: bool, second: bool) -> Marks
        ensures { result ≡ record { zeroth = zeroth; first = first; second = second } }
    {
        Marks {
            zeroth,
            first,
            second,
        }
    }

    fn mark(&mut self, task: u32)
        requires { task < 3 }
        ensures { (t : ℕ) → (Contains (done_by self.new.zeroth self.new.first self.new.second) t ↔ (Contains (done_by self.old.zeroth self.old.first self.old.second) t ⊎ (t ≡ task))) }
    {
        match task {
            0 => self.zeroth = true,
            1 => self.first = true,
            _ => self.second = true,
        }
    }
}

/// The cells, with no tasks, with two on cell 2, the second of which waits for the first, or with a third
/// on cells 2 and 3 that waits for both.
#[derive(Clone, Copy)]
pub struct Family {
    has_tasks: bool,
    has_third: bool,
}

/// The cells alone.
pub const CELLS: Family = Family {
    has_tasks: false,
    has_third: false,
};

/// The cells and two tasks.
pub const TASKS: Family = Family {
    has_tasks: true,
    has_third: false,
};

/// The cells and all three tasks.
pub const THREE: Family = Family {
    has_tasks: true,
    has_third: true,
};

impl Work for Family {
    type Plan = Family;

    type Block = Marks;

    ghost plan = { λ f. f };

    ghost shape = { λ f. family f.has_tasks f.has_third };

    ghost done = { λ m. done_by m.zeroth m.first m.second };

    ghost fits = { λ _ _ _. ⊤ };

    fn cells(&self) -> u32 {
        4
    }

    fn parent(&self, cell: u32) -> Option<u32> {
        match cell {
            0 => None,
            1 => Some(0),
            _ => Some(1),
        }
    }

    fn leaves(&self) -> u32 {
        2
    }

    fn leaf_range(&self, cell: u32) -> (u32, u32) {
        match cell {
            2 => (0, 1),
            3 => (1, 2),
            _ => (0, 2),
        }
    }

    fn tasks(&self) -> u32 {
        match (self.has_tasks, self.has_third) {
            (false, _) => 0,
            (true, false) => 2,
            (true, true) => 3,
        }
    }

    fn cells_of(&self, task: u32) -> (u32, Option<u32>) {
        if task == 2 { (2, Some(3)) } else { (2, None) }
    }

    fn successors(&self, task: u32) -> &[u32] {
        match (task, self.has_third) {
            (0, false) => &[1],
            (0, true) => &[1, 2],
            (1, true) => &[2],
            _ => &[],
        }
    }

    fn waits(&self, task: u32) -> u32 {
        task
    }

    fn weight(&self, task: u32) -> u64 {
        match task {
            0 => 2,
            1 => 1,
            _ => 0,
        }
    }

    fn apply(&self, task: u32, first: &mut [Marks], second: &mut [Marks]) {
        first[0].mark(task);
        if let Some(marks) = second.first_mut() {
            marks.mark(task);
        }
    }
}
