//! The cells that a seat owns.
ghost use Rattle.std.specs.Prelude.{◌≡◌, ◌↔◌, ◌⊎◌, IsTrue, Some};
ghost use Rattle.qs_play.specs.inner.Held.{AreJust, IsEither};

use crate::layout::TaskPlan;

/// The cells that a seat owns: one for each chain that is complete.
#[derive(Clone, Copy)]
pub struct OwnedCells {
    pub newest: Option<u32>,
    pub older: Option<u32>,
}

impl OwnedCells {
    /// Whether they are just the cells of a task.
    pub fn are_cells_of(self, task: &TaskPlan) -> bool
        ensures { IsTrue result ↔ AreJust self.newest self.older task.now.first task.now.second }
    {
        self.contains(task.first())
            && self.has(task.second())
            && task.has(self.newest)
            && task.has(self.older)
    }

    /// Whether the cell, if there is one, is one of them.
    fn has(self, cell: Option<u32>) -> bool
        ensures { IsTrue result ↔ IsEither cell self.newest self.older }
    {
        match cell {
            Some(cell) => self.contains(cell),
            None => true,
        }
    }

    /// Whether the cell is one of them.
    pub fn contains(self, cell: u32) -> bool
        ensures { IsTrue result ↔ ((self.newest ≡ Some cell) ⊎ (self.older ≡ Some cell)) }
    {
        self.newest == Some(cell) || self.older == Some(cell)
    }
}
