//! The cells above each cell.
ghost use Rattle.std.specs.Prelude.{◌≡◌, ◌<◌, ◌++◌, ◌∷◌, [], get_or, length, map, IfOk, IfSome, OnOk};
ghost use Rattle.std.specs.List.{range_with_len};
ghost use Rattle.qs_core.specs.Shape.{ancestors};
ghost use Rattle.qs_table.specs.inner.Lines.{line_of};

use qs_core::Work;
use std::alloc::{AllocError, Global};
use std::marker::Model;

/// The proper ancestors of each cell, parent first. All stand in one list, so that a walk up from a cell is a walk
/// along a slice.
#[derive(Drop)]
pub(crate) struct Lines {
    // Of each cell: from which place on its ancestors stand, and up to which.
    lines: Vec<(usize, usize)>,
    above: Vec<u32>,
}

impl Model for Lines {
    ghost use Rattle.std.specs.Prelude.{ℕ, List, map};
    ghost use Rattle.qs_table.specs.inner.Lines.{AreCuts, cut};

    ghost Value = { List (List ℕ) };

    ghost view = { λ l. map (cut l.above.items) l.lines.items };

    ghost invariant = { λ l. AreCuts l.above.items l.lines.items };
}

impl Lines {
    /// The ancestors of the cells of a work.
    pub(crate) fn of<W: Work>(alloc: Global, work: &W) -> Result<Lines, AllocError>
        ensures { IfOk result (λ l. l ≡ map (ancestors (W.shape (W.plan work.now))) (range_with_len 0 (length (W.shape (W.plan work.now)).parents))) }
    {
        let mut lines = Lines {
            lines: Vec::new(alloc),
            above: Vec::new(alloc),
        };
        for cell in 0..work.cells() {
            lines.push(work.parent(cell))?;
        }
        Ok(lines)
    }

    /// Adds a cell with this parent.
    fn push(&mut self, parent: Option<u32>) -> Result<(), AllocError>
        requires { IfSome parent (λ p. p < length self.old) }
        ensures { OnOk result (self.new ≡ self.old ++ line_of self.old parent ∷ []) }
    {
        let from = self.above.len();
        if let Some(parent) = parent {
            let (first, end) = self.lines[parent as usize];
            self.above.push(parent)?;
            self.above.extend_from_within(first..end)?;
        }
        self.lines.push((from, self.above.len()))?;
        Ok(())
    }

    /// How many cells there are.
    pub(crate) fn cells(&self) -> usize
        ensures { result ≡ length self.now }
    {
        self.lines.len()
    }

    /// The ancestors of a cell.
    pub(crate) fn above(&self, cell: u32) -> &[u32]
        requires { cell < length self.now }
        ensures { result.now ≡ get_or self.now cell [] }
    {
        let (from, to) = self.lines[cell as usize];
        &self.above[from..to]
    }
}
