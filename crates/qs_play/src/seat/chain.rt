//! A chain of locks: a cell that is locked, with its ancestors raised from the parent up.
ghost use Rattle.std.specs.Prelude.{◌≡◌, ◌-◌, ◌<◌, ◌↔◌, ℕ, false, length, IsTrue, Some};
ghost use Rattle.qs_core.specs.Shape.{ancestors};
ghost use Rattle.qs_core.specs.Core.{IsComplete};
ghost use Rattle.qs_core.specs.Steps.{ancestor_at, lowered_chain, new_chain, raised_chain};
ghost use Rattle.qs_play.specs.inner.Held.{IsOwner};

use crate::layout::Layout;
use std::marker::Model;

/// A locked cell with the number of its ancestors that are raised.
#[derive(Clone, Copy)]
pub struct LockChain {
    cell: u32,
    raises: u32,
    stopped: bool,
    giving: bool,
}

impl Model for LockChain {
    ghost use Rattle.qs_core.specs.Core.{Chain};

    ghost Value = { Chain };

    ghost view = { λ c. record { cell = c.cell; raises = c.raises; stopped = c.stopped; giving = c.giving } };

    ghost inverse = { λ d. record { cell = d.cell; raises = d.raises; stopped = d.stopped; giving = d.giving } };
}

impl LockChain {
    /// The chain of a cell that was just locked.
    pub fn new(cell: u32) -> LockChain
        ensures { result ≡ new_chain cell }
    {
        LockChain {
            cell,
            raises: 0,
            stopped: false,
            giving: false,
        }
    }

    /// Whether the cell is owned.
    pub fn is_complete(self, layout: &Layout) -> bool
        ensures { IsTrue result ↔ IsComplete layout.now self }
    {
        !self.stopped && !self.giving && self.raises == layout.depth(self.cell)
    }

    /// Whether the next ancestor may be raised.
    pub fn may_raise(self, layout: &Layout) -> bool
        ensures { IsTrue result ↔ ((self.raises < length (ancestors layout.now self.cell)) × (self.stopped ≡ false) × (self.giving ≡ false)) }
    {
        !self.stopped && !self.giving && self.raises < layout.depth(self.cell)
    }

    /// Whether an ancestor is raised.
    pub fn is_raised(self) -> bool
        ensures { IsTrue result ↔ (0 < self.raises) }
    {
        self.raises > 0
    }

    /// The locked cell.
    pub fn cell(self) -> u32
        ensures { result ≡ self.cell }
    {
        self.cell
    }

    /// The ancestor that is raised next: 0 where there is none.
    pub fn next(self, layout: &Layout) -> u32
        ensures { result ≡ ancestor_at layout.now self self.raises }
    {
        layout.ancestor(self.cell, self.raises)
    }

    /// The ancestor that was raised last: the parent where none was.
    pub fn last(self, layout: &Layout) -> u32
        ensures { result ≡ ancestor_at layout.now self (self.raises - 1) }
    {
        layout.ancestor(self.cell, self.raises.saturating_sub(1))
    }

    /// The chain after a raise that saw this word: an odd one is locked.
    pub fn raised(self, layout: &Layout, seen: u64) -> LockChain
        requires { self.raises < length (ancestors layout.now self.cell) }
        ensures { result ≡ raised_chain self seen }
    {
        let depth = layout.depth(self.cell);
        prove!(self.raises < depth);
        LockChain {
            cell: self.cell,
            raises: self.raises + 1,
            stopped: seen % 2 == 1,
            giving: self.giving,
        }
    }

    /// The chain after a lower.
    pub fn lowered(self) -> LockChain
        ensures { result ≡ lowered_chain self }
    {
        LockChain {
            cell: self.cell,
            raises: self.raises.saturating_sub(1),
            stopped: self.stopped,
            giving: true,
        }
    }

    /// The cell, where it is owned.
    pub fn owned(self, layout: &Layout) -> Option<u32>
        ensures { (cell : ℕ) → ((result ≡ Some cell) ↔ IsOwner layout.now self cell) }
    {
        if self.is_complete(layout) {
            Some(self.cell)
        } else {
            None
        }
    }
}
