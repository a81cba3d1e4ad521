//! What a seat holds: its chains of locks, the leaves that it has out, and its running task.
ghost use Rattle.std.specs.Prelude.{◌≡◌, ◌≢◌, ◌<◌, ◌↔◌, ◌⊎◌, ℕ, [], length, Contains, IsTrue, None, Some};
ghost use Rattle.qs_core.specs.Core.{Owns, empty_view};
ghost use Rattle.qs_core.specs.Steps.{HasReturned, AdmitsChain, IsFree, MayFetch, OwnsAbove, OwnsJust, newest, next_successor};
ghost use Rattle.qs_core.specs.inner.Held.{RunsOn};

mod chain;
mod chains;
mod numbers;
mod owned;
mod running;
mod steps;

use crate::layout::Layout;
use chain::LockChain;
use chains::Chains;
use owned::OwnedCells;
use running::RunningTask;
use std::alloc::Global;
use std::marker::Model;

/// What a seat holds.
#[derive(Drop)]
pub struct Seat {
    chains: Chains,
    out: Vec<u32>,
    running: Option<RunningTask>,
}

impl Model for Seat {
    ghost use Rattle.qs_core.specs.Core.{View};

    ghost Value = { View };

    ghost use Rattle.qs_play.specs.inner.Held.{chains_of};

    ghost view = { λ s. record { chains = chains_of s.chains; out = s.out.items; running = s.running } };
}

impl Seat {
    /// A seat that holds nothing.
    pub(crate) fn new(alloc: Global) -> Seat
        ensures { result ≡ empty_view }
    {
        Seat {
            chains: Chains::Empty,
            out: Vec::new(alloc),
            running: None,
        }
    }

    /// The newest chain: all 0 where there is none.
    fn newest(&self) -> LockChain
        ensures { result ≡ newest self.now }
    {
        self.chains.newest()
    }

    /// The cells of the chains that are complete.
    fn owned(&self, layout: &Layout) -> OwnedCells
        ensures { (cell : ℕ) → (Owns layout.now self.now cell ↔ ((result.newest ≡ Some cell) ⊎ (result.older ≡ Some cell))) }
    {
        let (newest, older) = match self.chains {
            Chains::Empty => (None, None),
            Chains::One(newest) => (newest.owned(layout), None),
            Chains::Two { newest, older } => (newest.owned(layout), older.owned(layout)),
        };
        OwnedCells { newest, older }
    }

    /// Whether the seat owns a cell.
    pub(crate) fn owns(&self, layout: &Layout, cell: u32) -> bool
        ensures { IsTrue result ↔ Owns layout.now self.now cell }
    {
        self.owned(layout).contains(cell)
    }

    /// Whether the seat owns a cell above a leaf.
    fn owns_above(&self, layout: &Layout, leaf: u32) -> bool
        ensures { IsTrue result ↔ OwnsAbove layout.now self.now leaf }
    {
        let owned = self.owned(layout);
        layout.is_below_some(leaf, owned.newest) || layout.is_below_some(leaf, owned.older)
    }

    /// Whether the seat owns just the cells of a task.
    fn owns_just(&self, layout: &Layout, task: u32) -> bool
        requires { task < length layout.now.tasks }
        ensures { IsTrue result ↔ OwnsJust layout.now self.now task }
    {
        self.owned(layout).are_cells_of(layout.task(task))
    }

    /// Whether the seat has a leaf out.
    fn has_out(&self, leaf: u32) -> bool
        ensures { IsTrue result ↔ Contains self.now.out leaf }
    {
        self.out.contains(&leaf)
    }

    /// Whether no leaf is out.
    fn has_none_out(&self) -> bool
        ensures { IsTrue result ↔ (self.now.out ≡ []) }
    {
        self.out.is_empty()
    }

    /// Whether no task runs.
    fn is_idle(&self) -> bool
        ensures { IsTrue result ↔ (self.now.running ≡ None) }
    {
        self.running.is_none()
    }

    /// Whether no leaf is out and no task runs.
    fn is_free(&self) -> bool
        ensures { IsTrue result ↔ IsFree self.now }
    {
        self.has_none_out() && self.is_idle()
    }

    /// Whether there is a chain.
    fn has_chain(&self) -> bool
        ensures { IsTrue result ↔ (self.now.chains ≢ []) }
    {
        match self.chains {
            Chains::Empty => false,
            _ => true,
        }
    }

    /// Whether no task runs that has a leaf left.
    fn has_returned(&self) -> bool
        ensures { IsTrue result ↔ HasReturned self.now.running }
    {
        match &self.running {
            Some(running) => running.has_returned(),
            None => true,
        }
    }

    /// Whether no task runs, or one that has the leaf left.
    fn may_fetch(&self, leaf: u32) -> bool
        ensures { IsTrue result ↔ MayFetch self.now.running leaf }
    {
        match &self.running {
            Some(running) => running.has_left(leaf),
            None => true,
        }
    }

    /// Whether the seat runs a task that has a leaf left.
    pub(crate) fn runs_on(&self, task: u32, leaf: u32) -> bool
        ensures { IsTrue result ↔ RunsOn self.now.running task leaf }
    {
        match &self.running {
            Some(running) => running.task() == task && running.has_left(leaf),
            None => false,
        }
    }

    /// The first successor that is still to release: 0 where there is none.
    fn next_successor(&self) -> u32
        ensures { result ≡ next_successor self.now.running }
    {
        match &self.running {
            Some(running) => running.next_successor(),
            None => 0,
        }
    }

    /// Whether a chain may be added: there is none, or one that is complete and apart from the cell.
    fn admits_chain(&self, layout: &Layout, cell: u32) -> bool
        ensures { IsTrue result ↔ AdmitsChain layout.now self.now cell }
    {
        match self.chains {
            Chains::Empty => true,
            Chains::One(chain) => chain.is_complete(layout) && layout.are_apart(chain.cell(), cell),
            Chains::Two { .. } => false,
        }
    }
}
