//! The steps that a seat takes: where each is allowed, on whose word it is made, and what the seat holds after it.
ghost use Rattle.std.specs.Prelude.{◌≡◌, ◌<◌, ◌↔◌, ℕ, length, IsTrue, OnErr, OnOk};
ghost use Rattle.qs_core.specs.Shape.{Shape};
ghost use Rattle.qs_core.specs.Steps.{Allowed, CanClaim, CanFetch, CanLock, CanLower, CanRaise, CanRelease, CanReturn, CanUnlock, object_of, view_after};

use super::Seat;
use super::chain::LockChain;
use super::numbers::remove_leaf;
use super::running::{RunningTask, after_release, after_return};
use crate::layout::Layout;
use qs_core::Step;
use std::alloc::{AllocError, Global};

impl Seat {
    fn can_lock(&self, layout: &Layout, cell: u32) -> bool
        ensures { IsTrue result ↔ CanLock layout.now self.now cell }
    {
        cell < layout.cells() && self.is_free() && self.admits_chain(layout, cell)
    }

    fn can_raise(&self, layout: &Layout) -> bool
        ensures { IsTrue result ↔ CanRaise layout.now self.now }
    {
        self.has_chain() && self.is_idle() && self.newest().may_raise(layout)
    }

    fn can_lower(&self) -> bool
        ensures { IsTrue result ↔ CanLower self.now }
    {
        self.has_chain() && self.newest().is_raised() && self.has_none_out() && self.has_returned()
    }

    fn can_unlock(&self) -> bool
        ensures { IsTrue result ↔ CanUnlock self.now }
    {
        self.has_chain() && !self.newest().is_raised() && self.has_none_out() && self.has_returned()
    }

    fn can_fetch(&self, layout: &Layout, leaf: u32) -> bool
        ensures { IsTrue result ↔ CanFetch layout.now self.now leaf }
    {
        leaf < layout.leaves()
            && self.owns_above(layout, leaf)
            && !self.has_out(leaf)
            && self.may_fetch(leaf)
    }

    fn can_return(&self, layout: &Layout, leaf: u32) -> bool
        ensures { IsTrue result ↔ CanReturn layout.now self.now leaf }
    {
        leaf < layout.leaves() && self.has_out(leaf)
    }

    fn can_claim(&self, layout: &Layout, task: u32) -> bool
        ensures { IsTrue result ↔ CanClaim layout.now self.now task }
    {
        task < layout.tasks() && self.is_free() && self.owns_just(layout, task)
    }

    fn can_release(&self) -> bool
        ensures { IsTrue result ↔ CanRelease self.now }
    {
        match &self.running {
            Some(running) => running.has_returned() && running.has_successor(),
            None => false,
        }
    }

    /// Whether the seat may make a step.
    pub(crate) fn may(&self, layout: &Layout, step: Step) -> bool
        ensures { IsTrue result ↔ Allowed layout.now self.now step }
    {
        match step {
            Step::Lock { cell } => self.can_lock(layout, cell),
            Step::Raise => self.can_raise(layout),
            Step::Lower => self.can_lower(),
            Step::Unlock => self.can_unlock(),
            Step::Fetch { leaf } => self.can_fetch(layout, leaf),
            Step::Return { leaf } => self.can_return(layout, leaf),
            Step::Claim { task } => self.can_claim(layout, task),
            Step::Release => self.can_release(),
        }
    }

    /// The cell, leaf or task on whose word a step is made.
    pub(crate) fn object(&self, layout: &Layout, step: Step) -> u32
        ensures { result ≡ object_of layout.now self.now step }
    {
        match step {
            Step::Lock { cell } => cell,
            Step::Raise => self.newest().next(layout),
            Step::Lower => self.newest().last(layout),
            Step::Unlock => self.newest().cell(),
            Step::Fetch { leaf } | Step::Return { leaf } => leaf,
            Step::Claim { task } => task,
            Step::Release => self.next_successor(),
        }
    }

    fn lock(&mut self, cell: u32, seen: u64)
        requires { length self.old.chains < 2 }
        ensures { (shape : Shape) → self.new ≡ view_after shape self.old (Step.Lock cell) seen }
    {
        if seen == 0 {
            self.chains = self.chains.with(LockChain::new(cell));
        }
    }

    fn raise(&mut self, layout: &Layout, seen: u64)
        requires can { CanRaise layout.now self.old }
        ensures { self.new ≡ view_after layout.now self.old Step.Raise seen }
    {
        self.chains = self
            .chains
            .with_newest(self.chains.newest().raised(layout, seen));
    }

    fn lower(&mut self)
        ensures { (shape : Shape) (seen : ℕ) → self.new ≡ view_after shape self.old Step.Lower seen }
    {
        self.chains = self.chains.with_newest(self.chains.newest().lowered());
    }

    fn unlock(&mut self)
        ensures { (shape : Shape) (seen : ℕ) → self.new ≡ view_after shape self.old Step.Unlock seen }
    {
        self.chains = self.chains.without_newest();
    }

    fn fetch(&mut self, leaf: u32) -> Result<(), AllocError>
        ensures fetched { OnOk result ((shape : Shape) (seen : ℕ) → self.new ≡ view_after shape self.old (Step.Fetch leaf) seen) }
        ensures unchanged { OnErr result (self.new ≡ self.old) }
    {
        self.out.insert(0, leaf)?;
        Ok(())
    }

    fn bring_home(&mut self, leaf: u32)
        ensures { (shape : Shape) (seen : ℕ) → self.new ≡ view_after shape self.old (Step.Return leaf) seen }
    {
        remove_leaf(&mut self.out, leaf);
        self.running = after_return(self.running.take(), leaf);
    }

    fn claim(
        &mut self,
        alloc: Global,
        layout: &Layout,
        task: u32,
        seen: u64,
    ) -> Result<(), AllocError>
        requires { task < length layout.now.tasks }
        ensures claimed { OnOk result (self.new ≡ view_after layout.now self.old (Step.Claim task) seen) }
        ensures unchanged { OnErr result (self.new ≡ self.old) }
    {
        if seen == 0 {
            self.running = Some(RunningTask::new(alloc, layout, task)?);
        }
        Ok(())
    }

    fn release(&mut self)
        ensures { (shape : Shape) (seen : ℕ) → self.new ≡ view_after shape self.old Step.Release seen }
    {
        self.running = after_release(self.running.take());
    }

    /// Makes a step that saw this word. The memory for it is taken first.
    pub(crate) fn make(
        &mut self,
        alloc: Global,
        layout: &Layout,
        step: Step,
        seen: u64,
    ) -> Result<(), AllocError>
        requires { Allowed layout.now self.old step }
        ensures made { OnOk result (self.new ≡ view_after layout.now self.old step seen) }
        ensures unchanged { OnErr result (self.new ≡ self.old) }
    {
        match step {
            Step::Lock { cell } => self.lock(cell, seen),
            Step::Raise => self.raise(layout, seen),
            Step::Lower => self.lower(),
            Step::Unlock => self.unlock(),
            Step::Fetch { leaf } => self.fetch(leaf)?,
            Step::Return { leaf } => self.bring_home(leaf),
            Step::Claim { task } => self.claim(alloc, layout, task, seen)?,
            Step::Release => self.release(),
        }
        Ok(())
    }
}
