//! The task that a seat runs.
ghost use Rattle.std.specs.Prelude.{◌≡◌, ◌≢◌, ◌<◌, ◌↔◌, [], length, slice_index, Contains, IfOk, IsTrue};
ghost use Rattle.qs_core.specs.Steps.{after_release, after_return, started, unless_over};

use super::numbers::{first_of, remove_first, remove_leaf};
use crate::layout::Layout;
use std::alloc::{AllocError, Global};
use std::marker::Model;

/// A claimed task with the leaves and the successors that it has left, in order.
#[derive(Drop)]
pub struct RunningTask {
    task: u32,
    leaves: Vec<u32>,
    successors: Vec<u32>,
}

impl Model for RunningTask {
    ghost use Rattle.qs_core.specs.Core.{Running};

    ghost Value = { Running };

    ghost view = { λ r. record { task = r.task; leaves = r.leaves.items; successors = r.successors.items } };
}

impl RunningTask {
    /// A task that was just claimed: all is left.
    pub fn new(alloc: Global, layout: &Layout, task: u32) -> Result<RunningTask, AllocError>
        requires { task < length layout.now.tasks }
        ensures { IfOk result (λ running. running ≡ started layout.now task) }
    {
        Ok(RunningTask {
            task,
            leaves: layout.leaves_of(alloc, task)?,
            successors: Vec::from_slice(alloc, layout.task(task).successors())?,
        })
    }

    /// The number of the task.
    pub fn task(&self) -> u32
        ensures { result ≡ self.now.task }
    {
        self.task
    }

    /// Whether no leaf is left to return.
    pub fn has_returned(&self) -> bool
        ensures { IsTrue result ↔ (self.now.leaves ≡ []) }
    {
        self.leaves.is_empty()
    }

    /// Whether the leaf is left to return.
    pub fn has_left(&self, leaf: u32) -> bool
        ensures { IsTrue result ↔ Contains self.now.leaves leaf }
    {
        self.leaves.contains(&leaf)
    }

    /// Whether a successor is left to release.
    pub fn has_successor(&self) -> bool
        ensures { IsTrue result ↔ (self.now.successors ≢ []) }
    {
        !self.successors.is_empty()
    }

    /// The first successor that is still to release: 0 where there is none.
    pub fn next_successor(&self) -> u32
        ensures { result ≡ slice_index self.now.successors 0 }
    {
        first_of(self.successors.as_slice())
    }
}

/// A running task, unless it is over.
fn unless_over(running: RunningTask) -> Option<RunningTask>
    ensures { result ≡ unless_over running.task running.leaves running.successors }
{
    if running.leaves.is_empty() && running.successors.is_empty() {
        None
    } else {
        Some(running)
    }
}

/// A running task after a leaf was returned.
pub fn after_return(running: Option<RunningTask>, leaf: u32) -> Option<RunningTask>
    ensures { result ≡ after_return running leaf }
{
    let mut running = running?;
    remove_leaf(&mut running.leaves, leaf);
    unless_over(running)
}

/// A running task after a successor was released.
pub fn after_release(running: Option<RunningTask>) -> Option<RunningTask>
    ensures { result ≡ after_release running }
{
    let mut running = running?;
    remove_first(&mut running.successors);
    unless_over(running)
}
