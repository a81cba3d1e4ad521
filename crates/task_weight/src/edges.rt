//! Edges between tasks, in one flat list.
ghost use Rattle.std.specs.Prelude.{◌≡◌, ◌<◌, length};
ghost use Rattle.task_weight.specs.Edges.{AreStarts, edges_of};
ghost use Rattle.task_weight.specs.Paths.{after_of};

use std::marker::Model;

/// For each task the tasks that wait for it.
#[derive(Debug, Drop)]
pub struct Edges {
    starts: Vec<usize>,
    ends: Vec<u32>,
}

impl Model for Edges {
    ghost use Rattle.std.specs.Prelude.{List, ℕ};
    ghost use Rattle.task_weight.specs.Edges.{AreStarts, edges_of};

    ghost Value = { List (List ℕ) };

    ghost view = { λ e. edges_of e.starts.items e.ends.items };

    ghost invariant = { λ e. AreStarts e.starts.items e.ends.items };
}

impl Edges {
    /// The edges whose ends stand, for each task, from its start to the next task's.
    pub fn new(starts: Vec<usize>, ends: Vec<u32>) -> Edges
        requires { AreStarts starts.items ends.items }
        ensures { result ≡ edges_of starts.items ends.items }
    {
        Edges { starts, ends }
    }

    /// How many tasks there are.
    pub fn tasks(&self) -> u32
        ensures { result ≡ length self.now }
    {
        (self.starts.len() - 1) as u32
    }

    /// The tasks that wait for a task.
    pub fn after(&self, task: u32) -> &[u32]
        requires { task < length self.now }
        ensures { result.now ≡ after_of self.now task }
    {
        let start = self.starts[task as usize];
        let end = self.starts[task as usize + 1];
        &self.ends[start..end]
    }
}
