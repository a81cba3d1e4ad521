//! What the tasks cost: the members or the pairs that they look at.
ghost use Rattle.std.specs.Prelude.{◌≡◌, ◌*◌, ◌≤◌, ◌^◌, map, All, IfOk, MatchOption};
ghost use Rattle.cell_tree.specs.Laws.{CanBeMade};
ghost use Rattle.cell_tree.specs.Spans.{count_of};
ghost use Rattle.task_graph.specs.Tasks.{IsOnSpan, cost_of};

use crate::task::Task;
use cell_tree::Tree;
use sph_num::Kind;
use std::alloc::{AllocError, Global};

/// The cost of each task.
pub fn costs_of(alloc: Global, tree: &Tree, tasks: &[Task]) -> Result<Vec<u64>, AllocError>
    requires can { CanBeMade tree.now }
    requires on_spans { All (IsOnSpan tree.now) tasks.now }
    ensures costs { IfOk result (λ v. v.items ≡ map (cost_of tree.now) tasks.now) }
    ensures small { IfOk result (λ v. All (λ cost. cost ≤ 2 ^ 30) v.items) }
{
    let mut costs = Vec::with_capacity(alloc, tasks.len())?;
    for task in tasks {
        costs.push(cost(tree, *task))?;
    }
    Ok(costs)
}

/// The cost of a task: the pairs of one cell with its members themselves for a density, and without for a
/// force; the pairs of two cells; else the members of the leaf.
fn cost(tree: &Tree, task: Task) -> u64
    requires can { CanBeMade tree.now }
    requires on_span { IsOnSpan tree.now task }
    ensures value { result ≡ cost_of tree.now task }
    ensures small { result ≤ 2 ^ 30 }
{
    let count = u64::from(tree.count(task.first));
    match task.kind {
        Kind::Density => pairs(tree, task, count * (count + 1) / 2),
        Kind::Force => pairs(tree, task, count * (count - 1) / 2),
        Kind::Drift | Kind::Ghost | Kind::Kick => count,
    }
}

/// The pairs of the members of a task's two cells: on one cell, its own.
fn pairs(tree: &Tree, task: Task, own: u64) -> u64
    requires can { CanBeMade tree.now }
    requires on_span { IsOnSpan tree.now task }
    requires own { own ≤ 2 ^ 30 }
    ensures value { MatchOption task.second (result ≡ own) (λ second. result ≡ count_of tree.now task.first * count_of tree.now second) }
    ensures small { result ≤ 2 ^ 30 }
{
    match task.second {
        Some(second) => u64::from(tree.count(task.first)) * u64::from(tree.count(second)),
        None => own,
    }
}
