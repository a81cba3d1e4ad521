//! The weights of tasks, from the last task to the first.
ghost use Rattle.std.specs.Prelude.{◌≡◌, ◌<◌, ◌≤◌, ◌^◌, length, All, IfOk, sum_by};
ghost use Rattle.task_weight.specs.Edges.{AreForward};
ghost use Rattle.task_weight.specs.Paths.{AreWeights, FollowSuccessors, greatest_weight, weights_of};

use crate::edges::Edges;
use std::alloc::{AllocError, Global};

/// The weight of each task: the greatest cost of a path that begins with it, which is its own cost and the
/// greatest weight of the tasks that wait for it. In the units of the costs. The error is want of memory.
pub fn weights(alloc: Global, costs: &[u64], edges: &Edges) -> Result<Vec<u64>, AllocError>
    requires one_each { length costs.now ≡ length edges.now }
    requires forward { AreForward edges.now }
    requires few { sum_by (λ cost. cost) costs.now < 2 ^ 64 }
    ensures greatest { IfOk result (λ v. AreWeights costs.now edges.now v.items) }
    ensures value { IfOk result (λ v. v.items ≡ weights_of costs.now edges.now) }
    ensures within { IfOk result (λ v. All (λ weight. weight ≤ sum_by (λ cost. cost) costs.now) v.items) }
    ensures follow { IfOk result (λ v. FollowSuccessors costs.now edges.now v.items) }
{
    let mut weights = vec![in alloc; 0u64; costs.len()]?;
    for task in (0..edges.tasks()).rev() {
        weights[task as usize] = costs[task as usize] + heaviest(edges.after(task), &weights);
    }
    Ok(weights)
}

/// The greatest weight among some tasks.
fn heaviest(tasks: &[u32], weights: &[u64]) -> u64
    requires { All (λ task. task < length weights.now) tasks.now }
    ensures { result ≡ greatest_weight weights.now tasks.now }
{
    tasks
        .iter()
        .fold(0, |greatest, task| greatest.max(weights[*task as usize]))
}
