//! For how many tasks each task waits.
ghost use Rattle.std.specs.Prelude.{◌≡◌, ◌==◌, ◌+◌, ◌<◌, ◌^◌, ℕ, length, map, count_by, slice_index, All, IfOk};
ghost use Rattle.std.specs.List.{range_with_len};
ghost use Rattle.std.specs.List.Sorted.{IsStrictlyIncreasing};
ghost use Rattle.task_graph.specs.Graph.{edges_into};
ghost use Rattle.task_weight.specs.Edges.{AreForward, AreRising};

use std::alloc::{AllocError, Global};
use task_weight::Edges;

/// The number of edges into each task.
pub fn waits_of(alloc: Global, edges: &Edges) -> Result<Vec<u32>, AllocError>
    requires forward { AreForward edges.now }
    requires rising { AreRising edges.now }
    ensures { IfOk result (λ v. v.items ≡ map (edges_into edges.now) (range_with_len 0 (length edges.now))) }
{
    let mut waits = vec![in alloc; 0u32; edges.tasks() as usize]?;
    for task in 0..edges.tasks() {
        count(edges.after(task), &mut waits);
    }
    Ok(waits)
}

/// Counts an edge into each of some tasks.
fn count(tasks: &[u32], waits: &mut [u32])
    requires rising { IsStrictlyIncreasing tasks.now }
    requires within { All (λ task. task < length waits.old) tasks.now }
    requires room { All (λ wait. wait + 1 < 2 ^ 32) waits.old }
    ensures { (task : ℕ) → task < length waits.old → slice_index waits.new task ≡ slice_index waits.old task + count_by (λ after. after == task) tasks.now }
{
    for task in tasks {
        waits[*task as usize] += 1;
    }
}
