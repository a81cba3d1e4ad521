//! The tasks of a graph by the leaves below their cells.
ghost use Rattle.std.specs.Prelude.{◌≡◌, ◌<◌, All, IfOk, length, map, option_map};
ghost use Rattle.task_graph.specs.Graph.{task_at};
ghost use Rattle.sph_step.specs.Stage.{line_in, range_in};
ghost use Rattle.sph_step.specs.inner.Told.{IsAmong, IsAmongSome};

use cell_block::{LineList, TaskLine};
use std::alloc::{AllocError, Global};
use task_graph::Graph;

/// The lines of all tasks, from the range of leaves below each cell.
pub(crate) fn lines_in(
    alloc: Global,
    graph: &Graph,
    ranges: &[(u32, u32)],
) -> Result<LineList, AllocError>
    requires { All (IsAmong (length ranges.now)) graph.now.tasks }
    ensures { IfOk result (λ lines. lines ≡ map (line_in ranges.now) graph.now.tasks) }
{
    let mut lines = Vec::with_capacity(alloc, graph.tasks() as usize)?;
    for task in 0..graph.tasks() {
        lines.push(line(graph, ranges, task))?;
    }
    Ok(LineList::from_vec(lines))
}

/// The line of a task.
fn line(graph: &Graph, ranges: &[(u32, u32)], task: u32) -> TaskLine
    requires task { task < length graph.now.tasks }
    requires cells { IsAmong (length ranges.now) (task_at graph.now.tasks task) }
    ensures { result ≡ line_in ranges.now (task_at graph.now.tasks task) }
{
    let (first, second) = graph.cells_of(task);
    TaskLine {
        kind: graph.kind(task),
        first: ranges[first as usize],
        second: second_range(ranges, second),
    }
}

/// The range of leaves below a second cell, if there is one.
fn second_range(ranges: &[(u32, u32)], cell: Option<u32>) -> Option<(u32, u32)>
    requires { IsAmongSome (length ranges.now) cell }
    ensures { result ≡ option_map (range_in ranges.now) cell }
{
    match cell {
        Some(cell) => Some(ranges[cell as usize]),
        None => None,
    }
}
