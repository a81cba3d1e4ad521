//! One task.
ghost use Rattle.std.specs.Prelude.{◌≡◌, ◌++◌, map, slice_index, OnOk};
ghost use Rattle.sph_num.specs.declared.kind.Kind.{Kind};
ghost use Rattle.cell_tree.specs.Spans.{leaf_cells};
ghost use Rattle.task_graph.specs.inner.Parts.{AreLeavesOf};
ghost use Rattle.task_graph.specs.Tasks.{cell_task, span_task};

use cell_tree::{Span, Tree};
use sph_num::Kind;
use std::alloc::AllocError;

/// What a task does, and on which cell or cells.
#[derive(Clone, Copy, Debug, PartialEq, Eq)]
pub struct Task {
    pub kind: Kind,
    pub first: u32,
    pub second: Option<u32>,
}

/// Adds a task of a kind for each leaf, on the leaf's cell.
pub fn push_leaf_tasks(
    tree: &Tree,
    kind: Kind,
    leaves: &[u32],
    tasks: &mut Vec<Task>,
) -> Result<(), AllocError>
    requires { AreLeavesOf tree.now (map (slice_index (leaf_cells tree.now)) leaves.now) leaves.now }
    ensures { OnOk result (tasks.new.items ≡ tasks.old.items ++ map (cell_task kind) (map (slice_index (leaf_cells tree.now)) leaves.now)) }
{
    for leaf in leaves {
        tasks.push(Task {
            kind,
            first: tree.cell_of(*leaf),
            second: None,
        })?;
    }
    Ok(())
}

/// Adds a task of a kind for each span.
pub fn push_span_tasks(kind: Kind, spans: &[Span], tasks: &mut Vec<Task>) -> Result<(), AllocError>
    ensures { OnOk result (tasks.new.items ≡ tasks.old.items ++ map (span_task kind) spans.now) }
{
    for span in spans {
        tasks.push(Task {
            kind,
            first: span.first,
            second: span.second,
        })?;
    }
    Ok(())
}
