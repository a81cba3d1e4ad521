//! The lists of the tasks that wait for each task, one after another.
ghost use Rattle.std.specs.Prelude.{◌≡◌, ◌+◌, ◌-◌, ◌<◌, ◌≤◌, ◌^◌, ◌++◌, ◌∷◌, [], Bool, List, length, map, replicate, All, IfOk, OnOk};
ghost use Rattle.cell_tree.specs.Due.{AreDueBefore};
ghost use Rattle.cell_tree.specs.Laws.{CanBeMade};
ghost use Rattle.cell_tree.specs.Spans.{IsSpan};
ghost use Rattle.cell_tree.specs.Tree.{leaf_count};
ghost use Rattle.std.specs.List.{range_with_len};
ghost use Rattle.task_graph.specs.inner.Joined.{counted_between, counted_from, dues_below};
ghost use Rattle.task_graph.specs.inner.Parts.{AddsLists, AreEdgeLists, AreLeavesFor};
ghost use Rattle.task_weight.specs.Edges.{AreStarts};

use crate::leaves::{Leaves, SpansAbove};
use crate::numbers::Numbers;
use cell_tree::{Span, Tree};
use std::alloc::{AllocError, Global};
use task_weight::Edges;

/// Adds the numbers from the first up to the second.
fn push_range(ends: &mut Vec<u32>, from: u32, to: u32) -> Result<(), AllocError>
    ensures { OnOk result (ends.new.items ≡ ends.old.items ++ range_with_len from (to - from)) }
{
    for number in from..to {
        ends.push(number)?;
    }
    Ok(())
}

/// Adds the tasks on some spans, which number from the first on.
fn push_spans(ends: &mut Vec<u32>, spans: &[u32], first: u32) -> Result<(), AllocError>
    requires { All (λ span. first + span < 2 ^ 32) spans.now }
    ensures { OnOk result (ends.new.items ≡ ends.old.items ++ counted_from first spans.now) }
{
    for span in spans {
        ends.push(first + *span)?;
    }
    Ok(())
}

/// Adds the tasks on the leaves with a due member below a cell, of which there are as many before the
/// cell's first leaf as the counts say.
fn push_below(
    ends: &mut Vec<u32>,
    below: (u32, u32),
    due_before: &[u32],
    first: u32,
) -> Result<(), AllocError>
    requires from_in { below.0 < length due_before.now }
    requires to_in { below.1 < length due_before.now }
    requires fits { All (λ count. first + count < 2 ^ 32) due_before.now }
    ensures { OnOk result (ends.new.items ≡ ends.old.items ++ counted_between due_before.now first below.0 below.1) }
{
    let (from, to) = below;
    push_range(
        ends,
        first + due_before[from as usize],
        first + due_before[to as usize],
    )
}

/// Adds the tasks on the leaves with a due member below a span's cells, rising.
fn push_span(
    ends: &mut Vec<u32>,
    tree: &Tree,
    span: Span,
    due_before: &[u32],
    first: u32,
) -> Result<(), AllocError>
    requires span { IsSpan tree.now span }
    requires long { length due_before.now ≡ leaf_count tree.now + 1 }
    requires fits { All (λ count. first + count < 2 ^ 32) due_before.now }
    ensures { (due : List Bool) → AreDueBefore tree.now due due_before.now
        → OnOk result (ends.new.items ≡ ends.old.items ++ dues_below tree.now due first span) }
{
    let below = tree.leaves_below(span.first);
    let Some(second) = span.second else {
        return push_below(ends, below, due_before, first);
    };
    let other = tree.leaves_below(second);
    if below.0 < other.0 {
        push_below(ends, below, due_before, first)?;
        return push_below(ends, other, due_before, first);
    }
    push_below(ends, other, due_before, first)?;
    push_below(ends, below, due_before, first)
}

/// The lists so far: the numbers of each stand from its start to the next one's.
#[derive(Drop)]
struct EdgeLists {
    starts: Vec<usize>,
    ends: Vec<u32>,
}

impl EdgeLists {
    /// No list.
    fn new(alloc: Global) -> Result<EdgeLists, AllocError>
        ensures starts { IfOk result (λ lists. lists.starts.items ≡ 0 ∷ []) }
        ensures ends { IfOk result (λ lists. lists.ends.items ≡ []) }
    {
        Ok(EdgeLists {
            starts: vec![in alloc; 0usize; 1]?,
            ends: Vec::new(alloc),
        })
    }

    /// Ends the list of a task.
    fn end_list(&mut self) -> Result<(), AllocError>
        ensures starts { OnOk result (self.new.starts.items ≡ self.old.starts.items ++ length self.old.ends.items ∷ []) }
        ensures ends { self.new.ends ≡ self.old.ends }
    {
        self.starts.push(self.ends.len())?;
        Ok(())
    }

    /// Adds a list for each of some leaves: the tasks on the spans at it, which number from the first on.
    fn add_leaves(&mut self, above: &[SpansAbove], first: u32) -> Result<(), AllocError>
        requires starts { AreStarts self.old.starts.items self.old.ends.items }
        requires few { length self.old.starts.items + length above.now ≤ 2 ^ 32 }
        requires fits { All (λ spans. All (λ span. first + span < 2 ^ 32) spans) above.now }
        ensures count { OnOk result (length self.new.starts.items ≡ length self.old.starts.items + length above.now) }
        ensures lists { OnOk result (AddsLists self.old.starts.items self.old.ends.items self.new.starts.items self.new.ends.items
            (map (counted_from first) above.now)) }
    {
        for spans in above {
            push_spans(&mut self.ends, spans.as_slice(), first)?;
            self.end_list()?;
        }
        Ok(())
    }

    /// Adds a list for each span: the tasks on the leaves with a due member below its cells, which number
    /// from the first on.
    fn add_spans(
        &mut self,
        tree: &Tree,
        spans: &[Span],
        due_before: &[u32],
        first: u32,
    ) -> Result<(), AllocError>
        requires starts { AreStarts self.old.starts.items self.old.ends.items }
        requires few { length self.old.starts.items + length spans.now ≤ 2 ^ 32 }
        requires spans { All (IsSpan tree.now) spans.now }
        requires long { length due_before.now ≡ leaf_count tree.now + 1 }
        requires fits { All (λ count. first + count < 2 ^ 32) due_before.now }
        ensures count { OnOk result (length self.new.starts.items ≡ length self.old.starts.items + length spans.now) }
        ensures lists { (due : List Bool) → AreDueBefore tree.now due due_before.now
            → OnOk result (AddsLists self.old.starts.items self.old.ends.items self.new.starts.items self.new.ends.items
            (map (dues_below tree.now due first) spans.now)) }
    {
        for span in spans {
            push_span(&mut self.ends, tree, *span, due_before, first)?;
            self.end_list()?;
        }
        Ok(())
    }

    /// Adds so many empty lists.
    fn add_empty(&mut self, count: usize) -> Result<(), AllocError>
        requires starts { AreStarts self.old.starts.items self.old.ends.items }
        requires few { length self.old.starts.items + count ≤ 2 ^ 32 }
        ensures { OnOk result (AddsLists self.old.starts.items self.old.ends.items self.new.starts.items self.new.ends.items
            (replicate count [])) }
    {
        for _list in 0..count {
            self.end_list()?;
        }
        Ok(())
    }
}

/// For each task the tasks that wait for it, in the order of the numbers.
pub fn edge_lists(
    alloc: Global,
    tree: &Tree,
    spans: &[Span],
    leaves: &Leaves,
    numbers: Numbers,
) -> Result<Edges, AllocError>
    requires can { CanBeMade tree.now }
    requires spans { All (IsSpan tree.now) spans.now }
    requires few { length spans.now < 2 ^ 30 }
    requires leaves { (due : List Bool) × (drift : Bool) × AreLeavesFor tree.now spans.now due drift leaves.now }
    requires densities { numbers.densities ≡ length leaves.now.drifting }
    requires ghosts { numbers.ghosts ≡ length leaves.now.drifting + length spans.now }
    requires forces { numbers.forces ≡ length leaves.now.drifting + length spans.now + length leaves.now.dues }
    requires kicks { numbers.kicks ≡ length leaves.now.drifting + length spans.now + length leaves.now.dues + length spans.now }
    ensures { (due : List Bool) (drift : Bool) → AreLeavesFor tree.now spans.now due drift leaves.now
        → IfOk result (AreEdgeLists tree.now spans.now due drift) }
{
    let mut lists = EdgeLists::new(alloc)?;
    lists.add_leaves(leaves.above_drifting(), numbers.densities)?;
    lists.add_spans(tree, spans, leaves.due_before(), numbers.ghosts)?;
    lists.add_leaves(leaves.above_dues(), numbers.forces)?;
    lists.add_spans(tree, spans, leaves.due_before(), numbers.kicks)?;
    lists.add_empty(leaves.dues().len())?;
    Ok(Edges::new(lists.starts, lists.ends))
}
