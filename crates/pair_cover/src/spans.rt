//! The spans of a tree, by a look at the whole box.
ghost use Rattle.std.specs.Prelude.{◌≡◌, ◌*◌, ◌+◌, ◌≤◌, length, All, IfOk, vec_len};
ghost use Rattle.cell_tree.specs.Spans.{IsSpan};
ghost use Rattle.pair_cover.specs.Covering.{CoversMoved, SpanIsDue};
ghost use Rattle.pair_cover.specs.Looks.{spans_of};

use crate::looks::{Limits, Look};
use cell_tree::{Span, Tree, due_counts};
use std::alloc::{AllocError, Global};

/// The spans of a tree whose points are due where their flag is set: wherever the points have moved within
/// the slack, each two in reach of which one is due meet in just one span, and each due point meets itself
/// in just one. They stand in the order of the looks. The error is want of memory.
pub fn cover(
    alloc: Global,
    tree: &Tree,
    due: &[bool],
    limits: Limits,
) -> Result<Vec<Span>, AllocError>
    requires one_flag_each { length due.now ≡ length tree.now.points }
    requires slack { limits.slack ≤ 65535 }
    ensures value { IfOk result (λ spans. spans.items ≡ spans_of tree.now due.now limits) }
    ensures covers { IfOk result (λ spans. CoversMoved tree.now due.now limits.slack spans.items) }
    ensures cells { IfOk result (λ spans. All (IsSpan tree.now) spans.items) }
    ensures due { IfOk result (λ spans. All (SpanIsDue tree.now due.now) spans.items) }
    ensures few { IfOk result (λ spans. 2 * vec_len spans ≤ length tree.now.points * (length tree.now.points + 1)) }
{
    let before = due_counts(alloc, tree, due)?;
    let look = Look {
        tree,
        before: &before,
        limits,
    };
    let mut spans = Vec::new(alloc);
    look.alone(0, &mut spans)?;
    Ok(spans)
}
