//! Which leaves drift, which have a due member, and which spans have each of them below a cell.
ghost use Rattle.std.specs.Prelude.{◌≡◌, ◌+◌, ◌-◌, ◌^◌, ◌<◌, ◌≤◌, ℕ, List, [], ◌∷◌, ◌++◌, filter, length, map, replicate, slice_index, All, IfOk, OnOk};
ghost use Rattle.sph_num.specs.Ranges.{most_particles};
ghost use Rattle.cell_tree.specs.Laws.{CanBeMade};
ghost use Rattle.cell_tree.specs.Spans.{IsSpan, leaf_cells};
ghost use Rattle.std.specs.List.{range_with_len};
ghost use Rattle.task_graph.specs.inner.LeafLists.{AddsSpan, AddsWithin, AreCountsOf, counts_more, has_span};
ghost use Rattle.task_graph.specs.inner.Parts.{AreLeavesFor, AreLeavesOf, spans_above};
ghost use Rattle.task_graph.specs.Tasks.{spanned_leaves};

use cell_tree::{Span, Tree, due_counts};
use std::alloc::{AllocError, Global};
use std::marker::Model;

/// The numbers of the spans above one leaf, rising.
#[derive(Debug, Drop)]
pub struct SpansAbove {
    numbers: Vec<u32>,
}

impl Model for SpansAbove {
    ghost use Rattle.std.specs.Prelude.{List, ℕ};

    ghost Value = { List ℕ };

    ghost view = { λ s. s.numbers.items };
}

impl SpansAbove {
    /// The numbers.
    pub fn as_slice(&self) -> &[u32]
        ensures { result.now ≡ self.now }
    {
        self.numbers.as_slice()
    }

    /// Adds a number, the last.
    fn push(&mut self, number: u32) -> Result<(), AllocError>
        ensures { OnOk result (self.new ≡ self.old ++ number ∷ []) }
    {
        self.numbers.push(number)?;
        Ok(())
    }
}

/// What is known of the leaves, by their numbers.
#[derive(Debug, Drop)]
pub struct Leaves {
    drifting: Vec<u32>,
    above_drifting: Vec<SpansAbove>,
    dues: Vec<u32>,
    above_dues: Vec<SpansAbove>,
    due_before: Vec<u32>,
}

impl Model for Leaves {
    ghost use Rattle.task_graph.specs.inner.Parts.{KnownLeaves, known_leaves};

    ghost Value = { KnownLeaves };

    ghost view = { λ l. known_leaves l.drifting.items l.above_drifting.items l.dues.items l.above_dues.items l.due_before.items };
}

/// Adds a number at the places from the count at the first leaf up to the count at the second.
fn add_below(
    above: &mut [SpansAbove],
    before: &[u32],
    below: (u32, u32),
    number: u32,
) -> Result<(), AllocError>
    requires from_in { below.0 < length before.now }
    requires to_in { below.1 < length before.now }
    requires ordered { slice_index before.now below.0 ≤ slice_index before.now below.1 }
    requires within { slice_index before.now below.1 ≤ length above.old }
    ensures { OnOk result (AddsWithin (slice_index before.now below.0) (slice_index before.now below.1) number above.old above.new) }
{
    let (from, to) = below;
    for place in before[from as usize]..before[to as usize] {
        above[place as usize].push(number)?;
    }
    Ok(())
}

/// Adds a span's number at those leaves, told by the counts, that are below its cells.
fn add_span(
    above: &mut [SpansAbove],
    tree: &Tree,
    before: &[u32],
    span: Span,
    number: u32,
) -> Result<(), AllocError>
    requires counts { (cells : List ℕ) × AreCountsOf tree.now cells before.now × (length above.old ≡ length cells) }
    requires span { IsSpan tree.now span }
    ensures { (cells : List ℕ) → AreCountsOf tree.now cells before.now → OnOk result (AddsSpan tree.now cells span number above.old above.new) }
{
    add_below(above, before, tree.leaves_below(span.first), number)?;
    match span.second {
        Some(second) => add_below(above, before, tree.leaves_below(second), number),
        None => Ok(()),
    }
}

/// So many leaves with no span.
fn no_spans(alloc: Global, leaves: u32) -> Result<Vec<SpansAbove>, AllocError>
    ensures { IfOk result (λ v. v.items ≡ replicate leaves []) }
{
    let mut above = Vec::with_capacity(alloc, leaves as usize)?;
    for _leaf in 0..leaves {
        above.push(SpansAbove {
            numbers: Vec::new(alloc),
        })?;
    }
    Ok(above)
}

/// The spans above each of some leaves, of which as many stand before each leaf of the tree as the counts
/// say.
fn spans_above_leaves(
    alloc: Global,
    tree: &Tree,
    spans: &[Span],
    before: &[u32],
) -> Result<Vec<SpansAbove>, AllocError>
    requires counts { (cells : List ℕ) × AreCountsOf tree.now cells before.now }
    requires spans { All (IsSpan tree.now) spans.now }
    requires few { length spans.now < 2 ^ 30 }
    ensures { (cells : List ℕ) → AreCountsOf tree.now cells before.now → IfOk result (λ v. v.items ≡ map (spans_above tree.now spans.now) cells) }
{
    let mut above = no_spans(alloc, before[tree.leaves() as usize])?;
    for (number, span) in spans.iter().enumerate() {
        add_span(&mut above, tree, before, *span, number as u32)?;
    }
    Ok(above)
}

/// How many of all leaves stand before each leaf, which is its number, and last how many there are.
fn counts_of_all(alloc: Global, tree: &Tree) -> Result<Vec<u32>, AllocError>
    requires { CanBeMade tree.now }
    ensures { IfOk result (λ v. AreCountsOf tree.now (leaf_cells tree.now) v.items) }
{
    (0..tree.leaves() + 1).collect(alloc)
}

/// The leaves with a span, rising.
fn leaves_with_spans(alloc: Global, above: &[SpansAbove]) -> Result<Vec<u32>, AllocError>
    requires few { length above.now ≤ most_particles }
    ensures { IfOk result (λ v. v.items ≡ filter (has_span above.now) (range_with_len 0 (length above.now))) }
{
    let mut leaves = Vec::new(alloc);
    for (leaf, at) in above.iter().enumerate() {
        if !at.as_slice().is_empty() {
            leaves.push(leaf as u32)?;
        }
    }
    Ok(leaves)
}

/// The leaves below a cell of a span, rising, and the spans above each of them.
fn all_spanned(
    alloc: Global,
    tree: &Tree,
    spans: &[Span],
) -> Result<(Vec<u32>, Vec<SpansAbove>), AllocError>
    requires can { CanBeMade tree.now }
    requires spans { All (IsSpan tree.now) spans.now }
    requires few { length spans.now < 2 ^ 30 }
    ensures leaves { IfOk result (λ p. AreLeavesOf tree.now (spanned_leaves tree.now spans.now) p.0.items) }
    ensures at { IfOk result (λ p. p.1.items ≡ map (spans_above tree.now spans.now) (spanned_leaves tree.now spans.now)) }
{
    let before = counts_of_all(alloc, tree)?;
    let mut above = spans_above_leaves(alloc, tree, spans, &before)?;
    let leaves = leaves_with_spans(alloc, &above)?;
    above.retain(|at| !at.as_slice().is_empty());
    Ok((leaves, above))
}

/// The leaves with a due member, rising: those after which more have one.
fn leaves_due(alloc: Global, due_before: &[u32]) -> Result<Vec<u32>, AllocError>
    requires some { 1 ≤ length due_before.now }
    requires few { length due_before.now ≤ most_particles + 1 }
    ensures { IfOk result (λ v. v.items ≡ filter (counts_more due_before.now) (range_with_len 0 (length due_before.now - 1))) }
{
    let mut leaves = Vec::new(alloc);
    for leaf in 1..due_before.len() {
        if due_before[leaf - 1] < due_before[leaf] {
            leaves.push(leaf as u32 - 1)?;
        }
    }
    Ok(leaves)
}

impl Leaves {
    /// The leaves of a tree with these spans and due points, with drift or without.
    pub fn of(
        alloc: Global,
        tree: &Tree,
        spans: &[Span],
        due: &[bool],
        drift: bool,
    ) -> Result<Leaves, AllocError>
        requires one_flag_each { length due.now ≡ length tree.now.points }
        requires spans { All (IsSpan tree.now) spans.now }
        requires few { length spans.now < 2 ^ 30 }
        ensures leaves { IfOk result (AreLeavesFor tree.now spans.now due.now drift) }
        ensures can { OnOk result (CanBeMade tree.now) }
    {
        let due_before = due_counts(alloc, tree, due)?;
        let dues = leaves_due(alloc, &due_before)?;
        let above_dues = spans_above_leaves(alloc, tree, spans, &due_before)?;
        let (drifting, above_drifting) = if drift {
            all_spanned(alloc, tree, spans)?
        } else {
            (Vec::new(alloc), Vec::new(alloc))
        };
        Ok(Leaves {
            drifting,
            above_drifting,
            dues,
            above_dues,
            due_before,
        })
    }

    /// The leaves that drift, rising.
    pub fn drifting(&self) -> &[u32]
        ensures { result.now ≡ self.now.drifting }
    {
        &self.drifting
    }

    /// The spans above each leaf that drifts.
    pub fn above_drifting(&self) -> &[SpansAbove]
        ensures { result.now ≡ self.now.above_drifting }
    {
        &self.above_drifting
    }

    /// The leaves with a due member, rising.
    pub fn dues(&self) -> &[u32]
        ensures { result.now ≡ self.now.dues }
    {
        &self.dues
    }

    /// The spans above each leaf with a due member.
    pub fn above_dues(&self) -> &[SpansAbove]
        ensures { result.now ≡ self.now.above_dues }
    {
        &self.above_dues
    }

    /// How many of the leaves before each leaf have a due member, and last how many of all.
    pub fn due_before(&self) -> &[u32]
        ensures { result.now ≡ self.now.due_before }
    {
        &self.due_before
    }
}
