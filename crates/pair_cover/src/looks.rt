//! A look at one cell of a tree or at two: what it goes by, what it asks, and the spans that it gives.
ghost use Rattle.std.specs.Prelude.{◌≡◌, ◌*◌, ◌+◌, ◌-◌, ◌<◌, ◌≤◌, ◌||◌, Bool, List, nat_le, length, flat_map, All, OnOk};
ghost use Rattle.cell_geom.specs.Cube.{deepest_level};
ghost use Rattle.cell_tree.specs.Due.{AreDueBefore, has_due};
ghost use Rattle.cell_tree.specs.Laws.{CanBeMade};
ghost use Rattle.cell_tree.specs.Spans.{is_leaf_cell, count_of};
ghost use Rattle.cell_tree.specs.Tree.{cells_of, leaf_count};
ghost use Rattle.pair_cover.specs.Looks.{drops, stops, splits_first, pair_spans, self_spans, children_of, twos, most_looks};
ghost use Rattle.pair_cover.specs.inner.Steps.{Adds, level_at};

use cell_geom::gap2;
use cell_tree::{Span, Tree, has_due};
use std::alloc::AllocError;

/// When a look goes no deeper.
#[derive(Clone, Copy, Debug, PartialEq, Eq)]
pub struct Limits {
    /// Cells of no more pairs than this are not split.
    pub pairs: u32,
    /// How far a point may move on an axis after the tree was made, in length units.
    pub slack: u32,
}

/// What every look goes by.
#[derive(Drop)]
pub struct Look<'t> {
    pub tree: &'t Tree,
    /// How many of the leaves before each leaf have a due member, and last how many of all.
    pub before: &'t [u32],
    pub limits: Limits,
    ghost can: { CanBeMade tree.now },
    ghost long: { length before.now ≡ leaf_count tree.now + 1 },
    ghost slack: { limits.slack ≤ 65535 },
}

impl Look<'_> {
    /// Whether the cell is a leaf.
    fn is_leaf(&self, cell: u32) -> bool
        requires { cell < length (cells_of self.now.tree.now) }
        ensures { result ≡ is_leaf_cell self.now.tree.now cell }
    {
        self.tree.leaf_of(cell).is_some()
    }

    /// Whether two cells have no more pairs than the limit.
    fn few_pairs(&self, a: u32, b: u32) -> bool
        requires a { a < length (cells_of self.now.tree.now) }
        requires b { b < length (cells_of self.now.tree.now) }
        ensures { result ≡ nat_le (count_of self.now.tree.now a * count_of self.now.tree.now b) self.now.limits.pairs }
    {
        u64::from(self.tree.count(a)) * u64::from(self.tree.count(b))
            <= u64::from(self.limits.pairs)
    }

    /// Whether a member of the cell is due.
    fn has_due(&self, cell: u32) -> bool
        requires { cell < length (cells_of self.now.tree.now) }
        ensures { (due : List Bool) → AreDueBefore self.now.tree.now due self.now.before.now
            → result ≡ has_due self.now.tree.now due cell }
    {
        has_due(self.tree, self.before, cell)
    }

    /// Whether no member of the two cells is due, or no two of them can come into reach.
    fn drops(&self, a: u32, b: u32) -> bool
        requires a { a < length (cells_of self.now.tree.now) }
        requires b { b < length (cells_of self.now.tree.now) }
        ensures { (due : List Bool) → AreDueBefore self.now.tree.now due self.now.before.now
            → result ≡ drops self.now.tree.now due self.now.limits a b }
    {
        if !self.has_due(a) && !self.has_due(b) {
            return true;
        }
        let reach = u64::from(self.tree.reach(a).max(self.tree.reach(b)));
        reach * reach <= gap2(self.tree.cube(a), self.tree.cube(b), self.limits.slack)
    }

    /// Whether a look at two cells gives their span.
    fn stops(&self, a: u32, b: u32) -> bool
        requires a { a < length (cells_of self.now.tree.now) }
        requires b { b < length (cells_of self.now.tree.now) }
        ensures { result ≡ stops self.now.tree.now self.now.limits a b }
    {
        self.is_leaf(a) && self.is_leaf(b) || self.few_pairs(a, b)
    }

    /// Whether a look at one cell with a due member gives its span.
    fn stops_alone(&self, cell: u32) -> bool
        requires { cell < length (cells_of self.now.tree.now) }
        ensures { result ≡ (is_leaf_cell self.now.tree.now cell
            || nat_le (count_of self.now.tree.now cell * count_of self.now.tree.now cell) self.now.limits.pairs) }
    {
        self.is_leaf(cell) || self.few_pairs(cell, cell)
    }

    /// Of two cells that are not both leaves, whether the first one is split.
    fn splits_first(&self, a: u32, b: u32) -> bool
        requires a { a < length (cells_of self.now.tree.now) }
        requires b { b < length (cells_of self.now.tree.now) }
        ensures { result ≡ splits_first self.now.tree.now a b }
    {
        if self.is_leaf(a) {
            return false;
        }
        if self.is_leaf(b) {
            return true;
        }
        let (a_level, b_level) = (self.tree.cube(a).level, self.tree.cube(b).level);
        if a_level == b_level {
            self.tree.count(b) <= self.tree.count(a)
        } else {
            a_level < b_level
        }
    }

    /// Looks at two cells.
    #[cycle(pair)]
    fn pair(&self, a: u32, b: u32, spans: &mut Vec<Span>) -> Result<(), AllocError>
        requires a { a < length (cells_of self.now.tree.now) }
        requires b { b < length (cells_of self.now.tree.now) }
        ensures { let made = self.now.tree.now in
            OnOk result (Adds made self.now.before.now (most_looks - (level_at made a + level_at made b))
            (λ due looks. pair_spans made due self.now.limits looks a b) spans.old.items spans.new.items) }
    {
        if self.drops(a, b) {
            return Ok(());
        }
        if self.stops(a, b) {
            spans.push(Span {
                first: a,
                second: Some(b),
            })?;
            return Ok(());
        }
        if self.splits_first(a, b) {
            self.below_first(a, b, spans)
        } else {
            self.below_second(a, b, spans)
        }
    }

    /// Looks at each child of the first cell and the second cell.
    #[cycle(pair)]
    fn below_first(&self, a: u32, b: u32, spans: &mut Vec<Span>) -> Result<(), AllocError>
        requires a { a < length (cells_of self.now.tree.now) }
        requires b { b < length (cells_of self.now.tree.now) }
        ensures { let made = self.now.tree.now in
            OnOk result (Adds made self.now.before.now (2 * deepest_level - (level_at made a + level_at made b))
            (λ due looks. flat_map (λ child. pair_spans made due self.now.limits looks child b) (children_of made a))
            spans.old.items spans.new.items) }
    {
        for child in self.tree.children(a) {
            self.pair(*child, b, spans)?;
        }
        Ok(())
    }

    /// Looks at the first cell and each child of the second cell.
    #[cycle(pair)]
    fn below_second(&self, a: u32, b: u32, spans: &mut Vec<Span>) -> Result<(), AllocError>
        requires a { a < length (cells_of self.now.tree.now) }
        requires b { b < length (cells_of self.now.tree.now) }
        ensures { let made = self.now.tree.now in
            OnOk result (Adds made self.now.before.now (2 * deepest_level - (level_at made a + level_at made b))
            (λ due looks. flat_map (λ child. pair_spans made due self.now.limits looks a child) (children_of made b))
            spans.old.items spans.new.items) }
    {
        for child in self.tree.children(b) {
            self.pair(a, *child, spans)?;
        }
        Ok(())
    }

    /// Looks at a cell and each of others.
    fn with_each(&self, a: u32, others: &[u32], spans: &mut Vec<Span>) -> Result<(), AllocError>
        requires a { a < length (cells_of self.now.tree.now) }
        requires others { All (λ b. b < length (cells_of self.now.tree.now)) others.now }
        ensures { let made = self.now.tree.now in
            OnOk result (Adds made self.now.before.now 0
            (λ due looks. flat_map (λ b. pair_spans made due self.now.limits most_looks a b) others.now)
            spans.old.items spans.new.items) }
    {
        for b in others {
            self.pair(a, *b, spans)?;
        }
        Ok(())
    }

    /// Looks at each two of some cells.
    fn each_two(&self, cells: &[u32], spans: &mut Vec<Span>) -> Result<(), AllocError>
        requires { All (λ cell. cell < length (cells_of self.now.tree.now)) cells.now }
        ensures { let made = self.now.tree.now in
            OnOk result (Adds made self.now.before.now 0
            (λ due looks. flat_map (λ two. pair_spans made due self.now.limits most_looks two.0 two.1) (twos cells.now))
            spans.old.items spans.new.items) }
    {
        for (i, cell) in cells.iter().enumerate() {
            self.with_each(*cell, &cells[i + 1..], spans)?;
        }
        Ok(())
    }

    /// Looks at one cell.
    pub fn alone(&self, cell: u32, spans: &mut Vec<Span>) -> Result<(), AllocError>
        requires { cell < length (cells_of self.now.tree.now) }
        ensures { let made = self.now.tree.now in
            OnOk result (Adds made self.now.before.now (deepest_level + 1 - level_at made cell)
            (λ due looks. self_spans made due self.now.limits looks cell) spans.old.items spans.new.items) }
    {
        if !self.has_due(cell) {
            return Ok(());
        }
        if self.stops_alone(cell) {
            spans.push(Span {
                first: cell,
                second: None,
            })?;
            return Ok(());
        }
        for child in self.tree.children(cell) {
            self.alone(*child, spans)?;
        }
        self.each_two(self.tree.children(cell), spans)
    }
}
