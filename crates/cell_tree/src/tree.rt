//! The octree: which cells there are, how they nest, and which points each leaf has.
ghost use Rattle.std.specs.Prelude.{◌≡◌, ℕ, ◌+◌, ◌<◌, ◌≤◌, ◌↔◌, [], false, length, slice_index, slice_index_or, All, Contains, IfOk, IfSome, MatchOption, OnOk};
ghost use Rattle.std.specs.List.Sorted.{IsStrictlyIncreasing};
ghost use Rattle.sph_num.specs.Space.{IsPlace};
ghost use Rattle.sph_num.specs.Ranges.{most_particles, IsLength};
ghost use Rattle.cell_geom.specs.Cube.{IsCube};
ghost use Rattle.cell_tree.specs.Laws.{CanBeMade, IsPartition, most_cells};
ghost use Rattle.cell_tree.specs.Tree.{made_of, cells_of, cell_at, is_leaf, leaf_count, reach_of, AreLeavesBelow, IsLeafCell, IsParent};

use crate::cells::Cells;
use crate::children::{Children, children_of};
use crate::leaves::{Leaf, first_leaves, leaves_of};
use cell_geom::Cube;
use std::alloc::{AllocError, Global};
use std::marker::Model;

/// The numbers of one cell or two.
#[derive(Clone, Copy, Debug, PartialEq, Eq)]
pub struct Span {
    /// The one cell, or the first of the two.
    pub first: u32,
    /// The other cell, if there is one.
    pub second: Option<u32>,
}

/// An octree over points of the box, with their smoothing lengths.
#[derive(Debug, Drop)]
pub struct Tree {
    cells: Cells,
    firsts: Vec<u32>,
    leaves: Vec<Leaf>,
    children: Children,
}

impl Model for Tree {
    ghost use Rattle.cell_tree.specs.Tree.{Made};

    ghost Value = { Made };

    ghost use Rattle.cell_tree.specs.inner.Parts.{IsTree};

    ghost view = { λ t. t.cells };

    ghost invariant = { λ t. IsTree t.cells t.firsts.items t.leaves.items t.children };
}

impl Tree {
    /// The tree of the points, whose leaves have at most so many members where a level is left to split them.
    pub fn build(
        alloc: Global,
        points: &[[u32; 3]],
        hs: &[u32],
        leaf: u32,
    ) -> Result<Tree, AllocError>
        requires { CanBeMade (made_of points.now hs.now leaf) }
        ensures value { IfOk result (λ tree. tree ≡ made_of points.now hs.now leaf) }
        ensures partition { OnOk result (IsPartition (made_of points.now hs.now leaf)) }
    {
        let cells = Cells::grow(alloc, points, hs, leaf)?;
        let firsts = first_leaves(alloc, &cells)?;
        let leaves = leaves_of(alloc, &cells)?;
        let children = children_of(alloc, &cells)?;
        Ok(Tree {
            cells,
            firsts,
            leaves,
            children,
        })
    }

    /// How many points there are.
    pub fn points(&self) -> u32
        ensures value { result ≡ length self.now.points }
        ensures can { CanBeMade self.now }
    {
        self.cells.points()
    }

    /// The place of a point.
    pub fn point(&self, index: u32) -> [u32; 3]
        requires { index < length self.now.points }
        ensures value { result ≡ slice_index_or self.now.points index [] }
        ensures place { IsPlace result }
    {
        self.cells.point(index)
    }

    /// The smoothing length of a point.
    pub fn length(&self, index: u32) -> u32
        requires { index < length self.now.points }
        ensures value { result ≡ slice_index self.now.lengths index }
        ensures range { IsLength result }
    {
        self.cells.length(index)
    }

    /// How many cells there are.
    pub fn cells(&self) -> u32
        ensures value { result ≡ length (cells_of self.now) }
        ensures some { 1 ≤ result }
        ensures few { result ≤ most_cells }
    {
        self.cells.len()
    }

    /// How many leaves there are.
    pub fn leaves(&self) -> u32
        ensures value { result ≡ leaf_count self.now }
        ensures some { 1 ≤ result }
        ensures most { result ≤ length self.now.points }
        ensures few { result ≤ most_particles }
    {
        self.leaves.len() as u32
    }

    /// The cube of a cell.
    pub fn cube(&self, cell: u32) -> Cube
        requires { cell < length (cells_of self.now) }
        ensures value { result ≡ (cell_at self.now cell).cube }
        ensures cube { IsCube result }
    {
        self.cells.node(cell).cube
    }

    /// The cell that this one is a child of: none for the whole box, cell 0.
    pub fn parent(&self, cell: u32) -> Option<u32>
        requires { cell < length (cells_of self.now) }
        ensures { MatchOption result (cell ≡ 0) (λ parent. IsParent self.now parent cell) }
    {
        if cell == 0 {
            return None;
        }
        Some(self.children.parents[cell as usize])
    }

    /// The children of a cell: none for a leaf.
    pub fn children(&self, cell: u32) -> &[u32]
        requires { cell < length (cells_of self.now) }
        ensures rising { IsStrictlyIncreasing result.now }
        ensures just { (child : ℕ) → Contains result.now child ↔ IsParent self.now cell child }
    {
        let start = self.children.starts[cell as usize];
        let end = self.children.starts[cell as usize + 1];
        &self.children.numbers[start..end]
    }

    /// The number of a leaf, by its cell: none for a cell that is split.
    pub fn leaf_of(&self, cell: u32) -> Option<u32>
        requires { cell < length (cells_of self.now) }
        ensures value { MatchOption result (is_leaf self.now (cell_at self.now cell) ≡ false)
            (λ leaf. IsLeafCell self.now leaf cell) }
        ensures below { IfSome result (λ leaf. leaf < leaf_count self.now) }
    {
        if !self.cells.is_leaf(cell) {
            return None;
        }
        Some(self.firsts[cell as usize])
    }

    /// The cell of a leaf.
    pub fn cell_of(&self, leaf: u32) -> u32
        requires { leaf < leaf_count self.now }
        ensures { IsLeafCell self.now leaf result }
    {
        self.leaves[leaf as usize].cell
    }

    /// The leaves below a cell, or the cell itself if it is one: from the first number up to the second.
    pub fn leaves_below(&self, cell: u32) -> (u32, u32)
        requires { cell < length (cells_of self.now) }
        ensures below { AreLeavesBelow self.now cell result.0 result.1 }
        ensures own { (leaf : ℕ) → IsLeafCell self.now leaf cell → result ≡ (leaf, leaf + 1) }
        ensures only { (from to : ℕ) → AreLeavesBelow self.now cell from to → result ≡ (from, to) }
    {
        let end = cell + self.cells.node(cell).size;
        (self.firsts[cell as usize], self.firsts[end as usize])
    }

    /// The numbers of the points in a leaf, rising.
    pub fn members(&self, leaf: u32) -> &[u32]
        requires { leaf < leaf_count self.now }
        ensures value { (cell : ℕ) → IsLeafCell self.now leaf cell → result.now ≡ (cell_at self.now cell).members }
        ensures rising { IsStrictlyIncreasing result.now }
        ensures points { All (λ index. index < length self.now.points) result.now }
    {
        let leaf = &self.leaves[leaf as usize];
        self.cells.members(leaf.cell, leaf.start)
    }

    /// How many points there are in a cell.
    pub fn count(&self, cell: u32) -> u32
        requires { cell < length (cells_of self.now) }
        ensures value { result ≡ length (cell_at self.now cell).members }
        ensures some { 1 ≤ result }
        ensures most { result ≤ length self.now.points }
    {
        self.cells.node(cell).count
    }

    /// The greatest smoothing length of the points in a cell.
    pub fn reach(&self, cell: u32) -> u32
        requires { cell < length (cells_of self.now) }
        ensures value { result ≡ reach_of self.now (cell_at self.now cell) }
        ensures range { IsLength result }
    {
        self.cells.node(cell).reach
    }
}
