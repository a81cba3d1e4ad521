//! The cells of a tree in preorder, over its points in the order of the leaves.
ghost use Rattle.std.specs.Prelude.{◌≡◌, ◌≤◌, ◌<◌, length, take, slice_get, slice_index, IfOk, true};
ghost use Rattle.cell_tree.specs.Laws.{CanBeMade, most_cells};
ghost use Rattle.cell_tree.specs.inner.Nodes.{node_of, members_in};
ghost use Rattle.cell_tree.specs.Tree.{made_of, cells_of, cell_at, is_leaf};
ghost use Rattle.std.specs.List.{range_with_len};

use crate::grow::grow;
use crate::node::{Node, is_leaf};
use cell_geom::Cube;
use std::alloc::{AllocError, Global};
use std::marker::Model;

/// What a tree is made of, and the cells that it has.
#[derive(Debug, Drop)]
pub struct Cells {
    points: Vec<[u32; 3]>,
    lengths: Vec<u32>,
    leaf: u32,
    nodes: Vec<Node>,
    order: Vec<u32>,
}

impl Model for Cells {
    ghost use Rattle.cell_tree.specs.Tree.{Made};

    ghost Value = { Made };

    ghost use Rattle.cell_tree.specs.Tree.{made_of};
    ghost use Rattle.cell_tree.specs.inner.Parts.{IsGrown};

    ghost view = { λ c. made_of c.points.items c.lengths.items c.leaf };

    ghost invariant = { λ c. IsGrown (made_of c.points.items c.lengths.items c.leaf) c.nodes.items c.order.items };
}

/// The numbers below this one.
fn numbers(alloc: Global, end: u32) -> Result<Vec<u32>, AllocError>
    ensures { IfOk result (λ v. v.items ≡ range_with_len 0 end) }
{
    let mut numbers = Vec::new(alloc);
    for number in 0..end {
        numbers.push(number)?;
    }
    Ok(numbers)
}

impl Cells {
    /// The cells of the points.
    pub fn grow(
        alloc: Global,
        points: &[[u32; 3]],
        lengths: &[u32],
        leaf: u32,
    ) -> Result<Cells, AllocError>
        requires { CanBeMade (made_of points.now lengths.now leaf) }
        ensures { IfOk result (λ cells. cells ≡ made_of points.now lengths.now leaf) }
    {
        let whole = Cube {
            level: 0,
            at: [0; 3],
        };
        let mut order = numbers(alloc, points.len() as u32)?;
        let mut scratch = Vec::with_capacity(alloc, points.len())?;
        let mut nodes = Vec::new(alloc);
        grow(
            points,
            lengths,
            leaf,
            whole,
            &mut order,
            &mut scratch,
            &mut nodes,
        )?;
        Ok(Cells {
            points: Vec::from_slice(alloc, points)?,
            lengths: Vec::from_slice(alloc, lengths)?,
            leaf,
            nodes,
            order,
        })
    }

    /// How many points there are.
    pub fn points(&self) -> u32
        ensures value { result ≡ length self.now.points }
        ensures can { CanBeMade self.now }
    {
        self.points.len() as u32
    }

    /// The place of a point.
    pub fn point(&self, index: u32) -> [u32; 3]
        requires { index < length self.now.points }
        ensures { slice_get self.now.points index ≡ Some result }
    {
        self.points[index as usize]
    }

    /// The smoothing length of a point.
    pub fn length(&self, index: u32) -> u32
        requires { index < length self.now.points }
        ensures { result ≡ slice_index self.now.lengths index }
    {
        self.lengths[index as usize]
    }

    /// How many cells there are.
    pub fn len(&self) -> u32
        ensures value { result ≡ length (cells_of self.now) }
        ensures few { result ≤ most_cells }
        ensures can { CanBeMade self.now }
    {
        self.nodes.len() as u32
    }

    /// What is kept of a cell.
    pub fn node(&self, cell: u32) -> Node
        requires { cell < length (cells_of self.now) }
        ensures value { result ≡ node_of self.now (cell_at self.now cell) }
        ensures can { CanBeMade self.now }
    {
        self.nodes[cell as usize]
    }

    /// Whether the cell is a leaf.
    pub fn is_leaf(&self, cell: u32) -> bool
        requires { cell < length (cells_of self.now) }
        ensures { result ≡ is_leaf self.now (cell_at self.now cell) }
    {
        is_leaf(&self.nodes[cell as usize], self.leaf)
    }

    /// The members of the leaf of this cell, which start here.
    pub fn members(&self, cell: u32, start: u32) -> &[u32]
        requires within { cell < length (cells_of self.now) }
        requires leaf { is_leaf self.now (cell_at self.now cell) ≡ true }
        requires start { start ≡ length (members_in self.now (take cell (cells_of self.now))) }
        ensures { result.now ≡ (cell_at self.now cell).members }
    {
        let start = start as usize;
        let end = start + self.nodes[cell as usize].count as usize;
        &self.order[start..end]
    }
}
