//! The cells of a tree, grown from its points.
ghost use Rattle.std.specs.Prelude.{◌≡◌, ◌+◌, ◌<◌, ◌≤◌, ◌++◌, length, OnOk, map};
ghost use Rattle.sph_num.specs.Ranges.{most_particles};
ghost use Rattle.cell_geom.specs.Cube.{deepest_level};
ghost use Rattle.cell_tree.specs.Tree.{made_of};
ghost use Rattle.cell_tree.specs.Laws.{CanBeMade};
ghost use Rattle.cell_tree.specs.inner.Nodes.{cell_over, node_of, members_in, IsSound};
ghost use Rattle.cell_tree.specs.inner.Under.{cells_under, cells_below};

use crate::node::{Node, is_leaf};
use crate::octants::{reach, sort_by_octant};
use cell_geom::{Cube, child};
use std::alloc::AllocError;

/// Appends the cells of the cube's subtree, and brings its members into the order of the leaves.
#[cycle(grow)]
pub fn grow(
    points: &[[u32; 3]],
    lengths: &[u32],
    leaf: u32,
    cube: Cube,
    members: &mut [u32],
    scratch: &mut Vec<u32>,
    nodes: &mut Vec<Node>,
) -> Result<(), AllocError>
    requires can { CanBeMade (made_of points.now lengths.now leaf) }
    requires sound { IsSound (made_of points.now lengths.now leaf) (cell_over cube members.old) }
    requires short { length members.old ≤ most_particles }
    ensures members { let made = made_of points.now lengths.now leaf in
        OnOk result (members.new ≡ members_in made (cells_under made (cell_over cube members.old))) }
    ensures nodes { let made = made_of points.now lengths.now leaf in
        OnOk result (nodes.new.items
        ≡ nodes.old.items ++ map (node_of made) (cells_under made (cell_over cube members.old))) }
{
    let node = Node {
        cube,
        count: members.len() as u32,
        reach: reach(lengths, members),
        size: 1,
    };
    let at = nodes.len();
    nodes.push(node)?;
    if !is_leaf(&node, leaf) {
        grow_octants(points, lengths, leaf, cube, members, scratch, nodes)?;
        nodes[at].size = (nodes.len() - at) as u32;
    }
    Ok(())
}

/// Appends the cells below a split cell, and brings its members into the order of the leaves.
#[cycle(grow)]
fn grow_octants(
    points: &[[u32; 3]],
    lengths: &[u32],
    leaf: u32,
    cube: Cube,
    members: &mut [u32],
    scratch: &mut Vec<u32>,
    nodes: &mut Vec<Node>,
) -> Result<(), AllocError>
    requires can { CanBeMade (made_of points.now lengths.now leaf) }
    requires sound { IsSound (made_of points.now lengths.now leaf) (cell_over cube members.old) }
    requires many { leaf < length members.old }
    requires splits { cube.level < deepest_level }
    requires short { length members.old ≤ most_particles }
    ensures members { let made = made_of points.now lengths.now leaf in
        OnOk result (members.new ≡ members_in made (cells_below made (cell_over cube members.old))) }
    ensures nodes { let made = made_of points.now lengths.now leaf in
        OnOk result (nodes.new.items
        ≡ nodes.old.items ++ map (node_of made) (cells_below made (cell_over cube members.old))) }
{
    let ends = sort_by_octant(points, cube, members, scratch)?;
    let mut start = 0;
    for number in 0..8 {
        let end = ends[number];
        if start < end {
            let part = &mut members[start..end];
            grow(
                points,
                lengths,
                leaf,
                child(cube, number as u32),
                part,
                scratch,
                nodes,
            )?;
        }
        start = end;
    }
    Ok(())
}
