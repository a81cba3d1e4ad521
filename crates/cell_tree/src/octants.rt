//! The members of a cell, sorted by the octant that they lie in.
ghost use Rattle.std.specs.Prelude.{◌≡◌, ℕ, ◌+◌, ◌<◌, ◌++◌, length, slice_index, OnOk, IfOk, map};
ghost use Rattle.sph_num.specs.Bound.{greatest_of};
ghost use Rattle.cell_geom.specs.Cube.{deepest_level};
ghost use Rattle.cell_tree.specs.inner.Nodes.{AreHeld, in_octant, in_octants};

use cell_geom::{Cube, octant};
use std::alloc::AllocError;

/// The greatest length of the members.
pub fn reach(lengths: &[u32], members: &[u32]) -> u32
    requires { (k : ℕ) → k < length members.now → slice_index members.now k < length lengths.now }
    ensures { result ≡ greatest_of (map (slice_index lengths.now) members.now) }
{
    let mut reach = 0;
    for i in members {
        reach = lengths[*i as usize].max(reach);
    }
    reach
}

/// Appends the members that lie in the octant of the cube.
fn append_octant(
    points: &[[u32; 3]],
    cube: Cube,
    number: u32,
    members: &[u32],
    sorted: &mut Vec<u32>,
) -> Result<(), AllocError>
    requires held { AreHeld points.now cube members.now }
    requires splits { cube.level < deepest_level }
    ensures { OnOk result (sorted.new.items
        ≡ sorted.old.items ++ in_octant points.now cube.level members.now number) }
{
    for i in members {
        if octant(cube, points[*i as usize]) == number {
            sorted.push(*i)?;
        }
    }
    Ok(())
}

/// Sorts the members by octant, each octant's in their order, and says where each octant ends.
pub fn sort_by_octant(
    points: &[[u32; 3]],
    cube: Cube,
    members: &mut [u32],
    scratch: &mut Vec<u32>,
) -> Result<[usize; 8], AllocError>
    requires held { AreHeld points.now cube members.old }
    requires splits { cube.level < deepest_level }
    ensures sorted { OnOk result (members.new
        ≡ in_octants points.now cube.level members.old 0 8) }
    ensures ends { IfOk result (λ ends. (k : ℕ) → k < 8
        → slice_index ends k ≡ length (in_octants points.now cube.level members.old 0 (k + 1))) }
{
    scratch.clear();
    let mut ends = [0; 8];
    for number in 0..8 {
        append_octant(points, cube, number as u32, members, scratch)?;
        ends[number] = scratch.len();
    }
    members.copy_from_slice(scratch.as_slice());
    Ok(ends)
}
