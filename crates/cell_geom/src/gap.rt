//! The gap between two cubes.
ghost use Rattle.std.specs.Prelude.{◌≡◌, ◌<◌, ◌≤◌, ◌^◌};
ghost use Rattle.cell_geom.specs.Cube.{IsCube};
ghost use Rattle.cell_geom.specs.Gap.{axis_gap_of, gap2_of, KeepsGap, slackened};
ghost use Rattle.cell_geom.specs.inner.Ends.{AreEnds};

use crate::cube::Cube;
use sph_num::BOX_SIDE;

/// The square of the gap of two cubes, in squares of length units, where a point of each may have moved
/// by the slack on each axis.
pub fn gap2(a: Cube, b: Cube, slack: u32) -> u64
    requires a { IsCube a }
    requires b { IsCube b }
    requires slack { slack ≤ 65535 }
    ensures value { result ≡ gap2_of a b slack }
    ensures law { KeepsGap a b slack result }
    ensures small { result < 2 ^ 40 }
{
    axis_gap2(a, b, 0, slack) + axis_gap2(a, b, 1, slack) + axis_gap2(a, b, 2, slack)
}

/// What one axis adds.
fn axis_gap2(a: Cube, b: Cube, axis: usize, slack: u32) -> u64
    requires a { IsCube a }
    requires b { IsCube b }
    requires axis { axis < 3 }
    requires slack { slack ≤ 65535 }
    ensures value { result ≡ slackened (axis_gap_of a b axis) slack }
    ensures small { result ≤ 2 ^ 38 }
{
    let gap = u64::from(axis_gap(a, b, axis).saturating_sub(2 * slack));
    gap * gap
}

/// The least distance of a coordinate of the one cube from one of the other: between the ends that face
/// each other, or those that do so across the periodic face.
fn axis_gap(a: Cube, b: Cube, axis: usize) -> u32
    requires a { IsCube a }
    requires b { IsCube b }
    requires axis { axis < 3 }
    ensures value { result ≡ axis_gap_of a b axis }
    ensures small { result ≤ 2 ^ 19 }
{
    let (a_first, a_last) = ends(a, axis);
    let (b_first, b_last) = ends(b, axis);
    if a_last < b_first {
        (b_first - a_last).min(a_first + BOX_SIDE - b_last)
    } else if b_last < a_first {
        (a_first - b_last).min(b_first + BOX_SIDE - a_last)
    } else {
        0
    }
}

/// The first and the last coordinate of the cube on an axis.
fn ends(cube: Cube, axis: usize) -> (u32, u32)
    requires cube { IsCube cube }
    requires axis { axis < 3 }
    ensures { AreEnds cube axis result.0 result.1 }
{
    let shift = 20 - cube.level;
    let first = cube.at[axis] << shift;
    (first, first + (1 << shift) - 1)
}
