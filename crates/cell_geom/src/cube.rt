//! A cube, the points that it holds and the cubes that lie in it.
ghost use Rattle.std.specs.Prelude.{◌≡◌, ◌<◌, ◌↔◌, IsTrue};

/// The level of the smallest cubes.
pub const DEEPEST_LEVEL: u32 = 10;

/// One of the `2^level` cubes along each axis, at this place among them.
#[derive(Clone, Copy, Debug, PartialEq, Eq)]
pub struct Cube {
    /// From 0, the whole box, to `DEEPEST_LEVEL`.
    pub level: u32,
    /// The number of cubes below it on each axis: less than `2^level`.
    pub at: [u32; 3],
}

ghost use Rattle.cell_geom.specs.Cube.{deepest_level, IsCube, cube_holds, octant_of, child_of, cube_contains, CubeContains};

/// Whether the cube holds the point.
pub fn holds(cube: Cube, point: [u32; 3]) -> bool
    requires { IsCube cube }
    ensures { IsTrue result ↔ cube_holds cube point }
{
    let shift = 20 - cube.level;
    point[0] >> shift == cube.at[0]
        && point[1] >> shift == cube.at[1]
        && point[2] >> shift == cube.at[2]
}

/// The octant of the cube in which a point of it lies: bit 0 for x, bit 1 for y, bit 2 for z.
pub fn octant(cube: Cube, point: [u32; 3]) -> u32
    requires cube { IsCube cube }
    requires held { cube_holds cube point }
    requires splits { cube.level < deepest_level }
    ensures value { result ≡ octant_of cube.level point }
    ensures below { result < 8 }
    ensures held { cube_holds (child_of cube result) point }
{
    let child_level = cube.level + 1;
    let shift = 20 - child_level;
    (point[0] >> shift) % 2 + 2 * ((point[1] >> shift) % 2) + 4 * ((point[2] >> shift) % 2)
}

/// The cube of an octant.
pub fn child(cube: Cube, octant: u32) -> Cube
    requires cube { IsCube cube }
    requires splits { cube.level < deepest_level }
    requires octant { octant < 8 }
    ensures value { result ≡ child_of cube octant }
    ensures cube { IsCube result }
    ensures inside { CubeContains cube result }
{
    Cube {
        level: cube.level + 1,
        at: [
            2 * cube.at[0] + octant % 2,
            2 * cube.at[1] + octant / 2 % 2,
            2 * cube.at[2] + octant / 4 % 2,
        ],
    }
}

/// Whether the inner cube lies in the outer one, or is the same.
#[tactic(auto, unfolding(crate::specs::Cube::cube_contains))]
pub fn contains(outer: Cube, inner: Cube) -> bool
    requires outer { IsCube outer }
    requires inner { IsCube inner }
    ensures { result ≡ cube_contains outer inner }
{
    if outer.level > inner.level {
        return false;
    }
    let shift = inner.level - outer.level;
    inner.at[0] >> shift == outer.at[0]
        && inner.at[1] >> shift == outer.at[1]
        && inner.at[2] >> shift == outer.at[2]
}
