//! Places and distances in the periodic box.
ghost use Rattle.std.specs.Prelude.{◌≡◌, ◌<◌, ◌≤◌, ◌*◌, ◌^◌, unsigned_abs};
ghost use Rattle.sph_num.specs.Space.{box_side, minimal, dist2, IsPlace};

/// The side of the box, in length units.
pub const BOX_SIDE: u32 = 1 << 20;

/// The minimal image of `a - b` on one axis, in length units: from -2^19 to 2^19 - 1.
#[inline]
pub fn minimal(a: u32, b: u32) -> i32
    requires a_in_box { a < box_side }
    requires b_in_box { b < box_side }
    ensures { result ≡ minimal a b }
{
    ((a + BOX_SIDE + BOX_SIDE / 2 - b) % BOX_SIDE) as i32 - (BOX_SIDE / 2) as i32
}

/// The square of the distance of two places, in squares of length units: at most 3·2^38.
#[inline]
pub fn dist2(a: [u32; 3], b: [u32; 3]) -> u64
    requires a_in_box { IsPlace a }
    requires b_in_box { IsPlace b }
    ensures value { result ≡ dist2 a b }
    ensures small { result < 2 ^ 40 }
{
    axis2(a[0], b[0]) + axis2(a[1], b[1]) + axis2(a[2], b[2])
}

/// The square of the minimal image on one axis.
#[inline]
fn axis2(a: u32, b: u32) -> u64
    requires a_in_box { a < box_side }
    requires b_in_box { b < box_side }
    ensures value { let d = unsigned_abs (minimal a b) in result ≡ d * d }
    ensures small { result ≤ 2 ^ 38 }
{
    let d = i64::from(minimal(a, b));
    (d * d) as u64
}
