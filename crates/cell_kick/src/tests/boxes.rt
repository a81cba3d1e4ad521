//! Boxes that are apart on one axis alone, and boxes that aren't.
ghost use Rattle.std.specs.Prelude.{◌<◌};
ghost use Rattle.sph_num.specs.Space.{IsPlace, box_side};

use cell_block::{Extent, Spot};
use sph_num::BOX_SIDE;

/// A spot on an axis, of length 1024.
fn on_axis(axis: usize, x: u32) -> Spot
    requires { x < box_side }
    ensures { IsPlace result.place }
{
    let place = match axis {
        0 => [x, 0, 0],
        1 => [0, x, 0],
        _ => [0, 0, x],
    };
    Spot { place, h: 1024 }
}

/// From the coordinates up to 512 straight on, and across the face.
#[test]
fn tells_boxes_apart_on_each_axis(rt: HostRuntime) {
    for axis in 0..3 {
        let boxed = Extent::of(&[on_axis(axis, 512), on_axis(axis, 0)]);
        for (x, apart) in [
            (1535, false),
            (1536, true),
            (1_047_552, true),
            (1_047_553, false),
        ] {
            assert!(rt; x < BOX_SIDE);
            let point = Extent::point(&on_axis(axis, x));
            assert_eq!(rt;
                (boxed.is_apart(&point), point.is_apart(&boxed)),
                (apart, apart),
                "axis {axis} at {x}"
            );
        }
    }
}
