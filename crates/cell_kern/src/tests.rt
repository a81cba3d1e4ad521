//! The worked pair of particles over lists: the turned sign, and a pair across the face. Whole tasks on the blocks of
//! scenes are tested where the ghosts and the kicks stand.
ghost use Rattle.std.specs.Prelude.{◌≡◌, [], ◌∷◌};

use crate::density::Densities;
use crate::force::Forces;
use crate::members::Members;
use crate::pairs::{between, within};
use cell_block::{Extent, Spot};
use sph_num::{Length, Pull, Tables};
use std::alloc::AllocError;

/// A member's spot on the first axis.
fn spot(x: u32) -> Spot
    ensures { result ≡ record { place = x ∷ 0 ∷ 0 ∷ []; h = 1024 } }
{
    Spot {
        place: [x, 0, 0],
        h: 1024,
    }
}

/// A member's side of its forces, with the ghost of the worked pair.
fn pull() -> Pull
    ensures { result ≡ record { h = 1024; mass = 1024; g = 1286 } }
{
    Pull::new(Length::new(1024), 1024, 1286)
}

#[test]
#[tactic(auto, using(crate::proofs::Forces::force_laws))]
fn turns_the_force_for_the_second(rt: HostRuntime) -> Result<(), AllocError> {
    let tables = Tables::new(rt.alloc())?;
    let spots = [spot(1000), spot(1512)];
    let pulls = [pull(), pull()];
    let due = [true, true];
    let members = Members {
        spots: &spots,
        pulls: &pulls,
        due: &due,
    };
    let mut forces = [[0; 3]; 2];
    within::<Forces>(&tables, &members, &mut forces);
    assert_eq!(rt; forces, [[-659_298_496_512, 0, 0], [659_298_496_512, 0, 0]]);
    Ok(())
}

#[test]
#[tactic(auto, using(crate::proofs::Densities::rho_laws, crate::proofs::Forces::force_laws))]
fn gives_to_the_due_one_across_the_face(rt: HostRuntime) -> Result<(), AllocError> {
    let tables = Tables::new(rt.alloc())?;
    let (low, high) = ([spot(256)], [spot(1_048_320)]);
    let pulls = [pull()];
    let waiting = Members {
        spots: &low,
        pulls: &pulls,
        due: &[false],
    };
    let due = Members {
        spots: &high,
        pulls: &pulls,
        due: &[true],
    };
    let extent = Extent::of(&low);
    let (mut kept, mut summed) = ([7], [43_748_163_584]);
    between::<Densities>(&tables, &due, &waiting, &extent, &mut summed, &mut kept);
    assert_eq!(rt; (kept, summed), ([7], [54_685_204_480]));
    let (mut kept, mut summed) = ([[7; 3]], [[0; 3]]);
    between::<Forces>(&tables, &due, &waiting, &extent, &mut summed, &mut kept);
    assert_eq!(rt; (kept, summed), ([[7; 3]], [[-659_298_496_512, 0, 0]]));
    Ok(())
}
