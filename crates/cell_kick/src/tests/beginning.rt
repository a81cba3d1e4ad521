//! Blocks of two particles in one leaf, before any task is done on them.
ghost use Rattle.std.specs.Prelude.{◌≡◌, [], ◌∷◌, false, length, IfOk};
ghost use Rattle.cell_block.specs.Reading.{IsWhole, tasks_of};
ghost use Rattle.cell_block.specs.Scene.{IsGoodScene};
ghost use Rattle.cell_kick.specs.inner.OneLeaf.{one_leaf_lines};

use super::{HEAVY, LIGHT, on_leaf, two_bins};
use cell_block::{Block, Scene, sums_are_whole, tasks_by_leaf};
use sph_num::{Kind, Particle};
use std::alloc::{AllocError, Global};

/// The block of the scene's one leaf.
fn only_block(alloc: Global, scene: &Scene) -> Result<Block, AllocError>
    requires good { IsGoodScene scene.now }
    requires leaves { length scene.now.leaves ≡ 1 }
    requires tasks { scene.now.tasks ≡ one_leaf_lines scene.now.drift }
    requires no_drift { scene.now.drift ≡ false }
    ensures whole { IfOk result IsWhole }
    ensures tasks { IfOk result (λ block. tasks_of block ≡ 0 ∷ 1 ∷ 2 ∷ 3 ∷ []) }
{
    Block::make(alloc, scene, 0)
}

#[test]
fn begins_the_sums_of_due_members_alone(rt: HostRuntime) -> Result<(), AllocError> {
    sums_are_whole();
    let scene = two_bins(rt.alloc(), false)?;
    let block = only_block(rt.alloc(), &scene)?;
    assert_eq!(rt; block.leaf, 0);
    assert_eq!(rt; block.due.as_slice(), [true, false].as_slice());
    assert!(rt; block.len() == 2);
    assert_eq!(rt; (block.index(0), block.index(1)), (0, 1));
    assert_eq!(rt; (block.place(0), block.place(1)), ([1794, 0, 0], HEAVY.x0));
    let begun = Particle {
        rho: 0,
        f: [0; 3],
        ..LIGHT
    };
    assert_eq!(rt; (block.particle(0), block.particle(1)), (begun, HEAVY));
    Ok(())
}

#[test]
fn leaves_the_way_to_the_drift(rt: HostRuntime) -> Result<(), AllocError> {
    let scene = two_bins(rt.alloc(), true)?;
    assert_eq!(rt; scene.leaves.len(), 1);
    assert_eq!(rt; scene.tasks.get(0), Some(&on_leaf(Kind::Drift)));
    let block = Block::make(rt.alloc(), &scene, 0)?;
    assert!(rt; block.spots.len() == 2 && block.marks.len() == 5);
    assert_eq!(rt; block.spots[0].place, LIGHT.x0);
    Ok(())
}

#[test]
fn marks_a_task_of_the_leaf(rt: HostRuntime) -> Result<(), AllocError> {
    let scene = two_bins(rt.alloc(), false)?;
    let lists = tasks_by_leaf(rt.alloc(), &scene)?;
    assert!(rt; lists.len() == 1);
    assert_eq!(rt; lists[0].as_slice(), [0, 1, 2, 3].as_slice());
    let mut block = only_block(rt.alloc(), &scene)?;
    block.mark(1);
    assert_eq!(rt; (block.is_done(0), block.is_done(1)), (false, true));
    Ok(())
}
