//! The tasks on one leaf: each changes what the members of the leaf are, and is marked as done.
ghost use Rattle.sph_num.specs.declared.kind.Kind.TheVariants.{Drift, Ghost, Kick};
ghost use Rattle.cell_block.specs.Blocks.{IsAdded, IsReady};
ghost use Rattle.cell_block.specs.Scene.{IsGoodScene, line_at};
ghost use Rattle.cell_block.specs.Tasks.{IsTask};

use crate::members::{Summed, kick_members, make_ghosts, place_members};
use cell_block::{BlockRows, Extent, Scene};

/// Takes each member of a leaf to its place at the tick, and the box of the block with them. The block is that of
/// the task's leaf.
pub fn drift(scene: &Scene, task: u32, block: &mut BlockRows)
    requires scene { IsGoodScene scene.now }
    requires task { IsTask scene.now Drift task }
    requires block { IsReady scene.now task (line_at scene.now task).first.0 block.old }
    ensures { IsAdded scene.now task (line_at scene.now task).first.0 block.old block.new }
{
    place_members(scene, block.members.as_slice(), block.spots.as_mut_slice());
    block.extent = Extent::of(block.spots.as_slice());
    block.mark(task);
}

/// Makes the ghost of each due member of a leaf from its density, which is whole by then. The block is that
/// of the task's leaf.
pub fn set_ghosts(scene: &Scene, task: u32, block: &mut BlockRows)
    requires scene { IsGoodScene scene.now }
    requires task { IsTask scene.now Ghost task }
    requires block { IsReady scene.now task (line_at scene.now task).first.0 block.old }
    ensures { IsAdded scene.now task (line_at scene.now task).first.0 block.old block.new }
{
    make_ghosts(
        scene.params.sound,
        block.due.as_slice(),
        block.rhos.as_slice(),
        block.pulls.as_mut_slice(),
    );
    block.mark(task);
}

/// Kicks each due member of a leaf by the force on it, which is whole by then. The block is that of the
/// task's leaf.
pub fn kick(scene: &Scene, task: u32, block: &mut BlockRows)
    requires scene { IsGoodScene scene.now }
    requires task { IsTask scene.now Kick task }
    requires block { IsReady scene.now task (line_at scene.now task).first.0 block.old }
    ensures { IsAdded scene.now task (line_at scene.now task).first.0 block.old block.new }
{
    let summed = Summed {
        spots: block.spots.as_slice(),
        due: block.due.as_slice(),
        forces: block.forces.as_slice(),
    };
    kick_members(scene, &summed, block.moving.as_mut_slice());
    block.mark(task);
}
