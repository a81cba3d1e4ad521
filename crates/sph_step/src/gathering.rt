//! From the blocks of a step whose tasks are all done to the list after it.
ghost use Rattle.std.specs.Prelude.{◌≡◌, ◌<◌, All, length};
ghost use Rattle.std.specs.List.Sorted.{IsStrictlyIncreasing};
ghost use Rattle.cell_block.specs.Blocks.{done_of};
ghost use Rattle.cell_block.specs.Reading.{IsWhole};
ghost use Rattle.qs_run.specs.Blocks.{AreAllDone};
ghost use Rattle.sph_bins.specs.Kick.{next_list};
ghost use Rattle.sph_step.specs.Stage.{fits_in, shape_of};
ghost use Rattle.sph_step.specs.inner.Put.{ArePut};

use crate::stage::Stage;
use cell_block::{Block, BlockRows};
use sph_num::Particle;

/// Writes each member of each block into its place of the list from which the stage was made. Takes no memory.
pub fn gather(stage: &Stage, blocks: Vec<Block>, particles: &mut [Particle])
    requires start { particles.old ≡ stage.now.scene.start }
    requires blocks { AreAllDone (shape_of stage.now) (fits_in stage.now) done_of blocks.items }
    ensures { particles.new ≡ next_list stage.now.scene.params stage.now.scene.start stage.now.scene.tick }
{
    let scene = stage.scene();
    for leaf in 0..scene.leaves.len() {
        put_members(&blocks[leaf], particles);
    }
}

/// Writes each member of a block at its index.
fn put_members(block: &BlockRows, particles: &mut [Particle])
    requires whole { IsWhole block.now }
    requires rising { IsStrictlyIncreasing block.now.members.items }
    requires within { All (λ i. i < length particles.old) block.now.members.items }
    ensures { ArePut block.now (length block.now.members.items) particles.old particles.new }
{
    for k in 0..block.len() {
        let i = block.index(k);
        particles[i as usize] = block.particle(k);
    }
}
