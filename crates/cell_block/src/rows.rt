//! The particles of a leaf during a step.
ghost use Rattle.std.specs.Prelude.{◌≡◌, ◌<◌, [], length, IfOk};
ghost use Rattle.cell_block.specs.Blocks.{Agrees, done_of, tasks_at};
ghost use Rattle.cell_block.specs.Scene.{IsGoodScene, members_of};
ghost use Rattle.cell_block.specs.inner.Beginning.{first_force};

use crate::beginning::{each, force, is_due, marks, pull, rho, spot};
use crate::extent::Extent;
use crate::moving::Moving;
use crate::scene::Scene;
use sph_num::Pull;
use std::alloc::{AllocError, Global};

/// Where a member is and how far it reaches: all that the test of a pair's distance reads, in 16 bytes.
#[derive(Clone, Copy, Debug)]
pub struct Spot {
    /// In length units.
    pub place: [u32; 3],
    /// The smoothing length, in length units.
    pub h: u32,
}

/// A task that touches the block's leaf, and whether it is done there.
#[derive(Clone, Copy, Debug)]
pub struct Mark {
    pub task: u32,
    pub done: bool,
}

/// The particles of a leaf with the tasks that are done on it. What a pair of members reads stands in flat
/// lists of its own, with an element for each member in the order of the leaf.
#[derive(Debug, Drop)]
pub struct BlockRows {
    /// The leaf's number.
    pub leaf: u32,
    /// The members by their indices from 0, rising.
    pub members: Vec<u32>,
    /// The tasks that touch the leaf, rising.
    pub marks: Vec<Mark>,
    /// A box in which the members stand, with the greatest of their lengths.
    pub extent: Extent,
    pub spots: Vec<Spot>,
    /// What a member gives to the forces of its pairs: length, mass and ghost.
    pub pulls: Vec<Pull>,
    /// Whether a member is due at the tick.
    pub due: Vec<bool>,
    /// The densities: of a due member as far as it is summed.
    pub rhos: Vec<u64>,
    /// The forces: of a due member as far as they are summed.
    pub forces: Vec<[i128; 3]>,
    /// What a kick reads and writes of a member beside these.
    pub moving: Vec<Moving>,
}

impl BlockRows {
    /// The leaf's particles before any task is done on it, with the tasks that touch it.
    pub(crate) fn with_tasks(
        alloc: Global,
        scene: &Scene,
        leaf: u32,
        tasks: &[u32],
    ) -> Result<BlockRows, AllocError>
        requires scene { IsGoodScene scene.now }
        requires leaf { leaf < length scene.now.leaves }
        requires tasks { tasks.now ≡ tasks_at scene.now leaf }
        ensures { IfOk result (λ block. Agrees scene.now leaf block × (done_of block ≡ [])) }
    {
        let members = members_of(alloc, scene, leaf)?;
        let spots = each(alloc, &members, |i| spot(scene, i))?;
        let extent = Extent::of(&spots);
        let force_on = |i: u32| -> [i128; 3]
            requires { IsGoodScene scene.now × (i < length scene.now.start) }
            ensures { result ≡ first_force scene.entry.now i }
        { force(scene, i) };
        Ok(BlockRows {
            leaf,
            marks: marks(alloc, tasks)?,
            extent,
            spots,
            pulls: each(alloc, &members, |i| pull(scene, i))?,
            due: each(alloc, &members, |i| is_due(scene, i))?,
            rhos: each(alloc, &members, |i| rho(scene, i))?,
            forces: each(alloc, &members, force_on)?,
            moving: each(alloc, &members, |i| Moving::of(scene.particle(i)))?,
            members,
        })
    }
}

/// The members of a leaf, as a list of its own.
fn members_of(alloc: Global, scene: &Scene, leaf: u32) -> Result<Vec<u32>, AllocError>
    requires { leaf < length scene.now.leaves }
    ensures { IfOk result (λ v. v.items ≡ members_of scene.now leaf) }
{
    let members = scene.leaves.as_slice()[leaf as usize].as_slice();
    members.iter().copied().collect(alloc)
}
