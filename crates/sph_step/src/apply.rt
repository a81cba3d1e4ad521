//! The tasks of a scene, each by its kind.
ghost use Rattle.std.specs.Prelude.{◌≡◌, ◌<◌, None, Some, length};
ghost use Rattle.cell_block.specs.Blocks.{AreAdded, AreReady};
ghost use Rattle.cell_block.specs.Scene.{IsGoodScene, line_at};
ghost use Rattle.cell_kern.specs.Tasks.{second_of};

use cell_block::{Block, Scene};
use cell_kern::{density_pair, density_self, force_pair, force_self};
use cell_kick::{drift, kick, set_ghosts};
use sph_num::{Kind, Tables};

/// Does a task on one cell. The blocks are those of the cell's leaves in order.
pub(crate) fn apply_on_one(
    scene: &Scene,
    tables: &Tables,
    kind: Kind,
    task: u32,
    blocks: &mut [Block],
)
    requires scene { IsGoodScene scene.now }
    requires task { task < length scene.now.tasks }
    requires kind { (line_at scene.now task).kind ≡ kind }
    requires one_cell { (line_at scene.now task).second ≡ None }
    requires ready { AreReady scene.now task (line_at scene.now task).first blocks.old }
    ensures { AreAdded scene.now task (line_at scene.now task).first blocks.old blocks.new }
{
    match kind {
        Kind::Drift => drift(scene, task, &mut blocks[0]),
        Kind::Density => density_self(scene, tables, task, blocks),
        Kind::Ghost => set_ghosts(scene, task, &mut blocks[0]),
        Kind::Force => force_self(scene, tables, task, blocks),
        Kind::Kick => kick(scene, task, &mut blocks[0]),
    }
}

/// Does a task on two cells: a density or a force. The blocks are those of the leaves of each in order.
pub(crate) fn apply_on_two(
    scene: &Scene,
    tables: &Tables,
    kind: Kind,
    task: u32,
    first: &mut [Block],
    second: &mut [Block],
)
    requires scene { IsGoodScene scene.now }
    requires task { task < length scene.now.tasks }
    requires kind { (line_at scene.now task).kind ≡ kind }
    requires two_cells { (line_at scene.now task).second ≡ Some (second_of (line_at scene.now task)) }
    requires first_ready { AreReady scene.now task (line_at scene.now task).first first.old }
    requires second_ready { AreReady scene.now task (second_of (line_at scene.now task)) second.old }
    ensures first { AreAdded scene.now task (line_at scene.now task).first first.old first.new }
    ensures second { AreAdded scene.now task (second_of (line_at scene.now task)) second.old second.new }
{
    match kind {
        Kind::Density => density_pair(scene, tables, task, first, second),
        Kind::Force => force_pair(scene, tables, task, first, second),
        _ => unreachable!(),
    }
}
