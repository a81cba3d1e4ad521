//! The tasks of pairs: each adds what the members of its leaves give to one another, and is marked as done.
ghost use Rattle.std.specs.Prelude.{◌≡◌, None, Some};
ghost use Rattle.sph_num.specs.declared.kind.Kind.TheVariants.{Density, Force};
ghost use Rattle.cell_block.specs.Blocks.{AreAdded, AreReady};
ghost use Rattle.cell_block.specs.Scene.{IsGoodScene, line_at};
ghost use Rattle.cell_block.specs.Tasks.{IsTask};
ghost use Rattle.cell_kern.specs.Tasks.{second_of};
ghost use Rattle.cell_kern.specs.inner.Taking.{AreMarked, KeepTask, kind_of};

use crate::blocks::{add_between, add_within};
use crate::density::Densities;
use crate::force::Forces;
use crate::sums::BlockSums;
use cell_block::{Block, Scene};
use sph_num::Tables;

/// Adds the densities of a task on one cell: each pair of its members, and each member with itself. Only due
/// members are given to. The blocks are those of the cell's leaves in order.
pub fn density_self(scene: &Scene, tables: &Tables, task: u32, blocks: &mut [Block])
    requires scene { IsGoodScene scene.now }
    requires task { IsTask scene.now Density task }
    requires one_cell { (line_at scene.now task).second ≡ None }
    requires ready { AreReady scene.now task (line_at scene.now task).first blocks.old }
    ensures { AreAdded scene.now task (line_at scene.now task).first blocks.old blocks.new }
{
    add_self::<Densities>(scene, tables, task, blocks);
}

/// Adds the forces of a task on one cell, as `density_self` does the densities; no member gives itself one.
pub fn force_self(scene: &Scene, tables: &Tables, task: u32, blocks: &mut [Block])
    requires scene { IsGoodScene scene.now }
    requires task { IsTask scene.now Force task }
    requires one_cell { (line_at scene.now task).second ≡ None }
    requires ready { AreReady scene.now task (line_at scene.now task).first blocks.old }
    ensures { AreAdded scene.now task (line_at scene.now task).first blocks.old blocks.new }
{
    add_self::<Forces>(scene, tables, task, blocks);
}

/// Adds the densities of a task on two cells: each pair of a member of the one and a member of the other. Only
/// due members are given to. The blocks are those of the leaves of each in order.
pub fn density_pair(
    scene: &Scene,
    tables: &Tables,
    task: u32,
    first: &mut [Block],
    second: &mut [Block],
)
    requires scene { IsGoodScene scene.now }
    requires task { IsTask scene.now Density task }
    requires two_cells { (line_at scene.now task).second ≡ Some (second_of (line_at scene.now task)) }
    requires first_ready { AreReady scene.now task (line_at scene.now task).first first.old }
    requires second_ready { AreReady scene.now task (second_of (line_at scene.now task)) second.old }
    ensures first { AreAdded scene.now task (line_at scene.now task).first first.old first.new }
    ensures second { AreAdded scene.now task (second_of (line_at scene.now task)) second.old second.new }
{
    add_pair::<Densities>(scene, tables, task, first, second);
}

/// Adds the forces of a task on two cells, as `density_pair` does the densities.
pub fn force_pair(
    scene: &Scene,
    tables: &Tables,
    task: u32,
    first: &mut [Block],
    second: &mut [Block],
)
    requires scene { IsGoodScene scene.now }
    requires task { IsTask scene.now Force task }
    requires two_cells { (line_at scene.now task).second ≡ Some (second_of (line_at scene.now task)) }
    requires first_ready { AreReady scene.now task (line_at scene.now task).first first.old }
    requires second_ready { AreReady scene.now task (second_of (line_at scene.now task)) second.old }
    ensures first { AreAdded scene.now task (line_at scene.now task).first first.old first.new }
    ensures second { AreAdded scene.now task (second_of (line_at scene.now task)) second.old second.new }
{
    add_pair::<Forces>(scene, tables, task, first, second);
}

/// A task on one cell. The scene is there for the contract alone.
fn add_self<S: BlockSums>(_scene: &Scene, tables: &Tables, task: u32, blocks: &mut [Block])
    requires scene { IsGoodScene _scene.now }
    requires task { IsTask _scene.now (kind_of S.sums) task }
    requires one_cell { (line_at _scene.now task).second ≡ None }
    requires ready { AreReady _scene.now task (line_at _scene.now task).first blocks.old }
    ensures { AreAdded _scene.now task (line_at _scene.now task).first blocks.old blocks.new }
{
    add_within::<S>(tables, blocks);
    mark_all(task, blocks);
}

/// A task on two cells. The scene is there for the contract alone.
fn add_pair<S: BlockSums>(
    _scene: &Scene,
    tables: &Tables,
    task: u32,
    first: &mut [Block],
    second: &mut [Block],
)
    requires scene { IsGoodScene _scene.now }
    requires task { IsTask _scene.now (kind_of S.sums) task }
    requires two_cells { (line_at _scene.now task).second ≡ Some (second_of (line_at _scene.now task)) }
    requires first_ready { AreReady _scene.now task (line_at _scene.now task).first first.old }
    requires second_ready { AreReady _scene.now task (second_of (line_at _scene.now task)) second.old }
    ensures first { AreAdded _scene.now task (line_at _scene.now task).first first.old first.new }
    ensures second { AreAdded _scene.now task (second_of (line_at _scene.now task)) second.old second.new }
{
    add_between::<S>(tables, first, second);
    mark_all(task, first);
    mark_all(task, second);
}

/// Marks the task as done on each block.
fn mark_all(task: u32, blocks: &mut [Block])
    requires { KeepTask task blocks.old }
    ensures { AreMarked task blocks.old blocks.new }
{
    for block in blocks.iter_mut() {
        block.mark(task);
    }
}
