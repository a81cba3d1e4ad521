//! The tasks that touch each leaf, of all leaves in one pass.
ghost use Rattle.std.specs.Prelude.{◌≡◌, [], length, map, replicate, IfOk, OnOk};
ghost use Rattle.cell_block.specs.Blocks.{tasks_at};
ghost use Rattle.cell_block.specs.Scene.{IsGoodScene, IsOtherRange, IsRange, is_in, leaf_numbers, touches};
ghost use Rattle.cell_block.specs.inner.TaskLists.{AddsTask};

use crate::flat::Flat;
use crate::scene::{Scene, TaskLine};
use std::alloc::{AllocError, Global};

/// The tasks that touch each leaf, rising, in the order of the leaves: one pass over the tasks.
pub fn tasks_by_leaf(alloc: Global, scene: &Scene) -> Result<Vec<Flat<u32>>, AllocError>
    requires { IsGoodScene scene.now }
    ensures { IfOk result (λ lists. lists.items ≡ map (tasks_at scene.now) (leaf_numbers scene.now)) }
{
    let mut lists = no_tasks(alloc, scene.leaves.len())?;
    for (task, line) in scene.tasks.as_slice().iter().enumerate() {
        add_line(&mut lists, line, task as u32)?;
    }
    Ok(lists)
}

/// So many leaves without a task.
fn no_tasks(alloc: Global, leaves: usize) -> Result<Vec<Flat<u32>>, AllocError>
    ensures { IfOk result (λ lists. lists.items ≡ replicate leaves []) }
{
    let mut lists = Vec::with_capacity(alloc, leaves)?;
    for _leaf in 0..leaves {
        lists.push(Flat::from_vec(Vec::new(alloc)))?;
    }
    Ok(lists)
}

/// Adds a task to the lists of the leaves that it touches.
fn add_line(lists: &mut [Flat<u32>], line: &TaskLine, task: u32) -> Result<(), AllocError>
    requires first { IsRange (length lists.old) line.now.first }
    requires second { IsOtherRange (length lists.old) line.now.first line.now.second }
    ensures { OnOk result (AddsTask (touches line.now) task lists.old lists.new) }
{
    add_range(lists, line.first, task)?;
    match line.second {
        Some(second) => add_range(lists, second, task),
        None => Ok(()),
    }
}

/// Adds a task to the lists of a range of leaves.
fn add_range(lists: &mut [Flat<u32>], range: (u32, u32), task: u32) -> Result<(), AllocError>
    requires { IsRange (length lists.old) range }
    ensures { OnOk result (AddsTask (is_in range) task lists.old lists.new) }
{
    for leaf in range.0..range.1 {
        lists[leaf as usize].push(task)?;
    }
    Ok(())
}
