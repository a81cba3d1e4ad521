//! The blocks of a stage's leaves: made by the calling thread, or by several threads, each of which makes those of a
//! part of the leaves.
ghost use Rattle.std.specs.Prelude.{◌≡◌, ◌+◌, ◌<◌, ◌≤◌, ◌^◌, IfOk, length, map};
ghost use Rattle.cell_block.specs.Blocks.{done_of, tasks_at};
ghost use Rattle.cell_block.specs.Scene.{IsGoodScene, leaf_numbers};
ghost use Rattle.qs_core.specs.Blocks.{AreFresh};
ghost use Rattle.sph_step.specs.Stage.{fits_in, shape_of};
ghost use Rattle.sph_step.specs.inner.Fresh.{AreFreshIn, AreOfPart, AreParts, start_of};

use crate::stage::Stage;
use cell_block::{Block, Flat, Scene, tasks_by_leaf};
use std::alloc::{AllocError, Global};
use std::thread;
use std::thread::Threads;

/// The blocks of the leaves in order, made by so many threads, or by the calling one where that is all.
pub(crate) fn blocks_of<R: Threads + Sync>(
    rt: &R,
    alloc: Global,
    stage: &Stage,
    threads: u32,
) -> Result<Vec<Block>, AllocError>
    ensures { IfOk result (λ blocks. AreFresh (shape_of stage.now) (fits_in stage.now) done_of blocks.items) }
{
    if threads < 2 {
        blocks_here(alloc, stage)
    } else {
        blocks_by(rt, alloc, stage, threads)
    }
}

/// The blocks of the leaves in order, made by the calling thread.
pub(crate) fn blocks_here(alloc: Global, stage: &Stage) -> Result<Vec<Block>, AllocError>
    ensures { IfOk result (λ blocks. AreFresh (shape_of stage.now) (fits_in stage.now) done_of blocks.items) }
{
    let scene = stage.scene();
    let tasks = tasks_by_leaf(alloc, scene)?;
    some_blocks(alloc, scene, &tasks, 0, scene.leaves.len())
}

/// The same, made by so many threads.
fn blocks_by<R: Threads + Sync>(
    rt: &R,
    alloc: Global,
    stage: &Stage,
    threads: u32,
) -> Result<Vec<Block>, AllocError>
    requires { 0 < threads }
    ensures { IfOk result (λ blocks. AreFresh (shape_of stage.now) (fits_in stage.now) done_of blocks.items) }
{
    let scene = stage.scene();
    let tasks = tasks_by_leaf(alloc, scene)?;
    let parts = parts_by(rt, alloc, scene, &tasks, threads as usize)?;
    joined(alloc, scene, parts)
}

/// The blocks of so many parts of the leaves, each part in a thread of its own where one can be made.
fn parts_by<R: Threads + Sync>(
    rt: &R,
    alloc: Global,
    scene: &Scene,
    tasks: &[Flat<u32>],
    parts: usize,
) -> Result<Vec<Result<Vec<Block>, AllocError>>, AllocError>
    requires scene { IsGoodScene scene.now }
    requires few { length scene.now.leaves < 2 ^ 32 }
    requires tasks { tasks.now ≡ map (tasks_at scene.now) (leaf_numbers scene.now) }
    requires parts { parts < 2 ^ 32 }
    ensures { IfOk result (λ made. AreParts scene.now parts made.items) }
{
    thread::map_indices(
        rt,
        alloc,
        parts,
        &|part: usize| -> Result<Vec<Block>, AllocError>
            requires { IsGoodScene scene.now × (length scene.now.leaves < 2 ^ 32) × (tasks.now ≡ map (tasks_at scene.now) (leaf_numbers scene.now)) × (parts < 2 ^ 32) × (part < parts) }
            ensures { IfOk result (λ blocks. AreOfPart scene.entry.now parts part blocks.items) }
        { part_of(alloc, scene, tasks, parts, part) },
    )
}

/// The blocks of one of so many parts of the leaves.
fn part_of(
    alloc: Global,
    scene: &Scene,
    tasks: &[Flat<u32>],
    parts: usize,
    part: usize,
) -> Result<Vec<Block>, AllocError>
    requires scene { IsGoodScene scene.now }
    requires few { length scene.now.leaves < 2 ^ 32 }
    requires tasks { tasks.now ≡ map (tasks_at scene.now) (leaf_numbers scene.now) }
    requires parts { parts < 2 ^ 32 }
    requires part { part < parts }
    ensures { IfOk result (λ blocks. AreOfPart scene.now parts part blocks.items) }
{
    let leaves = scene.leaves.len();
    let from = start_of(leaves, parts, part);
    let upto = start_of(leaves, parts, part + 1);
    some_blocks(alloc, scene, tasks, from, upto)
}

/// The leaf with which a part begins, of so many leaves in so many parts.
fn start_of(leaves: usize, parts: usize, part: usize) -> usize
    requires leaves { leaves < 2 ^ 32 }
    requires parts { parts < 2 ^ 32 }
    requires some { 0 < parts }
    requires part { part ≤ parts }
    ensures { result ≡ start_of leaves parts part }
{
    part * leaves / parts
}

/// The blocks of the leaves from one number up to another, which is excluded.
fn some_blocks(
    alloc: Global,
    scene: &Scene,
    tasks: &[Flat<u32>],
    from: usize,
    upto: usize,
) -> Result<Vec<Block>, AllocError>
    requires scene { IsGoodScene scene.now }
    requires few { length scene.now.leaves < 2 ^ 32 }
    requires tasks { tasks.now ≡ map (tasks_at scene.now) (leaf_numbers scene.now) }
    requires rising { from ≤ upto }
    requires within { upto ≤ length scene.now.leaves }
    ensures { IfOk result (λ blocks. AreFreshIn scene.now from upto blocks.items) }
{
    let mut blocks = Vec::with_capacity(alloc, upto - from)?;
    for leaf in from..upto {
        let block = Block::with_tasks(alloc, scene, leaf as u32, tasks[leaf].as_slice())?;
        blocks.push(block)?;
    }
    Ok(blocks)
}

/// The blocks of all parts in one list.
fn joined(
    alloc: Global,
    scene: &Scene,
    parts: Vec<Result<Vec<Block>, AllocError>>,
) -> Result<Vec<Block>, AllocError>
    requires some { 0 < length parts.items }
    requires parts { AreParts scene.now (length parts.items) parts.items }
    ensures { IfOk result (λ blocks. AreFreshIn scene.now 0 (length scene.now.leaves) blocks.items) }
{
    let mut blocks = Vec::with_capacity(alloc, scene.leaves.len())?;
    for part in parts {
        let mut some = part?;
        blocks.append(&mut some)?;
    }
    Ok(blocks)
}
