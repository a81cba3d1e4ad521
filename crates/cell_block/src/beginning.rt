//! What a block holds before any task is done on it: a list for each field, an element a member.
ghost use Rattle.std.specs.Prelude.{◌≡◌, ◌<◌, All, IfOk, length, map};
ghost use Rattle.cell_block.specs.Blocks.{tasks_at};
ghost use Rattle.cell_block.specs.Scene.{IsGoodScene, is_due_at, is_in, touches};
ghost use Rattle.cell_block.specs.inner.Beginning.{AreGiven, first_force, first_pull, first_rho, first_spot, not_done};

use crate::rows::{Mark, Spot};
use crate::scene::{Scene, TaskLine};
use sph_bins::due;
use sph_num::{Length, Pull};
use std::alloc::{AllocError, Global};

/// Whether the particle is due at the scene's tick.
pub(crate) fn is_due(scene: &Scene, i: u32) -> bool
    requires good { IsGoodScene scene.now }
    requires within { i < length scene.now.start }
    ensures { result ≡ is_due_at scene.now i }
{
    due(scene.tick, scene.particle(i).bin)
}

/// Where the particle stands, and how far it reaches.
pub(crate) fn spot(scene: &Scene, i: u32) -> Spot
    requires good { IsGoodScene scene.now }
    requires within { i < length scene.now.start }
    ensures { result ≡ first_spot scene.now i }
{
    let particle = scene.particle(i);
    let place = if scene.drift {
        particle.x0
    } else {
        scene.place(i)
    };
    Spot {
        place,
        h: particle.h,
    }
}

/// What the particle gives to the forces of its pairs, by the ghost that its last kick left.
pub(crate) fn pull(scene: &Scene, i: u32) -> Pull
    requires good { IsGoodScene scene.now }
    requires within { i < length scene.now.start }
    ensures { result ≡ first_pull scene.now i }
{
    let particle = scene.particle(i);
    Pull::new(Length::new(particle.h), particle.mass, particle.g)
}

/// The particle's density, not begun where it is due.
pub(crate) fn rho(scene: &Scene, i: u32) -> u64
    requires good { IsGoodScene scene.now }
    requires within { i < length scene.now.start }
    ensures { result ≡ first_rho scene.now i }
{
    if is_due(scene, i) {
        0
    } else {
        scene.particle(i).rho
    }
}

/// The force on the particle, not begun where it is due.
pub(crate) fn force(scene: &Scene, i: u32) -> [i128; 3]
    requires good { IsGoodScene scene.now }
    requires within { i < length scene.now.start }
    ensures { result ≡ first_force scene.now i }
{
    if is_due(scene, i) {
        [0; 3]
    } else {
        scene.particle(i).f
    }
}

/// What a function gives for each of some members, in their order.
pub(crate) fn each<T: Drop, F: Fn(u32) -> T>(
    alloc: Global,
    members: &[u32],
    of: F,
) -> Result<Vec<T>, AllocError>
    requires { All (F.pre of) members.now }
    ensures { IfOk result (λ v. AreGiven (F.post of) members.now v.items) }
{
    let mut each = Vec::with_capacity(alloc, members.len())?;
    for i in members {
        each.push(of(*i))?;
    }
    Ok(each)
}

/// Marks for some tasks, none of them done.
pub(crate) fn marks(alloc: Global, tasks: &[u32]) -> Result<Vec<Mark>, AllocError>
    ensures { IfOk result (λ v. v.items ≡ map not_done tasks.now) }
{
    let mut marks = Vec::with_capacity(alloc, tasks.len())?;
    for task in tasks {
        marks.push(Mark {
            task: *task,
            done: false,
        })?;
    }
    Ok(marks)
}

/// The tasks that touch a leaf, rising.
pub(crate) fn tasks_at(alloc: Global, scene: &Scene, leaf: u32) -> Result<Vec<u32>, AllocError>
    requires { IsGoodScene scene.now }
    ensures { IfOk result (λ v. v.items ≡ tasks_at scene.now leaf) }
{
    let mut tasks = Vec::new(alloc);
    for (task, line) in scene.tasks.as_slice().iter().enumerate() {
        if touches(line, leaf) {
            tasks.push(task as u32)?;
        }
    }
    Ok(tasks)
}

/// Whether a task touches a leaf.
fn touches(line: &TaskLine, leaf: u32) -> bool
    ensures { result ≡ touches line.now leaf }
{
    let in_second = match line.second {
        Some(second) => is_in(second, leaf),
        None => false,
    };
    is_in(line.first, leaf) || in_second
}

/// Whether a range of leaves has the leaf.
fn is_in(range: (u32, u32), leaf: u32) -> bool
    ensures { result ≡ is_in range leaf }
{
    range.0 <= leaf && leaf < range.1
}
