//! Whole steps of small scenes, each task on the blocks that the tasks before it left.
ghost use Rattle.std.specs.Prelude.{◌≡◌, ◌+◌, ◌<◌, [], ◌∷◌, length, IfOk};
ghost use Rattle.cell_block.specs.Reading.{IsWhole};
ghost use Rattle.cell_block.specs.Scene.{IsGoodScene, leaf_line, line_at};
ghost use Rattle.cell_kick.specs.inner.FirstTasks.{HasFirst};
ghost use Rattle.cell_kick.specs.inner.OneLeaf.{one_leaf_lines};
ghost use Rattle.cell_kick.specs.inner.Face.{across_face, six_lines};

mod beginning;
mod boxes;

use crate::{drift, kick, set_ghosts};
use cell_block::{Block, Flat, Scene, TaskLine};
use cell_kern::{density_pair, density_self, force_pair, force_self};
use sph_num::{Bounds, Kind, Params, Particle, ParticleList, Tables};
use std::alloc::{AllocError, Global};
use std::slice;

const PARAMS: Params = Params {
    ticks: 2,
    every: 2,
    bin_min: 0,
    bin_max: 1,
    sound: 65_536,
    shift: 22,
    accuracy: 1_200_000,
    leaf: 16,
    pairs: 4096,
    slack: 0,
};

const BOUNDS: Bounds = Bounds {
    count: 2,
    mass: (1024, 4096),
    h: (1024, 1024),
};

/// What the kick at tick 0 left of a light particle, which is due at each tick.
const LIGHT: Particle = Particle {
    mass: 1024,
    h: 1024,
    x0: [1512, 0, 0],
    t0: 0,
    p: [1_211_960_844_288, 0, 0],
    q: [0; 3],
    f: [1_211_960_844_288, 0, 0],
    rho: 87_496_327_168,
    g: 804,
    bin: 0,
};

/// And of a heavy one, which is due at each second tick.
const HEAVY: Particle = Particle {
    mass: 4096,
    h: 1024,
    x0: [1000, 0, 0],
    t0: 0,
    p: [0; 3],
    q: [2_423_921_688_576, 0, 0],
    f: [-1_211_960_844_288, 0, 0],
    rho: 185_929_695_232,
    g: 378,
    bin: 1,
};

const FACE_BOUNDS: Bounds = Bounds {
    count: 2,
    mass: (1024, 1024),
    h: (1024, 1024),
};

/// A particle before its first kick.
const RESTING: Particle = Particle {
    mass: 1024,
    h: 1024,
    x0: [1000, 0, 0],
    t0: 0,
    p: [0; 3],
    q: [0; 3],
    f: [0; 3],
    rho: 0,
    g: 0,
    bin: 0,
};

/// A task on the one leaf.
fn on_leaf(kind: Kind) -> TaskLine
    ensures { result ≡ leaf_line kind 0 }
{
    TaskLine {
        kind,
        first: (0, 1),
        second: None,
    }
}

/// The tasks of a leaf with a due member.
fn tasks(alloc: Global, drift: bool) -> Result<Vec<TaskLine>, AllocError>
    ensures { IfOk result (λ v. v.items ≡ one_leaf_lines drift) }
{
    let density = on_leaf(Kind::Density);
    let made = on_leaf(Kind::Ghost);
    let force = on_leaf(Kind::Force);
    let kick = on_leaf(Kind::Kick);
    if drift {
        Ok(vec![in alloc; on_leaf(Kind::Drift), density, made, force, kick]?)
    } else {
        Ok(vec![in alloc; density, made, force, kick]?)
    }
}

/// A light and a heavy particle in one leaf at tick 1, at which the first alone is due.
fn two_bins(alloc: Global, drift: bool) -> Result<Scene, AllocError>
    ensures good { IfOk result IsGoodScene }
    ensures leaves { IfOk result (λ scene. length scene.leaves ≡ 1) }
    ensures tasks { IfOk result (λ scene. scene.tasks ≡ one_leaf_lines scene.drift) }
    ensures drift { IfOk result (λ scene. scene.drift ≡ drift) }
{
    let mut leaves = Vec::with_capacity(alloc, 1)?;
    leaves.push(Flat::from_vec(vec![in alloc; 0, 1]?))?;
    Ok(Scene {
        tick: 1,
        params: PARAMS,
        bounds: BOUNDS,
        start: ParticleList::from_vec(vec![in alloc; LIGHT, HEAVY]?),
        leaves: Flat::from_vec(leaves),
        tasks: Flat::from_vec(tasks(alloc, drift)?),
        drift,
    })
}

/// Does a task on the first leaf alone.
fn do_task(scene: &Scene, tables: &Tables, kind: Kind, task: u32, block: &mut Block)
    requires good { IsGoodScene scene.now }
    requires number { task < length scene.now.tasks }
    requires line { line_at scene.now task ≡ leaf_line kind 0 }
    requires first { HasFirst scene.now task 0 block.old }
    ensures { HasFirst scene.now (task + 1) 0 block.new }
{
    match kind {
        Kind::Drift => drift(scene, task, block),
        Kind::Density => density_self(scene, tables, task, slice::from_mut(block)),
        Kind::Ghost => set_ghosts(scene, task, block),
        Kind::Force => force_self(scene, tables, task, slice::from_mut(block)),
        Kind::Kick => kick(scene, task, block),
    }
}

/// The block of the scene's one leaf, with all tasks done.
fn finished(alloc: Global, scene: &Scene, tables: &Tables) -> Result<Block, AllocError>
    requires good { IsGoodScene scene.now }
    requires leaves { length scene.now.leaves ≡ 1 }
    requires tasks { scene.now.tasks ≡ one_leaf_lines scene.now.drift }
    ensures { IfOk result IsWhole }
{
    let mut block = Block::make(alloc, scene, 0)?;
    for (task, line) in scene.tasks.as_slice().iter().enumerate() {
        do_task(scene, tables, line.kind, task as u32, &mut block);
    }
    Ok(block)
}

#[test]
fn steps_by_a_kept_ghost(rt: HostRuntime) -> Result<(), AllocError> {
    let tables = Tables::new(rt.alloc())?;
    let scene = two_bins(rt.alloc(), true)?;
    let block = finished(rt.alloc(), &scene, &tables)?;
    assert!(rt; block.len() == 2);
    assert_eq!(rt; block.place(0), [1794, 0, 0]);
    let light = Particle {
        x0: [1794, 0, 0],
        t0: 1,
        p: [1_976_930_689_336, 0, 0],
        q: [1_594_445_766_812, 0, 0],
        f: [382_484_922_524, 0, 0],
        rho: 47_713_987_728,
        g: 1474,
        ..LIGHT
    };
    assert_eq!(rt; block.particle(0), light);
    assert_eq!(rt; block.particle(1), HEAVY);
    Ok(())
}

/// A task on the first of two leaves, or on both.
fn on_two(kind: Kind, second: Option<(u32, u32)>) -> TaskLine
    ensures { result ≡ record { kind = kind; first = (0, 1); second = second } }
{
    TaskLine {
        kind,
        first: (0, 1),
        second,
    }
}

/// A particle below the face, which is due at tick 1.
const DUE: Particle = Particle {
    x0: [1_048_320, 0, 0],
    ..RESTING
};

/// And one above it, which isn't, with what it keeps of tick 0.
const WAITING: Particle = Particle {
    x0: [256, 0, 0],
    f: [659_298_496_512, 0, 0],
    rho: 54_685_204_480,
    g: 1286,
    bin: 1,
    ..RESTING
};

/// The tasks of these two in leaves of their own.
fn tasks_of_two(alloc: Global) -> Result<Vec<TaskLine>, AllocError>
    ensures { IfOk result (λ v. v.items ≡ six_lines) }
{
    let other = Some((1, 2));
    Ok(vec![in alloc;
        on_two(Kind::Density, None),
        on_two(Kind::Density, other),
        on_two(Kind::Ghost, None),
        on_two(Kind::Force, None),
        on_two(Kind::Force, other),
        on_two(Kind::Kick, None),
    ]?)
}

/// The scene of these two.
fn across_face(alloc: Global) -> Result<Scene, AllocError>
    ensures { IfOk result (λ scene. scene ≡ across_face) }
{
    let mut leaves = Vec::with_capacity(alloc, 2)?;
    leaves.push(Flat::from_vec(vec![in alloc; 0]?))?;
    leaves.push(Flat::from_vec(vec![in alloc; 1]?))?;
    Ok(Scene {
        tick: 1,
        params: PARAMS,
        bounds: FACE_BOUNDS,
        start: ParticleList::from_vec(vec![in alloc; DUE, WAITING]?),
        leaves: Flat::from_vec(leaves),
        tasks: Flat::from_vec(tasks_of_two(alloc)?),
        drift: false,
    })
}

/// Does a task on the first of the two leaves alone.
fn do_first(scene: &Scene, tables: &Tables, kind: Kind, task: u32, block: &mut Block)
    requires scene { scene.now ≡ across_face }
    requires number { task < 6 }
    requires line { line_at across_face task ≡ leaf_line kind 0 }
    requires first { HasFirst scene.now task 0 block.old }
    ensures { HasFirst scene.now (task + 1) 0 block.new }
{
    do_task(scene, tables, kind, task, block);
}

/// Does the tasks on a block of each leaf.
fn do_across(scene: &Scene, tables: &Tables, first: &mut Block, second: &mut Block)
    requires scene { scene.now ≡ across_face }
    requires first { HasFirst scene.now 0 0 first.old }
    requires second { HasFirst scene.now 0 1 second.old }
    ensures first { IsWhole first.new }
    ensures second { IsWhole second.new }
{
    do_first(scene, tables, Kind::Density, 0, first);
    density_pair(
        scene,
        tables,
        1,
        slice::from_mut(first),
        slice::from_mut(second),
    );
    do_first(scene, tables, Kind::Ghost, 2, first);
    do_first(scene, tables, Kind::Force, 3, first);
    force_pair(
        scene,
        tables,
        4,
        slice::from_mut(first),
        slice::from_mut(second),
    );
    do_first(scene, tables, Kind::Kick, 5, first);
}

/// The blocks of the two leaves, with all tasks done.
fn finished_across(alloc: Global, tables: &Tables) -> Result<(Block, Block), AllocError>
    ensures first { IfOk result (λ pair. IsWhole pair.0) }
    ensures second { IfOk result (λ pair. IsWhole pair.1) }
{
    let scene = across_face(alloc)?;
    let mut first = Block::make(alloc, &scene, 0)?;
    let mut second = Block::make(alloc, &scene, 1)?;
    do_across(&scene, tables, &mut first, &mut second);
    Ok((first, second))
}

#[test]
fn steps_the_due_one_across_the_face(rt: HostRuntime) -> Result<(), AllocError> {
    let tables = Tables::new(rt.alloc())?;
    let (first, second) = finished_across(rt.alloc(), &tables)?;
    assert!(rt; first.len() == 1 && second.len() == 1);
    let due = Particle {
        t0: 1,
        p: [-1_318_596_993_024, 0, 0],
        q: [-659_298_496_512, 0, 0],
        f: [-659_298_496_512, 0, 0],
        rho: 54_685_204_480,
        g: 1286,
        ..DUE
    };
    assert_eq!(rt; first.particle(0), due);
    assert_eq!(rt; second.particle(0), WAITING);
    Ok(())
}
