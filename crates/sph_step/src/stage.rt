//! A step as a work: the cells of its tree, the tasks of its graph, and what these do to the blocks of leaves.
ghost use Rattle.std.specs.Prelude.{◌≡◌};
ghost use Rattle.cell_block.specs.Blocks.{done_of};
ghost use Rattle.cell_block.specs.Scene.{IsGoodScene};
ghost use Rattle.sph_step.specs.Stage.{IsStage, fits_in, shape_of};

use crate::apply::{apply_on_one, apply_on_two};
use cell_block::{Block, Scene};
use qs_core::Work;
use sph_num::Tables;
use std::alloc::Global;
use std::marker::Model;
use std::sync::Arc;
use task_graph::Graph;

/// What all answers of a stage follow from, as plain data.
#[derive(Debug, Drop)]
pub struct StagePlan {
    /// What the blocks start from.
    pub scene: Scene,
    /// The cell above each cell of the tree.
    pub parents: Vec<Option<u32>>,
    /// The leaves below each cell: from the first number up to the second, which is excluded.
    pub ranges: Vec<(u32, u32)>,
    /// The tasks on the cells.
    pub graph: Graph,
}

/// The tasks of a step on the blocks of its leaves. It keeps its own copies of what it answers, and shares the
/// kernel's tables, which its tasks read.
#[derive(Debug, Drop)]
pub struct Stage {
    plan: StagePlan,
    tables: Arc<Tables, Global>,
}

impl Model for Stage {
    ghost use Rattle.sph_step.specs.declared.stage.StagePlan.{StagePlan};
    ghost use Rattle.sph_step.specs.Stage.{IsStage};

    ghost Value = { StagePlan };

    ghost view = { λ s. s.plan };

    ghost invariant = { λ s. IsStage s.plan };
}

impl Stage {
    /// The stage of a plan, with the kernel's tables.
    pub(crate) fn new(plan: StagePlan, tables: Arc<Tables, Global>) -> Stage
        requires { IsStage plan }
        ensures { result ≡ plan }
    {
        Stage { plan, tables }
    }

    /// What the blocks start from.
    pub fn scene(&self) -> &Scene
        ensures value { result.now ≡ self.now.scene }
        ensures good { IsGoodScene result.now }
        ensures kept { IsStage self.now }
    {
        &self.plan.scene
    }

    /// The tasks on the cells.
    pub fn graph(&self) -> &Graph
        ensures { result.now ≡ self.now.graph }
    {
        &self.plan.graph
    }
}

impl Work for Stage {
    type Plan = StagePlan;

    type Block = Block;

    ghost plan = { λ stage. stage };

    ghost shape = { shape_of };

    ghost done = { done_of };

    ghost fits = { fits_in };

    fn cells(&self) -> u32 {
        self.plan.parents.len() as u32
    }

    fn parent(&self, cell: u32) -> Option<u32> {
        self.plan.parents[cell as usize]
    }

    fn leaves(&self) -> u32 {
        self.plan.scene.leaves.len() as u32
    }

    fn leaf_range(&self, cell: u32) -> (u32, u32) {
        self.plan.ranges[cell as usize]
    }

    fn tasks(&self) -> u32 {
        self.plan.graph.tasks()
    }

    fn cells_of(&self, task: u32) -> (u32, Option<u32>) {
        self.plan.graph.cells_of(task)
    }

    fn successors(&self, task: u32) -> &[u32] {
        self.plan.graph.successors(task)
    }

    fn waits(&self, task: u32) -> u32 {
        self.plan.graph.waits(task)
    }

    fn weight(&self, task: u32) -> u64 {
        self.plan.graph.weight(task)
    }

    fn apply(&self, task: u32, first: &mut [Block], second: &mut [Block]) {
        let scene = &self.plan.scene;
        let line = scene.tasks.as_slice()[task as usize];
        match line.second {
            None => apply_on_one(scene, &self.tables, line.kind, task, first),
            Some(_) => apply_on_two(scene, &self.tables, line.kind, task, first, second),
        }
    }
}
