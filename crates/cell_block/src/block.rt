//! A block behind one pointer.
ghost use Rattle.std.specs.Prelude.{◌≡◌, ◌<◌, [], length, IfOk};
ghost use Rattle.std.specs.Borrow.{Lends, sem};
ghost use Rattle.cell_block.specs.Blocks.{Agrees, done_of, tasks_at};
ghost use Rattle.cell_block.specs.Scene.{IsGoodScene};
ghost use Rattle.cell_block.specs.contracts.rows.BlockRows.{the_row as block_row};
ghost use Rattle.cell_block.specs.contracts.block.Block.{the_row};

use crate::beginning;
use crate::rows::BlockRows;
use crate::scene::Scene;
use std::alloc::{AllocError, Global};
use std::marker::Model;
use std::ops::{Deref, DerefMut};

/// A block behind one pointer, so that it is moved as cheaply as a number. Contracts see it as its rows.
#[derive(Debug, Drop)]
pub struct Block {
    block: Box<BlockRows>,
}

impl Model for Block {
    ghost use Rattle.cell_block.specs.declared.rows.BlockRows.{BlockRows};

    ghost Value = { BlockRows };

    ghost view = { λ boxed. boxed.block.value };
}

impl Block {
    /// The leaf's particles before any task is done on it. Where the scene asks no drift they stand at their
    /// places at the tick, else at those of their last kicks. The error is want of memory.
    pub fn make(alloc: Global, scene: &Scene, leaf: u32) -> Result<Block, AllocError>
        requires scene { IsGoodScene scene.now }
        requires leaf { leaf < length scene.now.leaves }
        ensures { IfOk result (λ block. Agrees scene.now leaf block × (done_of block ≡ [])) }
    {
        let tasks = beginning::tasks_at(alloc, scene, leaf)?;
        Block::with_tasks(alloc, scene, leaf, &tasks)
    }

    /// As `make`, with the tasks that touch the leaf at hand.
    pub fn with_tasks(
        alloc: Global,
        scene: &Scene,
        leaf: u32,
        tasks: &[u32],
    ) -> Result<Block, AllocError>
        requires scene { IsGoodScene scene.now }
        requires leaf { leaf < length scene.now.leaves }
        requires tasks { tasks.now ≡ tasks_at scene.now leaf }
        ensures { IfOk result (λ block. Agrees scene.now leaf block × (done_of block ≡ [])) }
    {
        let rows = BlockRows::with_tasks(alloc, scene, leaf, tasks)?;
        Block::new(alloc, rows)
    }

    /// Puts the rows of a leaf behind a pointer.
    fn new(alloc: Global, block: BlockRows) -> Result<Block, AllocError>
        ensures { IfOk result (λ made. made ≡ block) }
    {
        let block = Box::new(alloc, block)?;
        Ok(Block { block })
    }
}

impl Deref for Block {
    type Target = BlockRows;

    ghost deref_gives = { λ boxed block. block ≡ boxed };

    #[inline]
    fn deref(&self) -> &BlockRows
        ensures { result.now ≡ self.now }
    {
        &self.block
    }
}

impl DerefMut for Block {
    ghost deref_mut_gives = { λ boxed block. block ≡ boxed };

    #[inline]
    fn deref_mut(&mut self) -> &mut BlockRows
        ensures value { result.now ≡ self.old }
        ensures* writes_back { sem 𝓛 (Lends the_row block_row self.entry result (λ block. block)) }
    {
        &mut self.block
    }
}
