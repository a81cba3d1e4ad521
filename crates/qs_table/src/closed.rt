//! A table at its end.
ghost use Rattle.std.specs.Prelude.{◌≡◌, ◌<◌, ◌↔◌, length, IsTrue};
ghost use Rattle.std.specs.List.{refill};
ghost use Rattle.std.specs.Borrow.{Array, Lends, sem};
ghost use Rattle.qs_table.specs.Blocks.{IsTaken};
ghost use Rattle.qs_table.specs.contracts.closed.Closed.{the_row};

use crate::table::ResTable;
use qs_core::{CLAIMED, Work};
use std::marker::Model;
use std::snapshot::Snapshot;

/// The blocks of a table that is closed, and which tasks were claimed.
#[derive(Drop)]
pub struct Closed<W: Work> {
    pub(crate) table: Snapshot<ResTable<W>>,
    // The place of the first task's word.
    pub(crate) first_task: usize,
    pub(crate) words: Vec<u64>,
    pub(crate) blocks: Vec<W::Block>,
}

impl<W: Work> Model for Closed<W> {
    ghost use Rattle.std.specs.Prelude.{◌≡◌, length};
    ghost use Rattle.qs_core.specs.Core.{task_place, word_count};
    ghost use Rattle.qs_table.specs.Blocks.{ClosedView};

    ghost Value = { ClosedView W.Block };

    ghost view = { λ c. record { shape = W.shape c.table.value.plan; words = c.words.items; blocks = c.blocks.items } };

    ghost invariant = { λ c. (c.first_task ≡ task_place (W.shape c.table.value.plan) 0) × (length c.words.items ≡ word_count (W.shape c.table.value.plan)) };
}

impl<W: Work> Closed<W> {
    /// Whether a task was claimed.
    pub fn claimed(&self, task: u32) -> bool
        requires { task < length self.now.shape.tasks }
        ensures { IsTrue result ↔ IsTaken self.now.shape self.now.words task }
    {
        self.words[self.first_task + task as usize] == CLAIMED
    }

    /// The blocks, in the order of the leaves: what is written through them changes no answer of `claimed`.
    pub fn blocks_mut(&mut self) -> &mut [W::Block]
        ensures value { result.now ≡ self.old.blocks }
        ensures* writes_back { sem 𝓛 (Lends (the_row W.row W.Plan.row W.Block.row W.Work) (Array W.Block.row 0) self.entry result (λ ws. record self.old { blocks = refill (length self.old.blocks) self.old.blocks ws })) }
    {
        self.blocks.as_mut_slice()
    }

    /// The blocks, in the order of the leaves.
    pub fn into_blocks(self) -> Vec<W::Block>
        ensures { result.items ≡ self.blocks }
    {
        let Closed {
            table: _,
            first_task: _,
            words: _,
            blocks,
        } = self;
        blocks
    }
}
