//! What a block tells, and the mark of a task that is done.
ghost use Rattle.std.specs.Prelude.{◌≡◌, ◌<◌, ◌&&◌, ◌==◌, Contains, MatchBool, slice_index, vec_len};
ghost use Rattle.std.specs.List.{list_any};
ghost use Rattle.cell_block.specs.Blocks.{done_of};
ghost use Rattle.cell_block.specs.Reading.{IsWhole, member_of, place_of_member, tasks_of};
ghost use Rattle.cell_block.specs.Tasks.{IsMarked};

use crate::rows::{BlockRows, Mark};
use sph_num::Particle;

impl BlockRows {
    /// Whether the task is done on the block.
    pub fn is_done(&self, task: u32) -> bool
        ensures { MatchBool result (Contains (done_of self.now) task) (Contains (done_of self.now) task → ⊥) }
    {
        is_marked(&self.marks, task)
    }

    /// How many members the leaf has.
    pub fn len(&self) -> usize
        ensures { result ≡ vec_len self.now.members }
    {
        self.members.len()
    }

    /// The index of the member at a place from 0.
    pub fn index(&self, i: usize) -> u32
        requires { i < vec_len self.now.members }
        ensures { result ≡ slice_index self.now.members.items i }
    {
        self.members[i]
    }

    /// The member at a place from 0, with its density, its ghost and its force.
    pub fn particle(&self, i: usize) -> Particle
        requires whole { IsWhole self.now }
        requires within { i < vec_len self.now.members }
        ensures { result ≡ member_of self.now i }
    {
        self.moving[i].with_sums(self.rhos[i], self.pulls[i].g(), self.forces[i])
    }

    /// Where the member at a place from 0 stands, in length units.
    pub fn place(&self, i: usize) -> [u32; 3]
        requires whole { IsWhole self.now }
        requires within { i < vec_len self.now.members }
        ensures { result ≡ place_of_member self.now i }
    {
        self.spots[i].place
    }

    /// Marks a task as done.
    pub fn mark(&mut self, task: u32)
        requires { Contains (tasks_of self.old) task }
        ensures { IsMarked task self.old self.new }
    {
        for mark in self.marks.iter_mut() {
            if mark.task == task {
                mark.done = true;
            }
        }
    }
}

/// Whether the mark of a task is set.
fn is_marked(marks: &[Mark], task: u32) -> bool
    ensures { result ≡ list_any (λ m. m.done && m.task == task) marks.now }
{
    marks.iter().any(|mark| mark.done && mark.task == task)
}
