//! Claiming a task, and releasing the tasks that wait for it.
ghost use Rattle.std.specs.Prelude.{◌≡◌, ◌≢◌, ◌≤◌, ◌<◌, ◌+◌, ◌++◌, ℕ, [], All, count_by, length, vec_capacity, Some};
ghost use Rattle.std.specs.Option.{option_to_list};
ghost use Rattle.qs_core.specs.declared.event.Step.TheVariants as Step;
ghost use Rattle.qs_core.specs.Core.{Running, task_place};
ghost use Rattle.qs_core.specs.Steps.{CanClaim, CanRelease, next_successor};
ghost use Rattle.qs_table.specs.Claims.{Answered, IsOver, freed_if};
ghost use Rattle.qs_table.specs.Notes.{claims_task, frees_task};
ghost use Rattle.qs_table.specs.Seats.{IsSeatOf};
ghost use Rattle.qs_table.specs.Views.{knows_after};
ghost use Rattle.qs_table.specs.inner.Plays.{IsTaskWord, seat_in};
ghost use Rattle.qs_table.specs.inner.Tokens.{Sits};

use crate::answers::Claim;
use crate::rule::{Claims, Releases};
use crate::seat::{LockSeat, QsSeat};
use crate::table::ResTable;
use qs_core::{CLAIMED, Work};

/// Appends a task where its word was 1.
fn push_freed(ready: &mut Vec<u32>, task: u32, seen: u64)
    requires { length ready.old.items < vec_capacity ready.old }
    ensures pushed { ready.new.items ≡ ready.old.items ++ option_to_list (freed_if task seen) }
    ensures kept { vec_capacity ready.new ≡ vec_capacity ready.old }
{
    if seen == 1 {
        ready.push_reserved(task);
    }
}

impl<W: Work> ResTable<W> {
    /// The place of a task's word.
    fn task_word(&self, task: u32) -> usize
        requires { task < length (W.shape self.now.plan).tasks }
        ensures { result ≡ task_place (W.shape self.now.plan) task }
    {
        1 + self.lines.cells() + self.table.slot_count() + task as usize
    }

    /// Claims a task where its word is 0.
    fn ask(&self, seat: &mut LockSeat<W>, task: u32) -> u64
        requires sits { Sits self.now seat.old }
        requires can { CanClaim (W.shape self.now.plan) (seat_in seat.old.me.0).holds task }
        ensures sits { Sits self.now seat.new }
        ensures knows { seat_in seat.new.me.0 ≡ knows_after (W.shape self.now.plan) (seat_in seat.old.me.0) (Step.Claim task) result }
        ensures slots { seat.new.me.1 ≡ seat.old.me.1 }
        ensures word { IsTaskWord (W.shape self.now.plan) result }
        ensures once { (t : ℕ) → count_by (claims_task t) (seat_in seat.new.me.0).notes ≤ 1 }
    {
        let word = self.task_word(task);
        self.table
            .shared
            .compare_exchange::<Claims<W>>(seat, word, 0, CLAIMED)
    }

    /// Releases the next successor.
    fn release_next(&self, seat: &mut LockSeat<W>, task: u32) -> u64
        requires sits { Sits self.now seat.old }
        requires can { CanRelease (seat_in seat.old.me.0).holds }
        requires next { task ≡ next_successor (seat_in seat.old.me.0).holds.running }
        requires within { task < length (W.shape self.now.plan).tasks }
        ensures sits { Sits self.now seat.new }
        ensures knows { seat_in seat.new.me.0 ≡ knows_after (W.shape self.now.plan) (seat_in seat.old.me.0) Step.Release result }
        ensures slots { seat.new.me.1 ≡ seat.old.me.1 }
        ensures once { (t : ℕ) → count_by (frees_task t) (seat_in seat.new.me.0).notes ≤ 1 }
    {
        let word = self.task_word(task);
        self.table.shared.fetch_sub::<Releases<W>>(seat, word, 1)
    }

    /// Releases all successors of the task that runs.
    fn finish(&self, seat: &mut LockSeat<W>, successors: &[u32], ready: &mut Vec<u32>)
        requires sits { Sits self.now seat.old }
        requires runs { (task : ℕ) × ((seat_in seat.old.me.0).holds.running ≡ Some (record { task = task; leaves = []; successors = successors.now })) }
        requires some { successors.now ≢ [] }
        requires within { All (λ after. after < length (W.shape self.now.plan).tasks) successors.now }
        requires room { length ready.old.items + length successors.now ≤ vec_capacity ready.old }
        ensures sits { Sits self.now seat.new }
        ensures over { IsOver successors.now (seat_in seat.old.me.0) (seat_in seat.new.me.0) ready.old.items ready.new.items }
        ensures slots { seat.new.me.1 ≡ seat.old.me.1 }
        ensures once { (t : ℕ) → count_by (frees_task t) (seat_in seat.new.me.0).notes ≤ 1 }
        ensures room { vec_capacity ready.new ≡ vec_capacity ready.old }
    {
        for k in 0..successors.len() {
            let after = successors[k];
            let seen = self.release_next(seat, after);
            push_freed(ready, after, seen);
        }
    }

    /// Claims a task whose cells the seat owns: where it is claimed, it runs.
    pub fn claim(&self, seat: &mut QsSeat<W>, task: u32) -> Claim
        requires seat { IsSeatOf self.now seat.old }
        requires can { CanClaim (W.shape self.now.plan) seat.old.view.holds task }
        ensures seat { IsSeatOf self.now seat.new }
        ensures answered { Answered (W.shape self.now.plan) task seat.old.view result seat.new.view }
        ensures once { (t : ℕ) → count_by (claims_task t) seat.new.view.notes ≤ 1 }
    {
        let seen = self.ask(&mut seat.seat, task);
        if seen == 0 {
            seat.task = task;
            return Claim::Claimed;
        }
        if seen == CLAIMED {
            return Claim::Taken;
        }
        Claim::Waiting { seen }
    }

    /// Releases the tasks that wait for the one that runs, which is over then: those that wait for no other come to the end of
    /// the list. A task for which none waits is over at its last return.
    pub fn release(&self, work: &W, seat: &mut QsSeat<W>, ready: &mut Vec<u32>)
        requires work { W.plan work.now ≡ self.now.plan }
        requires seat { IsSeatOf self.now seat.old }
        requires can { CanRelease seat.old.view.holds }
        requires room { (running : Running) → seat.old.view.holds.running ≡ Some running → length ready.old.items + length running.successors ≤ vec_capacity ready.old }
        ensures seat { IsSeatOf self.now seat.new }
        ensures over { (running : Running) → seat.old.view.holds.running ≡ Some running → IsOver running.successors seat.old.view seat.new.view ready.old.items ready.new.items }
        ensures once { (t : ℕ) → count_by (frees_task t) seat.new.view.notes ≤ 1 }
        ensures room { vec_capacity ready.new ≡ vec_capacity ready.old }
    {
        // This call says that the work keeps its laws.
        let _cells = work.cells();
        let successors = work.successors(seat.task);
        self.finish(&mut seat.seat, successors, ready);
    }
}
