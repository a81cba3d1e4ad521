//! A trial of tasks: their cells are taken, and they are claimed.
ghost use Rattle.std.specs.Prelude.{◌≡◌, ◌<◌, None, length};
ghost use Rattle.qs_core.specs.Core.{empty_view};
ghost use Rattle.qs_table.specs.Seats.{IsSeatOf};
ghost use Rattle.qs_worker.specs.inner.Trials.{IsTrial, WasTried};

use crate::claimed::give_cells;
use qs_core::Work;
use qs_heap::Trial;
use qs_table::{Claim, QsSeat, ResTable, Try};
use std::marker::Model;
use std::snapshot::Snapshot;

/// Tries a task: where it gets the cells it claims it, and where it doesn't claim it, gives them back. The answer is whether it
/// was claimed.
pub(crate) fn try_one<W: Work>(
    work: &W,
    table: &ResTable<W>,
    seat: &mut QsSeat<W>,
    task: u32,
) -> bool
    requires work { W.plan work.now ≡ table.now.plan }
    requires seat { IsSeatOf table.now seat.old }
    requires rests { seat.old.view.holds ≡ empty_view }
    requires task { task < length (W.shape table.now.plan).tasks }
    ensures seat { IsSeatOf table.now seat.new }
    ensures tried { WasTried (W.shape table.now.plan) task seat.old.view result seat.new.view }
{
    match table.try_task(work, seat, task) {
        Try::Busy { .. } => return false,
        Try::Got => {}
    }
    match table.claim(seat, task) {
        Claim::Claimed => true,
        Claim::Waiting { .. } | Claim::Taken => {
            give_cells(work, table, seat, task);
            false
        }
    }
}

/// Tries tasks with a seat that is lent.
#[derive(Drop)]
pub(crate) struct TaskTrial<'a, W: Work> {
    work: &'a W,
    table: &'a ResTable<W>,
    seat: &'a mut QsSeat<W>,
    taken: Option<u32>,
    tries: u64,
    start: Snapshot<QsSeat<W>>,
}

impl<'a, W: Work> Model for TaskTrial<'a, W> {
    ghost use Rattle.qs_worker.specs.inner.Trials.{IsTrial, TrialView};

    ghost Value = { TrialView W.Plan };

    ghost view = { λ t. record {
      table = t.table.now;
      plan = W.plan t.work.now;
      start = t.start.value.view;
      now = t.seat.now;
      name = t.seat.ghost_name;
      taken = t.taken;
      tries = t.tries;
    } };

    ghost invariant = { λ t. IsTrial W.shape (record {
      table = t.table.now;
      plan = W.plan t.work.now;
      start = t.start.value.view;
      now = t.seat.now;
      name = t.seat.ghost_name;
      taken = t.taken;
      tries = t.tries;
    }) };
}

impl<'a, W: Work> TaskTrial<'a, W> {
    /// A trial that has tried nothing, with a seat that holds nothing.
    pub(crate) fn new(
        work: &'a W,
        table: &'a ResTable<W>,
        seat: &'a mut QsSeat<W>,
    ) -> TaskTrial<'a, W>
        requires work { W.plan work.now ≡ table.now.plan }
        requires seat { IsSeatOf table.now seat.old }
        requires rests { seat.old.view.holds ≡ empty_view }
        ensures name { result.name ≡ seat.entry.ghost_name }
        ensures start { (result.start ≡ seat.old.view) × (result.now ≡ seat.old) }
        ensures of { (result.table ≡ table.now) × (result.plan ≡ W.plan work.now) }
        ensures taken { result.taken ≡ None }
    {
        TaskTrial {
            work,
            table,
            start: Snapshot::of(&*seat),
            seat,
            taken: None,
            tries: 0,
        }
    }

    /// The seat that was lent.
    pub(crate) fn into_seat(self) -> &'a mut QsSeat<W>
        ensures name { result.ghost_name ≡ self.entry.name }
        ensures now { result.now ≡ self.entry.now }
        ensures tried { IsTrial W.shape self.entry }
    {
        let TaskTrial { seat, .. } = self;
        seat
    }
}

impl<'a, W: Work> Trial for TaskTrial<'a, W> {
    ghost use Rattle.std.specs.Prelude.{ℕ, length};
    ghost use Rattle.qs_table.specs.declared.view.SeatView.{SeatView};
    ghost use Rattle.qs_table.specs.Seats.{TableView};
    ghost use Rattle.qs_worker.specs.Refusals.{WasRefused};
    ghost use Rattle.qs_worker.specs.inner.Trials.{since};

    ghost Origin = { SeatView × TableView W.Plan × W.Plan × ℕ };

    ghost taken = { λ t. t.taken };

    ghost refused = { λ t task. WasRefused (W.shape t.table.plan) (since t.start.notes t.now.view.notes) task };

    ghost tries = { λ t. t.tries };

    ghost limit = { λ t. length (W.shape t.table.plan).tasks };

    ghost origin = { λ t. (t.start, t.table, t.plan, t.name) };

    fn try_take(&mut self, task: u32) -> bool {
        self.tries = self.tries.wrapping_add(1);
        if !try_one(self.work, self.table, self.seat, task) {
            return false;
        }
        self.taken = Some(task);
        true
    }
}
