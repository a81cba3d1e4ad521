//! Taking cells, and giving them back.
ghost use Rattle.std.specs.Prelude.{◌≡◌, ◌++◌, ◌∷◌, [], ◌≤◌, ◌<◌, All, length};
ghost use Rattle.qs_core.specs.Shape.{ancestors};
ghost use Rattle.qs_core.specs.Steps.{CanLock};
ghost use Rattle.qs_table.specs.Notes.{locks_in};
ghost use Rattle.qs_table.specs.Seats.{CanGive, IsIdle, IsSeatOf};
ghost use Rattle.qs_table.specs.Tries.{Gave, Tried, TriedInOrder, TriedTask};
ghost use Rattle.qs_table.specs.inner.Plays.{seat_in};
ghost use Rattle.qs_table.specs.inner.Tokens.{HasNewest, Sits};

use crate::answers::Try;
use crate::seat::{LockSeat, QsSeat};
use crate::table::ResTable;
use qs_core::Work;

impl<W: Work> ResTable<W> {
    /// Gives the newest cell back: its raised ancestors are lowered from the last to the first, then it is unlocked.
    fn give(&self, seat: &mut LockSeat<W>, cell: u32, line: &[u32], raises: usize)
        requires sits { Sits self.now seat.old }
        requires line { line.now ≡ ancestors (W.shape self.now.plan) cell }
        requires newest { HasNewest (seat_in seat.old.me.0).holds cell raises }
        requires within { (cell < length (W.shape self.now.plan).parents) × (raises ≤ length line.now) }
        requires cells { All (λ above. above < length (W.shape self.now.plan).parents) line.now }
        requires can { CanGive (seat_in seat.old.me.0).holds }
        ensures sits { Sits self.now seat.new }
        ensures gave { Gave (seat_in seat.old.me.0) (seat_in seat.new.me.0) }
        ensures slots { seat.new.me.1 ≡ seat.old.me.1 }
    {
        for k in (0..raises).rev() {
            self.lower(seat, line[k]);
        }
        self.unlock(seat, cell);
    }

    /// Tries to take a cell: locks it, then raises its ancestors, until one is found locked.
    fn take(&self, seat: &mut LockSeat<W>, cell: u32) -> Try
        requires sits { Sits self.now seat.old }
        requires can { CanLock (W.shape self.now.plan) (seat_in seat.old.me.0).holds cell }
        ensures sits { Sits self.now seat.new }
        ensures tried { Tried (W.shape self.now.plan) cell (seat_in seat.old.me.0) result (seat_in seat.new.me.0) }
        ensures slots { seat.new.me.1 ≡ seat.old.me.1 }
        ensures one_lock { locks_in (seat_in seat.new.me.0).notes ≡ locks_in (seat_in seat.old.me.0).notes ++ cell ∷ [] }
    {
        let found = self.lock(seat, cell);
        if found != 0 {
            return Try::Busy { cell, seen: found };
        }
        let line = self.line(cell);
        for k in 0..line.len() {
            let above = line[k];
            let seen = self.raise(seat, above);
            if seen % 2 == 1 {
                self.give(seat, cell, line, k + 1);
                return Try::Busy { cell: above, seen };
            }
        }
        Try::Got
    }

    /// The proper ancestors of a cell, parent first.
    fn line(&self, cell: u32) -> &[u32]
        requires { cell < length (W.shape self.now.plan).parents }
        ensures line { result.now ≡ ancestors (W.shape self.now.plan) cell }
        ensures cells { All (λ above. above < length (W.shape self.now.plan).parents) result.now }
    {
        self.lines.above(cell)
    }

    /// Tries to take a cell.
    pub fn try_cell(&self, seat: &mut QsSeat<W>, cell: u32) -> Try
        requires seat { IsSeatOf self.now seat.old }
        requires can { CanLock (W.shape self.now.plan) seat.old.view.holds cell }
        ensures seat { IsSeatOf self.now seat.new }
        ensures tried { Tried (W.shape self.now.plan) cell seat.old.view result seat.new.view }
        ensures one_lock { locks_in seat.new.view.notes ≡ locks_in seat.old.view.notes ++ cell ∷ [] }
    {
        let answer = self.take(&mut seat.seat, cell);
        match answer {
            Try::Got => seat.cells = seat.cells.with(cell),
            Try::Busy { .. } => {}
        }
        answer
    }

    /// Tries to take all cells of a task, the first and then the second.
    pub fn try_task(&self, work: &W, seat: &mut QsSeat<W>, task: u32) -> Try
        requires work { W.plan work.now ≡ self.now.plan }
        requires seat { IsSeatOf self.now seat.old }
        requires task { task < length (W.shape self.now.plan).tasks }
        requires idle { IsIdle seat.old.view.holds }
        ensures seat { IsSeatOf self.now seat.new }
        ensures tried { TriedTask (W.shape self.now.plan) task seat.old.view result seat.new.view }
        ensures locks { TriedInOrder (W.shape self.now.plan) task seat.old.view.notes seat.new.view.notes }
    {
        // These calls say that the work keeps its laws, and that a seat without cells has no leaf out.
        let _cells = work.cells();
        seat.shows_none_out();
        let (first, second) = work.cells_of(task);
        let answer = self.try_cell(seat, first);
        match answer {
            Try::Busy { .. } => return answer,
            Try::Got => {}
        }
        let Some(second) = second else {
            return Try::Got;
        };
        let answer = self.try_cell(seat, second);
        match answer {
            Try::Busy { .. } => self.give_cell(seat),
            Try::Got => {}
        }
        answer
    }

    /// Gives the cell back that the seat got last.
    pub fn give_cell(&self, seat: &mut QsSeat<W>)
        requires seat { IsSeatOf self.now seat.old }
        requires can { CanGive seat.old.view.holds }
        ensures seat { IsSeatOf self.now seat.new }
        ensures gave { Gave seat.old.view seat.new.view }
    {
        let cell = seat.cells.newest();
        let line = self.line(cell);
        self.give(&mut seat.seat, cell, line, line.len());
        seat.cells = seat.cells.without_newest();
    }
}
