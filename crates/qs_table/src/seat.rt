//! The token of one caller.
ghost use Rattle.std.specs.Prelude.{◌≡◌, ◌<◌, ◌∷◌, [], length, slice_index, Some};
ghost use Rattle.qs_core.specs.Steps.{rest};
ghost use Rattle.qs_table.specs.Seats.{IsIdle};
ghost use Rattle.qs_table.specs.Views.{alone, fresh_seat};
ghost use Rattle.qs_table.specs.inner.Plays.{seat_in};
ghost use Rattle.qs_table.specs.inner.Tokens.{HoldsNone, cells_of};

use crate::rule::{About, LockRule};
use crate::view::Bundle;
use atomic_table::{Seat, Shared};
use qs_core::Work;
use std::marker::Model;

/// The shared words of a work, with a slot for each block.
pub(crate) type LockShared<W> = Shared<
    Option<<W as Work>::Block>,
    Bundle<<W as Work>::Plan>,
    About<W>,
    LockRule<W>,
>;

/// A seat at them.
pub(crate) type LockSeat<W> = Seat<Option<<W as Work>::Block>, Bundle<<W as Work>::Plan>>;

/// The cells that a seat owns.
#[derive(Clone, Copy)]
pub(crate) enum Cells {
    Empty,
    One(u32),
    Two { newest: u32, older: u32 },
}

impl Cells {
    /// With a cell more.
    pub(crate) fn with(self, cell: u32) -> Cells
        requires { length (cells_of self) < 2 }
        ensures { cells_of result ≡ cell ∷ cells_of self }
    {
        match self {
            Cells::Empty => Cells::One(cell),
            Cells::One(older) => Cells::Two {
                newest: cell,
                older,
            },
            Cells::Two { .. } => unreachable!(),
        }
    }

    /// The newest cell: 0 where there is none.
    pub(crate) fn newest(self) -> u32
        ensures { result ≡ slice_index (cells_of self) 0 }
    {
        match self {
            Cells::Empty => 0,
            Cells::One(newest) | Cells::Two { newest, .. } => newest,
        }
    }

    /// Without the newest.
    pub(crate) fn without_newest(self) -> Cells
        ensures { cells_of result ≡ rest (cells_of self) }
    {
        match self {
            Cells::Empty | Cells::One(_) => Cells::Empty,
            Cells::Two { older, .. } => Cells::One(older),
        }
    }
}

/// The token of one caller: it steps with it, and what the steps teach stands in the proofs.
#[derive(Drop)]
pub struct QsSeat<W: Work> {
    pub(crate) seat: LockSeat<W>,
    pub(crate) cells: Cells,
    // The task that runs, where one does.
    pub(crate) task: u32,
}

impl<W: Work> Model for QsSeat<W> {
    ghost use Rattle.qs_table.specs.Seats.{TokenView};
    ghost use Rattle.qs_table.specs.inner.Plays.{seat_in};
    ghost use Rattle.qs_table.specs.inner.Tokens.{IsToken};

    ghost Value = { TokenView W.Plan };

    ghost view = { λ s. record { id = s.seat.table_id; plan = s.seat.me.0.plan; view = seat_in s.seat.me.0 } };

    ghost invariant = { λ s. IsToken W.shape s.seat.me s.cells s.task };
}

impl<W: Work> QsSeat<W> {
    /// The token of a seat that has made no step.
    pub(crate) fn of(seat: LockSeat<W>) -> QsSeat<W>
        requires fresh { (plan : W.Plan) × (seat.me.0 ≡ alone plan (fresh_seat (seat_in seat.me.0).place)) }
        requires slots { seat.me.1 ≡ [] }
        ensures { result ≡ record { id = seat.table_id; plan = seat.me.0.plan; view = seat_in seat.me.0 } }
    {
        QsSeat {
            seat,
            cells: Cells::Empty,
            task: 0,
        }
    }

    /// A seat that owns nothing has no leaf out.
    pub fn shows_none_out(&self)
        requires { self.now.view.holds.chains ≡ [] }
        ensures { self.now.view.holds.out ≡ [] }
    {
        let _cells = self.cells;
    }

    /// The seat of a token that owns nothing and runs nothing.
    pub(crate) fn into_seat(self) -> LockSeat<W>
        requires idle { IsIdle self.view.holds }
        ensures table { result.table_id ≡ self.id }
        ensures alone { (plan : W.Plan) × (self.plan ≡ Some plan) × (result.me ≡ (alone plan self.view, [])) }
        ensures empty { HoldsNone self.view }
    {
        let QsSeat {
            seat,
            cells: _,
            task: _,
        } = self;
        seat
    }
}
