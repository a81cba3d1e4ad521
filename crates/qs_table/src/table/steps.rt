//! The steps on the words of cells.
ghost use Rattle.std.specs.Prelude.{◌≡◌, ◌<◌, length};
ghost use Rattle.qs_core.specs.Steps.{CanLock, CanLower, CanRaise, CanUnlock, object_of};
ghost use Rattle.qs_core.specs.declared.event.Step.TheVariants.{Lock, Lower, Raise, Unlock};
ghost use Rattle.qs_table.specs.Views.{knows_after};
ghost use Rattle.qs_table.specs.inner.Plays.{seat_in};
ghost use Rattle.qs_table.specs.inner.Tokens.{Sits};

use crate::rule::{Locks, Lowers, Raises, Unlocks};
use crate::seat::LockSeat;
use crate::table::ResTable;
use qs_core::Work;

impl<W: Work> ResTable<W> {
    /// Locks a cell where its word is 0.
    pub(super) fn lock(&self, seat: &mut LockSeat<W>, cell: u32) -> u64
        requires sits { Sits self.now seat.old }
        requires can { CanLock (W.shape self.now.plan) (seat_in seat.old.me.0).holds cell }
        ensures sits { Sits self.now seat.new }
        ensures knows { seat_in seat.new.me.0 ≡ knows_after (W.shape self.now.plan) (seat_in seat.old.me.0) (Lock cell) result }
        ensures slots { seat.new.me.1 ≡ seat.old.me.1 }
    {
        self.table
            .shared
            .compare_exchange::<Locks<W>>(seat, 1 + cell as usize, 0, 1)
    }

    /// Raises the next ancestor.
    pub(super) fn raise(&self, seat: &mut LockSeat<W>, above: u32) -> u64
        requires sits { Sits self.now seat.old }
        requires can { CanRaise (W.shape self.now.plan) (seat_in seat.old.me.0).holds }
        requires object { above ≡ object_of (W.shape self.now.plan) (seat_in seat.old.me.0).holds Raise }
        requires within { above < length (W.shape self.now.plan).parents }
        ensures sits { Sits self.now seat.new }
        ensures knows { seat_in seat.new.me.0 ≡ knows_after (W.shape self.now.plan) (seat_in seat.old.me.0) Raise result }
        ensures slots { seat.new.me.1 ≡ seat.old.me.1 }
    {
        self.table
            .shared
            .fetch_add::<Raises<W>>(seat, 1 + above as usize, 2)
    }

    /// Lowers the ancestor that was raised last.
    pub(super) fn lower(&self, seat: &mut LockSeat<W>, above: u32) -> u64
        requires sits { Sits self.now seat.old }
        requires can { CanLower (seat_in seat.old.me.0).holds }
        requires object { above ≡ object_of (W.shape self.now.plan) (seat_in seat.old.me.0).holds Lower }
        requires within { above < length (W.shape self.now.plan).parents }
        ensures sits { Sits self.now seat.new }
        ensures knows { seat_in seat.new.me.0 ≡ knows_after (W.shape self.now.plan) (seat_in seat.old.me.0) Lower result }
        ensures slots { seat.new.me.1 ≡ seat.old.me.1 }
    {
        self.table
            .shared
            .fetch_sub::<Lowers<W>>(seat, 1 + above as usize, 2)
    }

    /// Unlocks the cell.
    pub(super) fn unlock(&self, seat: &mut LockSeat<W>, cell: u32) -> u64
        requires sits { Sits self.now seat.old }
        requires can { CanUnlock (seat_in seat.old.me.0).holds }
        requires object { cell ≡ object_of (W.shape self.now.plan) (seat_in seat.old.me.0).holds Unlock }
        requires within { cell < length (W.shape self.now.plan).parents }
        ensures sits { Sits self.now seat.new }
        ensures knows { seat_in seat.new.me.0 ≡ knows_after (W.shape self.now.plan) (seat_in seat.old.me.0) Unlock result }
        ensures slots { seat.new.me.1 ≡ seat.old.me.1 }
    {
        self.table
            .shared
            .fetch_sub::<Unlocks<W>>(seat, 1 + cell as usize, 1)
    }
}
