//! Fetching the block of a leaf, and putting it back.
ghost use Rattle.std.specs.Prelude.{◌≡◌, ◌<◌, ◌∷◌, Contains, None, Some};
ghost use Rattle.atomic_table.specs.Table.{rest};
ghost use Rattle.qs_core.specs.Core.{leaf_place};
ghost use Rattle.qs_core.specs.Steps.{CanFetch, CanReturn};
ghost use Rattle.qs_table.specs.Leaves.{IsBrought, IsFetched};
ghost use Rattle.qs_table.specs.Seats.{IsSeatOf};
ghost use Rattle.qs_table.specs.Views.{knows_fetched, knows_returned, with_hand};
ghost use Rattle.qs_table.specs.inner.Plays.{seat_in};
ghost use Rattle.qs_table.specs.inner.Tokens.{Sits};

use crate::rule::{Fetches, LaysDown, Returns, TakesUp};
use crate::seat::{LockSeat, QsSeat};
use crate::table::ResTable;
use qs_core::Work;

impl<W: Work> ResTable<W> {
    /// The place of a leaf's word.
    fn leaf_word(&self, leaf: u32) -> usize
        requires { leaf < (W.shape self.now.plan).leaves }
        ensures { result ≡ leaf_place (W.shape self.now.plan) leaf }
    {
        1 + self.lines.cells() + leaf as usize
    }

    /// Fetches a leaf: its emptied slot is at hand.
    fn take_out(&self, seat: &mut LockSeat<W>, leaf: u32) -> W::Block
        requires sits { Sits self.now seat.old }
        requires hand { (seat_in seat.old.me.0).hand ≡ None }
        requires can { CanFetch (W.shape self.now.plan) (seat_in seat.old.me.0).holds leaf }
        ensures sits { Sits self.now seat.new }
        ensures fetched { IsFetched (W.shape self.now.plan) (W.fits self.now.plan) W.done (seat_in seat.old.me.0) leaf result }
        ensures knows { seat_in seat.new.me.0 ≡ knows_fetched (W.shape self.now.plan) (seat_in seat.old.me.0) leaf (W.done result) (Some leaf) }
        ensures slots { seat.new.me.1 ≡ (leaf, None) ∷ seat.old.me.1 }
    {
        let word = self.leaf_word(leaf);
        self.table.shared.swap::<Fetches<W>>(seat, word, 1);
        self.table
            .shared
            .exchange(seat, leaf as usize, None)
            .unwrap()
    }

    /// The emptied slot at hand goes back into the table.
    fn lay_down(&self, seat: &mut LockSeat<W>, leaf: u32)
        requires sits { Sits self.now seat.old }
        requires hand { (seat_in seat.old.me.0).hand ≡ Some leaf }
        requires leaf { leaf < (W.shape self.now.plan).leaves }
        requires out { Contains (seat_in seat.old.me.0).holds.out leaf }
        requires slot { seat.old.me.1 ≡ (leaf, None) ∷ rest seat.old.me.1 }
        ensures sits { Sits self.now seat.new }
        ensures knows { seat_in seat.new.me.0 ≡ with_hand (seat_in seat.old.me.0) None }
        ensures slots { seat.new.me.1 ≡ rest seat.old.me.1 }
    {
        let word = self.leaf_word(leaf);
        self.table.shared.load::<LaysDown<W>>(seat, word);
    }

    /// The emptied slot of a leaf that is out comes to hand.
    fn take_up(&self, seat: &mut LockSeat<W>, leaf: u32)
        requires sits { Sits self.now seat.old }
        requires hand { (seat_in seat.old.me.0).hand ≡ None }
        requires can { CanReturn (W.shape self.now.plan) (seat_in seat.old.me.0).holds leaf }
        ensures sits { Sits self.now seat.new }
        ensures knows { seat_in seat.new.me.0 ≡ with_hand (seat_in seat.old.me.0) (Some leaf) }
        ensures slots { seat.new.me.1 ≡ (leaf, None) ∷ seat.old.me.1 }
    {
        let word = self.leaf_word(leaf);
        self.table.shared.load::<TakesUp<W>>(seat, word);
    }

    /// Returns a leaf: the slot at hand gets the block, and goes back into the table.
    fn bring(&self, seat: &mut LockSeat<W>, leaf: u32, block: W::Block)
        requires sits { Sits self.now seat.old }
        requires hand { (seat_in seat.old.me.0).hand ≡ Some leaf }
        requires can { CanReturn (W.shape self.now.plan) (seat_in seat.old.me.0).holds leaf }
        requires brought { IsBrought (W.fits self.now.plan) W.done (seat_in seat.old.me.0) leaf block }
        requires slot { seat.old.me.1 ≡ (leaf, None) ∷ rest seat.old.me.1 }
        ensures sits { Sits self.now seat.new }
        ensures knows { seat_in seat.new.me.0 ≡ knows_returned (W.shape self.now.plan) (seat_in seat.old.me.0) leaf }
        ensures slots { seat.new.me.1 ≡ rest seat.old.me.1 }
    {
        let _empty = self.table.shared.exchange(seat, leaf as usize, Some(block));
        let word = self.leaf_word(leaf);
        self.table.shared.swap::<Returns<W>>(seat, word, 0);
    }

    /// Takes the block of a leaf out: it is the one last returned, and ready for the task that runs, where one does.
    pub fn fetch(&self, seat: &mut QsSeat<W>, leaf: u32) -> W::Block
        requires seat { IsSeatOf self.now seat.old }
        requires can { CanFetch (W.shape self.now.plan) seat.old.view.holds leaf }
        ensures seat { IsSeatOf self.now seat.new }
        ensures fetched { IsFetched (W.shape self.now.plan) (W.fits self.now.plan) W.done seat.old.view leaf result }
        ensures view { seat.new.view ≡ knows_fetched (W.shape self.now.plan) seat.old.view leaf (W.done result) None }
    {
        let block = self.take_out(&mut seat.seat, leaf);
        self.lay_down(&mut seat.seat, leaf);
        block
    }

    /// Brings the block of a leaf home, with the tasks that were done at its fetch and the one that runs, where one does.
    pub fn put_back(&self, seat: &mut QsSeat<W>, leaf: u32, block: W::Block)
        requires seat { IsSeatOf self.now seat.old }
        requires can { CanReturn (W.shape self.now.plan) seat.old.view.holds leaf }
        requires brought { IsBrought (W.fits self.now.plan) W.done seat.old.view leaf block }
        ensures seat { IsSeatOf self.now seat.new }
        ensures view { seat.new.view ≡ knows_returned (W.shape self.now.plan) seat.old.view leaf }
    {
        self.take_up(&mut seat.seat, leaf);
        self.bring(&mut seat.seat, leaf, block);
    }
}
