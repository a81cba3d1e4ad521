//! Seats are dealt at a table's making, gathered at its end, and looked at two at a time.
ghost use Rattle.std.specs.Prelude.{◌≡◌, ◌≤◌, ◌<◌, ℕ, [], All, length, sum_by, vec_capacity};
ghost use Rattle.qs_table.specs.declared.view.SeatView.{SeatView};
ghost use Rattle.qs_table.specs.Laws.{IsAlwaysApart};
ghost use Rattle.qs_table.specs.Seats.{IsIdleSeat, IsNewSeat, IsSeatOf, OwnApart, views_of};
ghost use Rattle.qs_table.specs.Views.{all_seats};
ghost use Rattle.qs_table.specs.inner.Plays.{first_alone, pair, together, without_first};
ghost use Rattle.qs_table.specs.inner.Tokens.{HoldsNone};

use crate::rule::{First, Looks, Whole};
use crate::seat::{LockSeat, QsSeat};
use crate::table::ResTable;
use qs_core::Work;

impl<W: Work> ResTable<W> {
    /// Leaves the first seat, and gives the others.
    fn split(&self, seat: &mut LockSeat<W>) -> LockSeat<W>
        requires { seat.old.table_id ≡ self.now.id }
        ensures first { (seat.new.table_id ≡ self.now.id) × (seat.new.me ≡ (first_alone seat.old.me.0, seat.old.me.1)) }
        ensures others { (result.table_id ≡ self.now.id) × (result.me ≡ (without_first seat.old.me.0, [])) }
    {
        self.table.shared.split_seat::<First>(seat)
    }

    /// Adds the seats of another bundle, which holds no slot.
    fn join(&self, seat: &mut LockSeat<W>, other: LockSeat<W>)
        requires same { (seat.old.table_id ≡ self.now.id) × (other.table_id ≡ self.now.id) }
        requires slots { other.me.1 ≡ [] }
        ensures { (seat.new.table_id ≡ self.now.id) × (seat.new.me ≡ (together seat.old.me.0 other.me.0, seat.old.me.1)) }
    {
        self.table.shared.join_seat::<Whole>(seat, other);
    }

    /// Looks at two seats: what they own is apart.
    fn meet(&self, seat: &mut LockSeat<W>)
        requires same { seat.old.table_id ≡ self.now.id }
        requires two { (v : SeatView) × (w : SeatView) × (seat.old.me.0 ≡ pair self.now.plan v w) }
        ensures same { (seat.new.table_id ≡ self.now.id) × (seat.new.me ≡ seat.old.me) }
        ensures apart { (v w : SeatView) → seat.old.me.0 ≡ pair self.now.plan v w → OwnApart (W.shape self.now.plan) v.holds w.holds }
    {
        self.table.shared.load::<Looks<W>>(seat, 0);
    }

    /// Deals all seats, a token for each.
    pub(super) fn deal(&self, all: LockSeat<W>, seats: u32, tokens: &mut Vec<QsSeat<W>>)
        requires same { all.table_id ≡ self.now.id }
        requires fresh { all.me ≡ (all_seats self.now.plan seats, []) }
        requires some { 0 < seats }
        requires room { (tokens.old.items ≡ []) × (seats ≤ vec_capacity tokens.old) }
        ensures count { length tokens.new.items ≡ seats }
        ensures each { All (λ s. IsNewSeat self.now s) tokens.new.items }
    {
        let mut first = all;
        for _dealt in 1..seats {
            let others = self.split(&mut first);
            tokens.push_reserved(QsSeat::of(first));
            first = others;
        }
        tokens.push_reserved(QsSeat::of(first));
    }

    /// Gathers seats that own and run nothing into one bundle.
    pub(super) fn gather(&self, mut seats: Vec<QsSeat<W>>) -> LockSeat<W>
        requires each { All (λ s. IsIdleSeat self.now s) seats.items }
        requires some { 0 < length seats.items }
        ensures table { result.table_id ≡ self.now.id }
        ensures all { (f : SeatView → ℕ) → sum_by f result.me.0.seats ≡ sum_by f (views_of seats.items) }
        ensures empty { All HoldsNone result.me.0.seats }
    {
        let mut whole = seats.pop().unwrap().into_seat();
        while let Some(seat) = seats.pop() {
            self.join(&mut whole, seat.into_seat());
        }
        whole
    }

    /// Does nothing: its contract is the law that at no moment, whoever steps or asks, two seats of the table own cells of
    /// which one contains the other.
    pub fn always_apart(&self)
        ensures { IsAlwaysApart W.Plan (W.shape self.now.plan) (W.fits self.now.plan) W.done self.now.seats }
    {}

    /// No two seats own cells of which one contains the other: of these two it is said here. Nothing changes.
    pub fn own_apart(&self, first: QsSeat<W>, second: QsSeat<W>) -> (QsSeat<W>, QsSeat<W>)
        requires first { IsSeatOf self.now first }
        requires second { IsSeatOf self.now second }
        ensures same { (result.0 ≡ first) × (result.1 ≡ second) }
        ensures apart { OwnApart (W.shape self.now.plan) first.view.holds second.view.holds }
    {
        let QsSeat {
            seat: mut both,
            cells: firsts,
            task: first_task,
        } = first;
        let QsSeat {
            seat,
            cells: seconds,
            task: second_task,
        } = second;
        self.join(&mut both, seat);
        self.meet(&mut both);
        let seat = self.split(&mut both);
        (
            QsSeat {
                seat: both,
                cells: firsts,
                task: first_task,
            },
            QsSeat {
                seat,
                cells: seconds,
                task: second_task,
            },
        )
    }
}
