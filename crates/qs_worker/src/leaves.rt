//! The blocks of a range of leaves: they are fetched, and put back.
ghost use Rattle.std.specs.Prelude.{◌≡◌, ◌+◌, ◌^◌, ◌<◌, ◌≤◌, ℕ, [], List, length, vec_capacity};
ghost use Rattle.qs_core.specs.Steps.{CanFetch, unless_over};
ghost use Rattle.qs_table.specs.Seats.{IsSeatOf};
ghost use Rattle.qs_worker.specs.inner.Leaves.{CanPut, AreFetched, HasPut};

use qs_core::{LeafRange, Work};
use qs_table::{QsSeat, ResTable};

/// Fetches the blocks of the leaves of a range, in order.
pub(crate) fn fetch_leaves<W: Work>(
    table: &ResTable<W>,
    seat: &mut QsSeat<W>,
    range: LeafRange,
    blocks: &mut Vec<W::Block>,
)
    requires seat { IsSeatOf table.now seat.old }
    requires can { (leaf : ℕ) → range.from ≤ leaf → leaf < range.to → CanFetch (W.shape table.now.plan) seat.old.view.holds leaf }
    requires rises { range.from ≤ range.to }
    requires empty { blocks.old.items ≡ [] }
    requires room { range.to ≤ range.from + vec_capacity blocks.old }
    ensures seat { IsSeatOf table.now seat.new }
    ensures fetched { AreFetched (W.shape table.now.plan) (W.fits table.now.plan) W.done range.from seat.old.view seat.new.view blocks.new.items }
    ensures all { range.from + length blocks.new.items ≡ range.to }
    ensures room { vec_capacity blocks.new ≡ vec_capacity blocks.old }
{
    for leaf in range.from..range.to {
        blocks.push_reserved(table.fetch(seat, leaf));
    }
}

/// Puts the blocks of the leaves from one on back, the last first, after the task that runs was done on them.
pub(crate) fn put_leaves<W: Work>(
    table: &ResTable<W>,
    seat: &mut QsSeat<W>,
    from: u32,
    blocks: &mut Vec<W::Block>,
)
    requires seat { IsSeatOf table.now seat.old }
    requires few { (from + length blocks.old.items ≤ (W.shape table.now.plan).leaves) × ((W.shape table.now.plan).leaves < 2 ^ 32) }
    requires can { (task : ℕ) × (others : List ℕ) × (successors : List ℕ) × CanPut (W.fits table.now.plan) W.done task others successors from seat.old.view blocks.old.items }
    ensures seat { IsSeatOf table.now seat.new }
    ensures put { HasPut from (from + length blocks.old.items) seat.old.view seat.new.view }
    ensures runs { (task : ℕ) (others successors : List ℕ) → CanPut (W.fits table.now.plan) W.done task others successors from seat.old.view blocks.old.items → seat.new.view.holds.running ≡ unless_over task others successors }
    ensures empty { blocks.new.items ≡ [] }
    ensures room { vec_capacity blocks.new ≡ vec_capacity blocks.old }
{
    while let Some(block) = blocks.pop() {
        table.put_back(seat, from + blocks.len() as u32, block);
    }
}
