//! The table of locks.
ghost use Rattle.std.specs.Prelude.{◌≡◌, ◌<◌, ◌≤◌, ◌↔◌, ℕ, [], length, map, vec_capacity, All, IfErr, IfOk};
ghost use Rattle.std.specs.List.{range_with_len};
ghost use Rattle.qs_core.specs.Core.{opening};
ghost use Rattle.qs_core.specs.Shape.{ancestors};
ghost use Rattle.qs_core.specs.Blocks.{AreFresh};
ghost use Rattle.qs_table.specs.Blocks.{AreReturned, IsTaken};
ghost use Rattle.qs_table.specs.Notes.{claims_of};
ghost use Rattle.qs_table.specs.Seats.{IsIdleSeat, IsNewSeat, views_of};

mod leaves;
mod seats;
mod steps;
mod tasks;
#[cfg(test)]
mod tests;
mod tries;

use crate::answers::NoRoom;
use crate::closed::Closed;
use crate::lines::Lines;
use crate::room::Room;
use crate::rule::{About, LockRule};
use crate::seat::QsSeat;
use crate::slots::{copy_words, drain_slots, fill_slots, take_blocks};
use crate::stowed::Stowed;
use crate::view::Bundle;
use atomic_table::{Refused, Table};
use qs_core::Work;
use std::alloc::{AllocError, Global};
use std::marker::Model;
use std::snapshot::Snapshot;

/// The shared words of a work, with their memory.
type LockTable<W> = Table<
    Option<<W as Work>::Block>,
    Bundle<<W as Work>::Plan>,
    About<W>,
    LockRule<W>,
    Global,
>;

/// Locks on the cells of a work, with the blocks of its leaves. What threads share of it are words, each changed in single
/// steps: no call but `new` takes memory, waits, or tries a step again.
#[derive(Drop)]
pub struct ResTable<W: Work> {
    table: LockTable<W>,
    lines: Lines,
    // The words at the opening: those at the end come into this list.
    words: Vec<u64>,
    // The list that the blocks came in: it is empty while they stand in the slots.
    emptied: Stowed<Vec<W::Block>>,
}

impl<W: Work> Model for ResTable<W> {
    ghost use Rattle.std.specs.Prelude.{◌≡◌, ◌<◌, ◌≤◌, [], vec_capacity};
    ghost use Rattle.qs_table.specs.Seats.{TableView};
    ghost use Rattle.qs_table.specs.inner.Tokens.{IsLaidOut};

    ghost Value = { TableView W.Plan };

    ghost view = { λ t. record { id = t.table.shared.table_id; plan = W.plan t.table.shared.key.work.value; seats = t.table.shared.key.seats } };

    ghost invariant = { λ t.
        IsLaidOut (W.shape (W.plan t.table.shared.key.work.value)) t.table.shared.table_id t.lines t.words.items
        × (t.emptied.items ≡ [])
        × (t.table.shared.table_id.slots ≤ vec_capacity t.emptied)
        × (0 < t.table.shared.key.seats) };
}

impl<W: Work> ResTable<W> {
    /// A table for so many seats, with their tokens: it takes the blocks of the leaves.
    pub fn new(
        alloc: Global,
        work: &W,
        blocks: Vec<W::Block>,
        seats: u32,
    ) -> Result<(ResTable<W>, Vec<QsSeat<W>>), NoRoom<W::Block>>
        requires blocks { AreFresh (W.shape (W.plan work.now)) (W.fits (W.plan work.now)) W.done blocks.items }
        requires seats { (1 ≤ seats) × (seats ≤ 65) }
        ensures table { IfOk result (λ t. (t.0.plan ≡ W.plan work.now) × (t.0.seats ≡ seats)) }
        ensures seats { IfOk result (λ t. (length t.1.items ≡ seats) × All (λ s. IsNewSeat t.0 s) t.1.items) }
        ensures no_room { IfErr result (λ r. r.blocks.items ≡ blocks.items) }
    {
        match Room::reserve(alloc, work, seats) {
            Ok(room) => ResTable::fill(alloc, work, blocks, room, seats),
            Err(AllocError) => Err(NoRoom { blocks }),
        }
    }

    /// Moves the blocks into the slots, and opens the table.
    fn fill(
        alloc: Global,
        work: &W,
        mut blocks: Vec<W::Block>,
        room: Room<W>,
        seats: u32,
    ) -> Result<(ResTable<W>, Vec<QsSeat<W>>), NoRoom<W::Block>>
        requires fresh { AreFresh (W.shape (W.plan work.now)) (W.fits (W.plan work.now)) W.done blocks.items }
        requires seats { 0 < seats }
        requires lines { room.lines ≡ map (ancestors (W.shape (W.plan work.now))) (range_with_len 0 (length (W.shape (W.plan work.now)).parents)) }
        requires words { room.words.items ≡ (opening (W.shape (W.plan work.now)) 0).words }
        requires slots { (room.slots.items ≡ []) × ((W.shape (W.plan work.now)).leaves ≤ vec_capacity room.slots) }
        requires tokens { (room.tokens.items ≡ []) × (seats ≤ vec_capacity room.tokens) }
        ensures table { IfOk result (λ t. (t.0.plan ≡ W.plan work.now) × (t.0.seats ≡ seats)) }
        ensures seats { IfOk result (λ t. (length t.1.items ≡ seats) × All (λ s. IsNewSeat t.0 s) t.1.items) }
        ensures no_room { IfErr result (λ r. r.blocks.items ≡ blocks.items) }
    {
        let Room {
            lines,
            words,
            mut slots,
            mut tokens,
        } = room;
        let about = About {
            work: Snapshot::of(work),
            seats,
        };
        // The call says that the work keeps its laws.
        let _cells = work.cells();
        fill_slots(&mut blocks, &mut slots);
        let emptied = match Stowed::new(alloc, blocks) {
            Ok(emptied) => emptied,
            Err(blocks) => {
                let blocks = drain_slots(slots, blocks);
                return Err(NoRoom { blocks });
            }
        };
        match Table::new(alloc, words.as_slice(), slots, &about) {
            Ok((table, seat)) => {
                let made = ResTable {
                    table,
                    lines,
                    words,
                    emptied,
                };
                made.deal(seat, seats, &mut tokens);
                Ok((made, tokens))
            }
            Err(Refused { slots }) => {
                let blocks = drain_slots(slots, emptied.into_inner());
                Err(NoRoom { blocks })
            }
        }
    }

    /// Closes the table with all its tokens, none of which owns or runs anything.
    pub fn close(self, seats: Vec<QsSeat<W>>) -> Closed<W>
        requires each { All (λ s. IsIdleSeat self s) seats.items }
        requires all { length seats.items ≡ self.seats }
        ensures shape { result.shape ≡ W.shape self.plan }
        ensures returned { AreReturned (W.shape self.plan) (W.fits self.plan) W.done result.words result.blocks }
        ensures claimed { (task : ℕ) → task < length (W.shape self.plan).tasks → (IsTaken (W.shape self.plan) result.words task ↔ (0 < claims_of task (views_of seats.items))) }
    {
        let whole = self.gather(seats);
        let about = Snapshot::of(&self);
        let ResTable {
            table,
            lines,
            mut words,
            emptied,
        } = self;
        let first_task = 1 + lines.cells() + table.slot_count();
        let mut closed = table.close_with(whole);
        copy_words(&closed, &mut words);
        let mut blocks = emptied.into_inner();
        take_blocks(&mut closed, &mut blocks);
        closed.free();
        Closed {
            table: about,
            first_task,
            words,
            blocks,
        }
    }
}
