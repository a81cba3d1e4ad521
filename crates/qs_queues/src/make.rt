//! Queues are made, and a seat for each caller.
ghost use Rattle.std.specs.Prelude.{◌≡◌, ◌+◌, ◌<◌, ◌≤◌, [], ◌∷◌, All, IfOk, length, replicate, Some};
ghost use Rattle.qs_queues.specs.Seats.{IsNewSeat};
ghost use Rattle.qs_queues.specs.Views.{fresh_view};
ghost use Rattle.qs_queues.specs.inner.Plays.{empty_heap, fresh_beside};

use crate::queues::{QueueTable, Queues};
use crate::rule::{About, Beside};
use crate::seat::QueueSeat;
use crate::steps::{HeapSeat, HeapShared};
use atomic_table::{Refused, Table};
use qs_heap::WeightHeap;
use std::alloc::{AllocError, Global};

/// Empty heaps.
fn heaps(alloc: Global, queues: u32, room: usize) -> Result<Vec<Option<WeightHeap>>, AllocError>
    ensures { IfOk result (λ heaps. heaps.items ≡ replicate queues (Some (empty_heap room))) }
{
    let mut heaps = Vec::with_capacity(alloc, queues as usize)?;
    for _queue in 0..queues {
        heaps.push(Some(WeightHeap::new(alloc, room)?))?;
    }
    Ok(heaps)
}

/// The word of tasks left, and that of each queue.
fn words(alloc: Global, queues: u32, tasks: u32) -> Result<Vec<u64>, AllocError>
    ensures { IfOk result (λ words. words.items ≡ tasks ∷ replicate queues 0) }
{
    let mut words = Vec::with_capacity(alloc, queues as usize + 1)?;
    words.push(tasks as u64)?;
    for _queue in 0..queues {
        words.push(0)?;
    }
    Ok(words)
}

/// Splits a seat off.
fn split(shared: &HeapShared, seat: &mut HeapSeat) -> HeapSeat
    requires { (seat.old.table_id ≡ shared.now.table_id) × (0 < shared.now.table_id.words) }
    ensures kept { (seat.new.table_id ≡ seat.old.table_id) × (seat.new.me ≡ seat.old.me) }
    ensures beside { (result.table_id ≡ seat.old.table_id) × (result.me ≡ (fresh_beside seat.old.me.0, [])) }
{
    shared.split_seat::<Beside>(seat)
}

/// Opens the shared words, with a first seat.
fn open(
    alloc: Global,
    queues: u32,
    room: usize,
    tasks: u32,
) -> Result<(QueueTable, HeapSeat), AllocError>
    ensures key { IfOk result (λ t. (t.0.shared.key.queues ≡ queues) × (t.0.shared.key.room ≡ room) × (t.0.shared.key.tasks ≡ tasks)) }
    ensures sized { IfOk result (λ t. t.0.shared.table_id.words ≡ queues + 1) }
    ensures seat { IfOk result (λ t. (t.1.table_id ≡ t.0.shared.table_id) × (t.1.me ≡ (fresh_view room tasks, []))) }
{
    let slots = heaps(alloc, queues, room)?;
    let words = words(alloc, queues, tasks)?;
    let about = About {
        queues: queues as u64,
        room: room as u64,
        tasks: tasks as u64,
    };
    match Table::new(alloc, &words, slots, &about) {
        Ok(opened) => Ok(opened),
        Err(Refused { slots: _ }) => Err(AllocError),
    }
}

impl Queues {
    /// Empty queues with this room each, with so many tasks left, and a seat for each caller. The error is want of memory.
    pub fn new(
        alloc: Global,
        queues: u32,
        room: usize,
        tasks: u32,
        seats: u32,
    ) -> Result<(Queues, Vec<QueueSeat>), AllocError>
        requires { queues ≤ 64 }
        ensures queues { IfOk result (λ q. (q.0.queues ≡ queues) × (q.0.room ≡ room) × (q.0.tasks ≡ tasks)) }
        ensures seats { IfOk result (λ q. (length q.1.items ≡ seats) × All (λ s. IsNewSeat q.0 s) q.1.items) }
    {
        let mut tokens = Vec::with_capacity(alloc, seats as usize)?;
        let (table, mut first) = open(alloc, queues, room, tasks)?;
        for _seat in 0..seats {
            tokens.push(QueueSeat {
                seat: split(&table.shared, &mut first),
            })?;
        }
        Ok((Queues { table, queues }, tokens))
    }
}
