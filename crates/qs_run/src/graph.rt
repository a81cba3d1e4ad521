//! Runs of whole graphs.
ghost use Rattle.std.specs.Prelude.{◌≡◌, ◌≤◌, ◌<◌, All, IfErr, IfOk, length, min};
ghost use Rattle.qs_core.specs.Blocks.{AreFitting, AreFresh};
ghost use Rattle.qs_table.specs.Seats.{IsNewSeat};
ghost use Rattle.qs_queues.specs.Seats.{QueuesView};
ghost use Rattle.qs_worker.specs.Crews.{IsOn};
ghost use Rattle.qs_run.specs.Blocks.{AreAllDone};

use crate::ordered::finish_rest;
use qs_core::Work;
use qs_gate::Gate;
use qs_queues::Queues;
use qs_table::{NoRoom, QsSeat, ResTable};
use qs_worker::{Crew, NoCrew};
use std::alloc::Global;
use std::thread::Threads;

/// The room of a queue where there are more tasks than this.
const MOST_ROOM: u32 = 65_536;

/// The blocks of a run that was refused for want of memory, one per leaf in leaf order.
#[derive(Drop)]
pub struct RunRefused<B> {
    pub blocks: Vec<B>,
}

/// Does every task of a work on the blocks of its leaves, and passes the gate with each before it is done. The workers look
/// through as many queues for tasks, in as many threads, the calling one among them, where these can be made. What they leave
/// is done on the calling thread, which passes the gate with the number `workers`, the one behind theirs. A run is refused
/// before any worker starts.
pub fn run_graph<R: Threads + Sync, W: Work + Sync, G: Gate>(
    rt: &R,
    alloc: Global,
    work: &W,
    blocks: Vec<W::Block>,
    workers: u32,
    gate: &G,
) -> Result<Vec<W::Block>, RunRefused<W::Block>>
where
    W::Block: Send,
    requires workers { (1 ≤ workers) × (workers ≤ 64) }
    requires blocks { AreFresh (W.shape (W.plan work.now)) (W.fits (W.plan work.now)) W.done blocks.items }
    ensures all_done { IfOk result (λ v. AreAllDone (W.shape (W.plan work.now)) (W.fits (W.plan work.now)) W.done v.items) }
    ensures handed_back { IfErr result (λ r. AreFitting (W.shape (W.plan work.now)) (W.fits (W.plan work.now)) r.blocks.items) }
{
    let (table, seats) = match ResTable::new(alloc, work, blocks, workers) {
        Ok(opened) => opened,
        Err(NoRoom { blocks }) => return Err(RunRefused { blocks }),
    };
    let (queues, mut crew) = match man(alloc, work, &table, seats) {
        Ok(manned) => manned,
        Err(NoCrew { seats }) => {
            let blocks = table.close(seats).into_blocks();
            return Err(RunRefused { blocks });
        }
    };
    crew.work(rt, work, &table, &queues, gate);
    Ok(close_run(work, table, crew, gate))
}

/// Closes the table of a crew that has stopped, and does what it left, with the number behind its workers'.
pub(crate) fn close_run<W: Work, G: Gate>(
    work: &W,
    table: ResTable<W>,
    crew: Crew<W>,
    gate: &G,
) -> Vec<W::Block>
    requires work { W.plan work.now ≡ table.plan }
    requires workers { (queues : QueuesView) × All (IsOn table queues) crew }
    requires as_many { length crew ≡ table.seats }
    requires few { length crew ≤ 64 }
    ensures all_done { AreAllDone (W.shape (W.plan work.now)) (W.fits (W.plan work.now)) W.done result.items }
{
    let seats = crew.into_seats();
    let worker = seats.len() as u32;
    let closed = table.close(seats);
    finish_rest(work, closed, worker, gate)
}

/// A worker on each of the seats of a table, and a queue for each worker, with room for all tasks or for 65,536 of them.
pub(crate) fn man<W: Work>(
    alloc: Global,
    work: &W,
    table: &ResTable<W>,
    seats: Vec<QsSeat<W>>,
) -> Result<(Queues, Crew<W>), NoCrew<W>>
    requires work { W.plan work.now ≡ table.now.plan }
    requires few { (0 < length seats.items) × (length seats.items ≤ 64) }
    requires seats { All (λ s. IsNewSeat table.now s) seats.items }
    ensures on { IfOk result (λ r. All (λ w. IsOn table.now r.0 w) r.1) }
    ensures as_many { IfOk result (λ r. length r.1 ≡ length seats.items) }
    ensures tasks { IfOk result (λ r. r.0.tasks ≡ length (W.shape table.now.plan).tasks) }
    ensures room { IfOk result (λ r. r.0.room ≡ min (length (W.shape table.now.plan).tasks) 65536) }
    ensures no_crew { IfErr result (λ r. r.seats.items ≡ seats.items) }
{
    let tasks = work.tasks();
    let count = seats.len() as u32;
    let room = tasks.min(MOST_ROOM) as usize;
    let Ok((queues, queue_seats)) = Queues::new(alloc, count, room, tasks, count) else {
        return Err(NoCrew { seats });
    };
    let crew = Crew::make(alloc, work, seats, queue_seats)?;
    Ok((queues, crew))
}
