//! The workers of a table and its queues.
ghost use Rattle.std.specs.Prelude.{◌≡◌, ◌≤◌, ◌<◌, ◌+◌, ◌++◌, ◌^◌, ℕ, [], All, IfErr, IfOk, Some, get_or, length, reverse, vec_capacity};
ghost use Rattle.qs_core.specs.Core.{empty_view};
ghost use Rattle.qs_worker.specs.Crews.{IsNewCrew, IsOn, lock_seats_of};
ghost use Rattle.qs_worker.specs.Turns.{WorkerView};
ghost use Rattle.qs_worker.specs.Worked.{Worked};

use crate::buffers::most_leaves;
use crate::shares::share_out;
use crate::worker::{NoWorker, Worker};
use qs_core::Work;
use qs_gate::Gate;
use qs_queues::{QueueSeat, Queues};
use qs_table::{QsSeat, ResTable};
use std::alloc::Global;
use std::marker::Model;
use std::thread;
use std::thread::Threads;

/// A worker on each seat of a table, in the order of the seats. Between calls no seat at the table holds anything.
#[derive(Drop)]
pub struct Crew<W: Work> {
    workers: Vec<Worker<W>>,
    // The list that the seats came in: it is empty while the workers have them.
    emptied: Vec<QsSeat<W>>,
}

impl<W: Work> Model for Crew<W> {
    ghost use Rattle.std.specs.Prelude.{◌≡◌, ◌≤◌, List, [], length, vec_capacity};
    ghost use Rattle.qs_worker.specs.Turns.{WorkerView};

    ghost Value = { List (WorkerView W.Plan) };

    ghost view = { λ c. c.workers.items };

    ghost invariant = { λ c. (c.emptied.items ≡ []) × (length c.workers.items ≤ vec_capacity c.emptied) };
}

/// There was no memory for the workers: the seats at the table come back.
#[derive(Drop)]
pub struct NoCrew<W: Work> {
    pub seats: Vec<QsSeat<W>>,
}

/// Moves the seats of workers behind others, that of the last worker first.
fn put_seats<W: Work>(workers: &mut Vec<Worker<W>>, seats: &mut Vec<QsSeat<W>>)
    requires room { length seats.old.items + length workers.old.items ≤ vec_capacity seats.old }
    ensures seats { seats.new.items ≡ seats.old.items ++ reverse (lock_seats_of workers.old.items) }
    ensures rest { All (λ s. s.view.holds ≡ empty_view) seats.old.items → All (λ s. s.view.holds ≡ empty_view) seats.new.items }
    ensures room { vec_capacity seats.new ≡ vec_capacity seats.old }
{
    while let Some(worker) = workers.pop() {
        let (seat, _queue_seat) = worker.into_seats();
        seats.push_reserved(seat);
    }
}

impl<W: Work> Crew<W> {
    /// A worker on each of the seats, which hold nothing: its number is that of its place among them. Of the tasks that wait for
    /// no other, each worker starts with those that leave its number by the number of workers.
    pub fn make(
        alloc: Global,
        work: &W,
        mut seats: Vec<QsSeat<W>>,
        mut queue_seats: Vec<QueueSeat>,
    ) -> Result<Crew<W>, NoCrew<W>>
        requires few { (0 < length seats.items) × (length seats.items < 2 ^ 32) }
        requires as_many { length queue_seats.items ≡ length seats.items }
        requires plan { All (λ s. s.plan ≡ Some (W.plan work.now)) seats.items }
        requires rest { All (λ s. s.view.holds ≡ empty_view) seats.items }
        ensures made { IfOk result (λ c. IsNewCrew (W.shape (W.plan work.now)) seats.items queue_seats.items c) }
        ensures no_crew { IfErr result (λ r. r.seats.items ≡ seats.items) }
    {
        let Ok(mut workers) = Vec::with_capacity(alloc, seats.len()) else {
            return Err(NoCrew { seats });
        };
        let most = most_leaves(work);
        while let Some(seat) = seats.pop() {
            let queue_seat = queue_seats.pop().unwrap();
            let number = seats.len() as u32;
            match Worker::make_with(alloc, work, most, number, seat, queue_seat) {
                Ok(worker) => workers.push_reserved(worker),
                Err(NoWorker { seat, .. }) => {
                    seats.push_reserved(seat);
                    put_seats(&mut workers, &mut seats);
                    return Err(NoCrew { seats });
                }
            }
        }
        workers.reverse();
        share_out(work, workers.as_mut_slice());
        Ok(Crew {
            workers,
            emptied: seats,
        })
    }

    /// Each worker turns until it stops, in at most as many threads as there are workers.
    pub fn work<R: Threads + Sync, G: Gate>(
        &mut self,
        rt: &R,
        work: &W,
        table: &ResTable<W>,
        queues: &Queues,
        gate: &G,
    )
    where
        W: Sync,
        W::Block: Send,
        requires work { W.plan work.now ≡ table.now.plan }
        requires workers { All (IsOn table.now queues.now) self.old }
        requires tasks { queues.now.tasks ≡ length (W.shape table.now.plan).tasks }
        ensures workers { All (IsOn table.now queues.now) self.new }
        ensures as_many { length self.new ≡ length self.old }
        ensures worked { (k : ℕ) (d : WorkerView W.Plan) → k < length self.old → Worked (W.shape table.now.plan) queues.now 65536 (get_or self.old k d) (get_or self.new k d) }
    {
        let threads = self.workers.len().max(1);
        thread::for_each_mut(
            rt,
            self.workers.as_mut_slice(),
            threads,
            &|_number, worker: &mut Worker<W>|
                requires { (W.plan work.now ≡ table.now.plan) × IsOn table.now queues.now worker.old × (queues.now.tasks ≡ length (W.shape table.now.plan).tasks) }
                ensures { IsOn table.entry.now queues.entry.now worker.exit.now × Worked (W.shape table.entry.now.plan) queues.entry.now 65536 worker.entry.now worker.exit.now }
            {
                worker.work(work, table, queues, gate);
            },
        );
    }

    /// The seats at the table: none of them holds anything.
    pub fn into_seats(self) -> Vec<QsSeat<W>>
        ensures seats { result.items ≡ lock_seats_of self }
        ensures rest { All (λ s. s.view.holds ≡ empty_view) result.items }
    {
        let Crew {
            mut workers,
            emptied: mut seats,
        } = self;
        put_seats(&mut workers, &mut seats);
        seats.reverse();
        seats
    }
}
