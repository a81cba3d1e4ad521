//! A worker, and its turns.
ghost use Rattle.std.specs.Prelude.{◌≡◌, ◌++◌, ◌∷◌, ◌<◌, [], Contains, IfErr, IfOk, Some, length};
ghost use Rattle.qs_core.specs.Core.{empty_view};
ghost use Rattle.qs_table.specs.Seats.{IsIdle, IsSeatOf};
ghost use Rattle.qs_queues.specs.Seats as queue;
ghost use Rattle.qs_worker.specs.ReadyLists.{IsFirstTask, IsReadyList};
ghost use Rattle.qs_worker.specs.Turns.{Turned};
ghost use Rattle.qs_worker.specs.Worked.{Worked};
ghost use Rattle.qs_worker.specs.inner.Idling.{idle_turns_left};
ghost use Rattle.qs_worker.specs.inner.Rooms.{HasBlockRoom};

use crate::buffers::{Buffers, most_leaves, reserve_buffers};
use crate::claimed::do_claimed;
use crate::offers::push_ready;
use crate::rounds::look;
use crate::turn::Turn;
use qs_core::Work;
use qs_gate::Gate;
use qs_queues::{QueueSeat, Queues};
use qs_table::{QsSeat, ResTable};
use std::alloc::{AllocError, Global};
use std::marker::Model;
use std::thread;

/// So many turns in a row may be Idle before a worker stops.
const IDLE_TURNS: u32 = 65_536;

/// A seat at the lock table and one at the queues, the tasks that are ready, and the room that tasks ask for. Between calls
/// the seat at the table holds nothing: no cell, no leaf and no task.
#[derive(Drop)]
pub struct Worker<W: Work> {
    number: u32,
    seat: QsSeat<W>,
    queue_seat: QueueSeat,
    buffers: Buffers<W::Block>,
    ready: Vec<u32>,
}

impl<W: Work> Model for Worker<W> {
    ghost use Rattle.std.specs.Prelude.{vec_capacity};
    ghost use Rattle.qs_worker.specs.Turns.{WorkerView};
    ghost use Rattle.qs_worker.specs.inner.Rooms.{IsEquipped};

    ghost Value = { WorkerView W.Plan };

    ghost view = { λ w. record {
      number = w.number;
      lock_seat = w.seat;
      queue_seat = w.queue_seat;
      ready = w.ready.items;
    } };

    ghost invariant = { λ w. IsEquipped W.shape w.seat w.buffers.first.items w.buffers.second.items w.ready.items (vec_capacity w.buffers.first) (vec_capacity w.buffers.second) (vec_capacity w.ready) };
}

/// There was no memory for a worker: its seats come back.
#[derive(Drop)]
pub struct NoWorker<W: Work> {
    pub seat: QsSeat<W>,
    pub queue_seat: QueueSeat,
}

/// How many more turns in a row may be Idle after a turn, where so many might before it.
fn idle_turns_left(answer: Turn, left: u32) -> u32
    requires { 0 < left }
    ensures { result ≡ idle_turns_left answer left }
{
    match answer {
        Turn::Over => 0,
        Turn::Ran(_) => IDLE_TURNS,
        Turn::Idle => left - 1,
    }
}

/// Yields after an Idle turn, so that other threads may run. No contract and no test shows that it does.
fn yield_if_idle(answer: Turn) {
    if let Turn::Idle = answer {
        thread::yield_now();
    }
}

impl<W: Work> Worker<W> {
    /// A worker on two seats, of which that at the table owns and runs nothing. Its number is that of its own queue, and the one that
    /// it tells gates.
    pub fn make(
        alloc: Global,
        work: &W,
        number: u32,
        seat: QsSeat<W>,
        queue_seat: QueueSeat,
    ) -> Result<Worker<W>, NoWorker<W>>
        requires plan { seat.plan ≡ Some (W.plan work.now) }
        requires idle { IsIdle seat.view.holds }
        ensures made { IfOk result (λ w. w ≡ record { number = number; lock_seat = seat; queue_seat = queue_seat; ready = [] }) }
        ensures no_worker { IfErr result (λ r. (r.seat ≡ seat) × (r.queue_seat ≡ queue_seat)) }
    {
        // The call which says that a seat without cells has no leaf out.
        seat.shows_none_out();
        Worker::make_with(alloc, work, most_leaves(work), number, seat, queue_seat)
    }

    /// As `make`, with the greatest numbers of leaves of a first cell and of a second at hand.
    pub(crate) fn make_with(
        alloc: Global,
        work: &W,
        most: (u32, u32),
        number: u32,
        seat: QsSeat<W>,
        queue_seat: QueueSeat,
    ) -> Result<Worker<W>, NoWorker<W>>
        requires plan { seat.plan ≡ Some (W.plan work.now) }
        requires rests { seat.view.holds ≡ empty_view }
        requires most { HasBlockRoom (W.shape (W.plan work.now)) most.0 most.1 }
        ensures made { IfOk result (λ w. w ≡ record { number = number; lock_seat = seat; queue_seat = queue_seat; ready = [] }) }
        ensures no_worker { IfErr result (λ r. (r.seat ≡ seat) × (r.queue_seat ≡ queue_seat)) }
    {
        match reserve_buffers(alloc, work, most) {
            Ok((buffers, ready)) => Ok(Worker {
                number,
                seat,
                queue_seat,
                buffers,
                ready,
            }),
            Err(AllocError) => Err(NoWorker { seat, queue_seat }),
        }
    }

    /// Puts a task last that waits for no other.
    pub fn add_ready(&mut self, task: u32)
        requires first { (plan : W.Plan) → self.old.lock_seat.plan ≡ Some plan → IsFirstTask (W.shape plan) task }
        requires new { Contains self.old.ready task → ⊥ }
        ensures { self.new ≡ record self.old { ready = self.old.ready ++ task ∷ [] } }
    {
        self.ready.push_reserved(task);
    }

    /// Offers the tasks that are ready to the queues, then takes a task from a queue and does it.
    pub fn turn<G: Gate>(
        &mut self,
        work: &W,
        table: &ResTable<W>,
        queues: &Queues,
        gate: &G,
    ) -> Turn
        requires work { W.plan work.now ≡ table.now.plan }
        requires seat { IsSeatOf table.now self.old.lock_seat }
        requires queue_seat { queue.IsQueueSeatOf queues.now self.old.queue_seat }
        requires number { self.old.number < queues.now.queues }
        requires tasks { queues.now.tasks ≡ length (W.shape table.now.plan).tasks }
        ensures seat { IsSeatOf table.now self.new.lock_seat }
        ensures queue_seat { queue.IsQueueSeatOf queues.now self.new.queue_seat }
        ensures turned { Turned (W.shape table.now.plan) queues.now result self.old self.new }
        ensures ready { IsReadyList (W.shape table.now.plan) self.new.lock_seat.view.notes self.new.ready }
    {
        // The call whose contract has the laws of what is scheduled.
        let _cells = work.cells();
        push_ready(
            work,
            queues,
            &mut self.queue_seat,
            self.number,
            &mut self.ready,
        );
        if queues.left(&mut self.queue_seat) == 0 {
            return Turn::Over;
        }
        let found = look(
            work,
            table,
            queues,
            &mut self.seat,
            &mut self.queue_seat,
            self.number,
        );
        match found {
            Some(task) => {
                gate.pass(self.number, task);
                do_claimed(
                    work,
                    table,
                    &mut self.seat,
                    &mut self.buffers,
                    &mut self.ready,
                    task,
                );
                queues.finish_one(&mut self.queue_seat);
                Turn::Ran(task)
            }
            None => Turn::Idle,
        }
    }

    /// Turns until no task is left, or until 65,536 turns in a row were Idle.
    pub fn work<G: Gate>(&mut self, work: &W, table: &ResTable<W>, queues: &Queues, gate: &G)
        requires work { W.plan work.now ≡ table.now.plan }
        requires seat { IsSeatOf table.now self.old.lock_seat }
        requires queue_seat { queue.IsQueueSeatOf queues.now self.old.queue_seat }
        requires number { self.old.number < queues.now.queues }
        requires tasks { queues.now.tasks ≡ length (W.shape table.now.plan).tasks }
        ensures seat { IsSeatOf table.now self.new.lock_seat }
        ensures queue_seat { queue.IsQueueSeatOf queues.now self.new.queue_seat }
        ensures number { self.new.number ≡ self.old.number }
        ensures worked { Worked (W.shape table.now.plan) queues.now 65536 self.old self.new }
        ensures ready { IsReadyList (W.shape table.now.plan) self.new.lock_seat.view.notes self.new.ready }
    {
        let mut left = IDLE_TURNS;
        while left > 0 {
            let answer = self.turn(work, table, queues, gate);
            yield_if_idle(answer);
            left = idle_turns_left(answer, left);
        }
    }

    /// The seats: that at the table holds nothing.
    pub fn into_seats(self) -> (QsSeat<W>, QueueSeat)
        ensures seats { result ≡ (self.lock_seat, self.queue_seat) }
        ensures rests { result.0.view.holds ≡ empty_view }
    {
        let Worker {
            number: _,
            seat,
            queue_seat,
            buffers: _,
            ready: _,
        } = self;
        (seat, queue_seat)
    }
}
