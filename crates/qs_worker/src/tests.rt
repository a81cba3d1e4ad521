//! Workers on the family of four cells, one alone and several in threads.
ghost use Rattle.std.specs.Prelude.{◌≡◌, ◌≤◌, true, All, IfOk, length};
ghost use Rattle.qs_family.specs.Family.{family};
ghost use Rattle.qs_table.specs.Seats.{IsNewSeat, IsSeatOf};
ghost use Rattle.qs_queues.specs.Seats as queue;
ghost use Rattle.qs_worker.specs.Crews.{IsOn};

mod beside;

use crate::crew::Crew;
use crate::turn::Turn;
use crate::worker::Worker;
use qs_family::{Family, Marks, THREE};
use qs_gate::{CountGate, LogGate, Pass};
use qs_queues::{QueueSeat, Queues};
use qs_table::{Closed, QsSeat, ResTable};
use std::alloc::{AllocError, Global};
use std::process::Abort;
use std::test::Fail;
use std::thread::Threads;

/// A table of the family.
fn opened(alloc: Global, seats: u32) -> Result<(ResTable<Family>, Vec<QsSeat<Family>>), AllocError>
    requires seats { (1 ≤ seats) × (seats ≤ 65) }
    ensures table { IfOk result (λ t. (t.0.plan ≡ record { has_tasks = true; has_third = true }) × (t.0.seats ≡ seats)) }
    ensures seats { IfOk result (λ t. (length t.1.items ≡ seats) × All (λ s. IsNewSeat t.0 s) t.1.items) }
{
    let blocks = vec![in alloc;
        Marks::of(false, false, false),
        Marks::of(false, false, false),
    ]?;
    ResTable::new(alloc, &THREE, blocks, seats).map_err(|_| AllocError)
}

/// A worker with the number 0 on a seat of a table and one of queues, with the first task ready.
fn worker_on(
    alloc: Global,
    table: &ResTable<Family>,
    queues: &Queues,
    seat: QsSeat<Family>,
    queue_seat: QueueSeat,
) -> Result<Worker<Family>, AllocError>
    requires plan { table.now.plan ≡ record { has_tasks = true; has_third = true } }
    requires seat { IsNewSeat table.now seat }
    requires queue_seat { queue.IsQueueSeatOf queues.now queue_seat }
    requires queues { 1 ≤ queues.now.queues }
    ensures { IfOk result (λ w. IsOn table.now queues.now w) }
{
    let Ok(mut worker) = Worker::make(alloc, &THREE, 0, seat, queue_seat) else {
        return Err(AllocError);
    };
    worker.add_ready(0);
    Ok(worker)
}

/// A table of the family for one seat, one queue, and a worker on both with the first task ready.
fn manned(alloc: Global) -> Result<(ResTable<Family>, Queues, Worker<Family>), AllocError>
    ensures table { IfOk result (λ m. (m.0.plan ≡ record { has_tasks = true; has_third = true }) × (m.0.seats ≡ 1)) }
    ensures tasks { IfOk result (λ m. m.1.tasks ≡ 3) }
    ensures worker { IfOk result (λ m. IsOn m.0 m.1 m.2) }
{
    let (table, mut seats) = opened(alloc, 1)?;
    let (queues, mut queue_seats) = Queues::new(alloc, 1, 3, 3, 1)?;
    let seat = seats.pop().unwrap();
    let queue_seat = queue_seats.pop().unwrap();
    let worker = worker_on(alloc, &table, &queues, seat, queue_seat)?;
    Ok((table, queues, worker))
}

/// A turn of a worker.
fn turned(
    worker: &mut Worker<Family>,
    table: &ResTable<Family>,
    queues: &Queues,
    gate: &LogGate,
) -> Turn
    requires plan { table.now.plan ≡ record { has_tasks = true; has_third = true } }
    requires on { IsOn table.now queues.now worker.old }
    requires tasks { queues.now.tasks ≡ 3 }
    ensures { IsOn table.now queues.now worker.new }
{
    worker.turn(&THREE, table, queues, gate)
}

/// Turns of a worker until it stops.
fn works(worker: &mut Worker<Family>, table: &ResTable<Family>, queues: &Queues, gate: &LogGate)
    requires plan { table.now.plan ≡ record { has_tasks = true; has_third = true } }
    requires on { IsOn table.now queues.now worker.old }
    requires tasks { queues.now.tasks ≡ 3 }
    ensures { IsOn table.now queues.now worker.new }
{
    worker.work(&THREE, table, queues, gate);
}

/// What a worker leaves of a table that it had for itself.
fn left_by(
    alloc: Global,
    table: ResTable<Family>,
    worker: Worker<Family>,
) -> Result<Closed<Family>, AllocError>
    requires plan { table.plan ≡ record { has_tasks = true; has_third = true } }
    requires one { table.seats ≡ 1 }
    requires seat { IsSeatOf table worker.lock_seat }
    ensures { IfOk result (λ c. c.shape ≡ family true true) }
{
    let (seat, _queue_seat) = worker.into_seats();
    let seats = vec![in alloc; seat]?;
    Ok(table.close(seats))
}

/// Each task was claimed, and is done on each leaf that it touches.
fn is_all_done(rt: &impl Abort, closed: Closed<Family>)
    requires { closed.shape ≡ family true true }
{
    assert!(rt; closed.claimed(0) && closed.claimed(1) && closed.claimed(2));
    assert_eq!(rt;
        closed.into_blocks().as_slice(),
        [Marks::of(true, true, true), Marks::of(false, false, true)].as_slice()
    );
}

/// No contract can say whom a gate lets pass: the worker with each task, once, and in the order of the tasks here.
#[test]
fn a_worker_works_until_no_task_is_left(rt: HostRuntime) -> Result<(), Fail> {
    let gate = LogGate::new(rt.alloc(), 4)?;
    let (table, queues, mut worker) = manned(rt.alloc())?;
    assert_eq!(rt; turned(&mut worker, &table, &queues, &gate), Turn::Ran(0));
    works(&mut worker, &table, &queues, &gate);
    assert_eq!(rt; turned(&mut worker, &table, &queues, &gate), Turn::Over);
    assert_eq!(rt;
        gate.passes(rt.alloc())?.as_slice(),
        [
            Pass { worker: 0, task: 0 },
            Pass { worker: 0, task: 1 },
            Pass { worker: 0, task: 2 },
        ]
        .as_slice()
    );
    is_all_done(&rt, left_by(rt.alloc(), table, worker)?);
    Ok(())
}

/// What the workers of a crew leave of the family.
fn worked_by<R: Threads + Sync>(
    rt: &R,
    alloc: Global,
    workers: u32,
    gate: &CountGate,
) -> Result<Closed<Family>, AllocError>
    requires { (1 ≤ workers) × (workers ≤ 64) }
    ensures { IfOk result (λ c. c.shape ≡ family true true) }
{
    let (table, seats) = opened(alloc, workers)?;
    let (queues, queue_seats) = Queues::new(alloc, workers, 3, 3, workers)?;
    let Ok(mut crew) = Crew::make(alloc, &THREE, seats, queue_seats) else {
        return Err(AllocError);
    };
    crew.work(rt, &THREE, &table, &queues, gate);
    Ok(table.close(crew.into_seats()))
}

#[test]
fn a_crew_does_each_task_once(rt: HostRuntime) -> Result<(), Fail> {
    for workers in [1, 2, 4] {
        let gate = CountGate::new();
        let closed = worked_by(&rt, rt.alloc(), workers, &gate)?;
        is_all_done(&rt, closed);
        assert_eq!(rt; gate.passes(), 3);
    }
    Ok(())
}
