//! A worker beside another seat at the table, and beside another's queue.
ghost use Rattle.std.specs.Prelude.{◌≡◌, ◌<◌, ◌≤◌, true, IfOk};
ghost use Rattle.qs_table.specs.Seats.{IsNewSeat};
ghost use Rattle.qs_queues.specs.Seats as queue;
ghost use Rattle.qs_worker.specs.Crews.{IsOn};

use crate::tests::{opened, turned};
use crate::turn::Turn;
use crate::worker::Worker;
use qs_family::{Family, THREE};
use qs_gate::{LogGate, Pass};
use qs_queues::{Push, QueueSeat, Queues};
use qs_table::{QsSeat, ResTable, Try};
use std::alloc::{AllocError, Global};
use std::test::Fail;

/// A table of the family, and its two seats.
fn opened_for_two(
    alloc: Global,
) -> Result<(ResTable<Family>, QsSeat<Family>, QsSeat<Family>), AllocError>
    ensures table { IfOk result (λ t. t.0.plan ≡ record { has_tasks = true; has_third = true }) }
    ensures seats { IfOk result (λ t. IsNewSeat t.0 t.1 × IsNewSeat t.0 t.2) }
{
    let (table, mut seats) = opened(alloc, 2)?;
    let last = seats.pop().unwrap();
    let first = seats.pop().unwrap();
    Ok((table, first, last))
}

/// Two queues with this room each, and their two seats.
fn queues_for_two(alloc: Global, room: usize) -> Result<(Queues, QueueSeat, QueueSeat), AllocError>
    ensures queues { IfOk result (λ q. (q.0.queues ≡ 2) × (q.0.tasks ≡ 3)) }
    ensures seats { IfOk result (λ q. queue.IsQueueSeatOf q.0 q.1 × queue.IsQueueSeatOf q.0 q.2) }
{
    let (queues, mut seats) = Queues::new(alloc, 2, room, 3, 2)?;
    let last = seats.pop().unwrap();
    let first = seats.pop().unwrap();
    Ok((queues, first, last))
}

/// A worker with the number 1 and no task ready.
fn second_on(
    alloc: Global,
    table: &ResTable<Family>,
    queues: &Queues,
    seat: QsSeat<Family>,
    queue_seat: QueueSeat,
) -> Result<Worker<Family>, AllocError>
    requires plan { table.now.plan ≡ record { has_tasks = true; has_third = true } }
    requires seat { IsNewSeat table.now seat }
    requires queue_seat { queue.IsQueueSeatOf queues.now queue_seat }
    requires queues { 2 ≤ queues.now.queues }
    ensures { IfOk result (λ w. IsOn table.now queues.now w) }
{
    let Ok(worker) = Worker::make(alloc, &THREE, 1, seat, queue_seat) else {
        return Err(AllocError);
    };
    Ok(worker)
}

/// Puts a task into a queue.
fn pushed(queues: &Queues, seat: &mut QueueSeat, to: u32, task: u32) -> Push
    requires seat { queue.IsQueueSeatOf queues.now seat.old }
    requires to { to < queues.now.queues }
    requires task { task < queues.now.tasks }
    ensures { queue.IsQueueSeatOf queues.now seat.new }
{
    queues.push(seat, to, 1, task)
}

/// A turn of a worker while another seat has the cell of the first task, which it gives back then.
fn turned_beside(
    worker: &mut Worker<Family>,
    table: &ResTable<Family>,
    queues: &Queues,
    gate: &LogGate,
    other: &mut QsSeat<Family>,
) -> Option<Turn>
    requires plan { table.now.plan ≡ record { has_tasks = true; has_third = true } }
    requires on { IsOn table.now queues.now worker.old }
    requires tasks { queues.now.tasks ≡ 3 }
    requires other { IsNewSeat table.now other.old }
    ensures { IsOn table.now queues.now worker.new }
{
    match table.try_cell(other, 2) {
        Try::Busy { .. } => None,
        Try::Got => {
            let answer = turned(worker, table, queues, gate);
            table.give_cell(other);
            Some(answer)
        }
    }
}

/// An Idle turn passes no gate, and the task that it couldn't claim stays in the queue of the other.
#[test]
fn a_worker_takes_a_task_of_another_once_its_cell_is_free(rt: HostRuntime) -> Result<(), Fail> {
    let gate = LogGate::new(rt.alloc(), 2)?;
    let (table, mut other, seat) = opened_for_two(rt.alloc())?;
    let (queues, mut spare, queue_seat) = queues_for_two(rt.alloc(), 1)?;
    let mut worker = second_on(rt.alloc(), &table, &queues, seat, queue_seat)?;
    assert_eq!(rt; pushed(&queues, &mut spare, 0, 0), Push::In);
    let answer = turned_beside(&mut worker, &table, &queues, &gate, &mut other);
    assert_eq!(rt; answer, Some(Turn::Idle));
    assert_eq!(rt; pushed(&queues, &mut spare, 0, 1), Push::Full);
    assert_eq!(rt; turned(&mut worker, &table, &queues, &gate), Turn::Ran(0));
    let only = Pass { worker: 1, task: 0 };
    assert_eq!(rt; gate.passes(rt.alloc())?.as_slice(), [only].as_slice());
    Ok(())
}
