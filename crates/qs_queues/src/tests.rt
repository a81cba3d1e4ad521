//! Pushes and scans of few queues, by a seat of one thread and by seats of several.
ghost use Rattle.std.specs.Prelude.{◌≡◌, ◌<◌, ◌≤◌, All, IfOk};
ghost use Rattle.qs_queues.specs.Seats.{IsNewSeat, IsQueueSeatOf};

use crate::{Push, QueueSeat, Queues, Scan};
use qs_heap::Trial;
use std::alloc::{AllocError, Global};
use std::test::Fail;
use std::thread;
use std::thread::Threads;

/// Takes any task, or refuses all.
#[derive(Drop)]
struct Tries {
    tasks: u32,
    takes: bool,
    tries: u64,
    taken: Option<u32>,
}

impl Trial for Tries {
    ghost use Rattle.std.specs.Prelude.{Bool, ◌≡◌, false};

    ghost taken = { λ trial. trial.taken };

    ghost refused = { λ trial _. trial.takes ≡ false };

    ghost tries = { λ trial. trial.tries };

    ghost limit = { λ trial. trial.tasks };

    ghost Origin = { Bool };

    ghost origin = { λ trial. trial.takes };

    fn try_take(&mut self, task: u32) -> bool {
        self.tries = self.tries.wrapping_add(1);
        if self.takes {
            self.taken = Some(task);
        }
        self.takes
    }
}

/// Scans a queue, and takes any task or none.
fn scan(queues: &Queues, seat: &mut QueueSeat, queue: u32, tasks: u32, takes: bool) -> Scan
    requires seat { IsQueueSeatOf queues.now seat.old }
    requires queue { queue < queues.now.queues }
    requires tasks { tasks ≡ queues.now.tasks }
    ensures { IsQueueSeatOf queues.now seat.new }
{
    let mut trial = Tries {
        tasks,
        takes,
        tries: 0,
        taken: None,
    };
    queues.scan(seat, queue, &mut trial)
}

/// Queues with their seats, one of them apart.
fn opened(
    alloc: Global,
    count: u32,
    room: usize,
    tasks: u32,
    others: u32,
) -> Result<(Queues, QueueSeat, Vec<QueueSeat>), AllocError>
    requires { (count ≤ 64) × (others < 64) }
    ensures queues { IfOk result (λ q. (q.0.queues ≡ count) × (q.0.tasks ≡ tasks)) }
    ensures seat { IfOk result (λ q. IsQueueSeatOf q.0 q.1) }
    ensures others { IfOk result (λ q. All (λ seat. IsQueueSeatOf q.0 seat) q.2.items) }
{
    let (queues, mut seats) = Queues::new(alloc, count, room, tasks, others + 1)?;
    let seat = last_of(&queues, &mut seats)?;
    Ok((queues, seat, seats))
}

/// Takes the last of some seats.
fn last_of(queues: &Queues, seats: &mut Vec<QueueSeat>) -> Result<QueueSeat, AllocError>
    requires { All (λ seat. IsNewSeat queues.now seat) seats.old.items }
    ensures seat { IfOk result (λ seat. IsQueueSeatOf queues.now seat) }
    ensures others { All (λ seat. IsQueueSeatOf queues.now seat) seats.new.items }
{
    match seats.pop() {
        Some(seat) => Ok(seat),
        None => Err(AllocError),
    }
}

#[test]
fn a_queue_with_room_for_one(rt: HostRuntime) -> Result<(), Fail> {
    let (queues, mut seat, _others) = opened(rt.alloc(), 1, 1, 2, 0)?;
    assert_eq!(rt; queues.queues(), 1);
    assert_eq!(rt; queues.push(&mut seat, 0, 5, 0), Push::In);
    assert_eq!(rt; queues.push(&mut seat, 0, 9, 1), Push::Full);
    assert_eq!(rt; scan(&queues, &mut seat, 0, 2, false), Scan::AllBusy);
    assert_eq!(rt; scan(&queues, &mut seat, 0, 2, true), Scan::Got(0));
    assert_eq!(rt; scan(&queues, &mut seat, 0, 2, true), Scan::Empty);
    Ok(())
}

#[test]
fn tasks_left_fall_by_one(rt: HostRuntime) -> Result<(), Fail> {
    let (queues, mut seat, _others) = opened(rt.alloc(), 1, 1, 1, 0)?;
    assert_eq!(rt; queues.left(&mut seat), 1);
    queues.finish_one(&mut seat);
    assert_eq!(rt; queues.left(&mut seat), 0);
    queues.finish_one(&mut seat);
    assert_eq!(rt; queues.left(&mut seat), u64::MAX);
    Ok(())
}

/// Pushes a task to each of three queues in turn, again and again. The tasks left fall by each that is in.
fn push_often(queues: &Queues, seat: &mut QueueSeat, from: usize)
    requires seat { IsQueueSeatOf queues.now seat.old }
    requires limits { (queues.now.queues ≡ 3) × (queues.now.tasks ≡ 100) }
    ensures { IsQueueSeatOf queues.now seat.new }
{
    for round in 0..1000 {
        let queue = ((from % 3 + round) % 3) as u32;
        if let Push::In = queues.push(seat, queue, (round % 7) as u64, (round % 100) as u32) {
            queues.finish_one(seat);
        }
    }
}

/// Takes a task from each of three queues in turn, again and again. The tasks left fall by each that is taken.
fn take_often(queues: &Queues, seat: &mut QueueSeat, from: usize)
    requires seat { IsQueueSeatOf queues.now seat.old }
    requires limits { (queues.now.queues ≡ 3) × (queues.now.tasks ≡ 100) }
    ensures { IsQueueSeatOf queues.now seat.new }
{
    for round in 0..600 {
        let queue = ((from % 3 + round) % 3) as u32;
        if let Scan::Got(_) = scan(queues, seat, queue, 100, true) {
            queues.finish_one(seat);
        }
    }
}

/// Takes what is left in a queue, up to so many: how many there were.
fn drained(queues: &Queues, seat: &mut QueueSeat, queue: u32) -> u64
    requires seat { IsQueueSeatOf queues.now seat.old }
    requires queue { queue < queues.now.queues }
    requires limits { queues.now.tasks ≡ 100 }
    ensures { IsQueueSeatOf queues.now seat.new }
{
    let mut count = 0u64;
    for _round in 0..5000 {
        if let Scan::Got(_) = scan(queues, seat, queue, 100, true) {
            count = count.wrapping_add(1);
        }
    }
    count
}

/// Each seat does so in a thread of its own: it pushes, or it takes.
fn in_threads<R: Threads + Sync>(rt: &R, queues: &Queues, seats: &mut [QueueSeat], pushes: bool)
    requires seats { All (λ seat. IsQueueSeatOf queues.now seat) seats.old }
    requires limits { (queues.now.queues ≡ 3) × (queues.now.tasks ≡ 100) }
    ensures { All (λ seat. IsQueueSeatOf queues.now seat) seats.new }
{
    thread::for_each_mut(
        rt,
        seats,
        4,
        &|number, seat: &mut QueueSeat|
            requires { IsQueueSeatOf queues.now seat.old × (queues.now.queues ≡ 3) × (queues.now.tasks ≡ 100) }
            ensures { IsQueueSeatOf queues.entry.now seat.exit.now }
        {
            if pushes {
                push_often(queues, seat, number);
            } else {
                take_often(queues, seat, number);
            }
        },
    );
}

#[test]
fn what_threads_push_is_there_once(rt: HostRuntime) -> Result<(), Fail> {
    let (queues, mut seat, mut others) = opened(rt.alloc(), 3, 4000, 100, 4)?;
    in_threads(&rt, &queues, others.as_mut_slice(), true);
    let pushed = 100u64.wrapping_sub(queues.left(&mut seat));
    assert!(rt; pushed > 0);
    in_threads(&rt, &queues, others.as_mut_slice(), false);
    let both = 100u64.wrapping_sub(queues.left(&mut seat));
    let first = drained(&queues, &mut seat, 0);
    let second = drained(&queues, &mut seat, 1);
    let third = drained(&queues, &mut seat, 2);
    let rest = first.wrapping_add(second).wrapping_add(third);
    assert_eq!(rt; both.wrapping_add(rest), pushed.wrapping_mul(2));
    Ok(())
}
