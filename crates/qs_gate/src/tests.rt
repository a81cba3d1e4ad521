//! Gates: what they count and list, and whom they let go on.
use crate::{CountGate, CrowdGate, Gate, LogGate, NoGate, Pass};
use std::test::Fail;
use std::thread;

/// No contract can say what a gate counts.
#[test]
fn counts_passes_and_those_of_worker_0(rt: HostRuntime) {
    let gate = CountGate::new();
    assert_eq!(rt; gate.passes(), 0);
    assert_eq!(rt; gate.firsts(), 0);
    for (worker, task) in [(0, 7), (2, 0), (0, 7), (1, 3), (0, 0)] {
        gate.pass(worker, task);
    }
    assert_eq!(rt; gate.passes(), 5);
    assert_eq!(rt; gate.firsts(), 3);
    NoGate.pass(0, 7);
}

/// Past its room a list ends.
#[test]
fn lists_passes_in_their_order(rt: HostRuntime) -> Result<(), Fail> {
    let gate = LogGate::new(rt.alloc(), 2)?;
    assert!(rt; gate.passes(rt.alloc())?.is_empty());
    let first = Pass { worker: 3, task: 7 };
    let second = Pass { worker: 0, task: 9 };
    gate.pass(first.worker, first.task);
    assert_eq!(rt; gate.passes(rt.alloc())?.as_slice(), [first].as_slice());
    gate.pass(second.worker, second.task);
    gate.pass(1, 1);
    assert_eq!(rt;
        gate.passes(rt.alloc())?.as_slice(),
        [first, second].as_slice()
    );
    Ok(())
}

/// One thread alone can't meet itself: the worker that comes first waits its turns and goes on.
#[test]
fn no_two_meet_in_one_thread(rt: HostRuntime) {
    let gate = CrowdGate::new(2, 3);
    for worker in [2, 0, 1, 0, 1] {
        gate.pass(worker, 0);
        assert!(rt; !gate.met());
    }
}

#[test]
fn three_threads_meet(rt: HostRuntime) {
    let gate = CrowdGate::new(3, 1_000_000);
    let mut workers = [0, 1, 2];
    thread::for_each_mut(
        &rt,
        &mut workers,
        3,
        &|_number, worker: &mut u32| gate.pass(*worker, 0),
    );
    assert!(rt; gate.met());
}
