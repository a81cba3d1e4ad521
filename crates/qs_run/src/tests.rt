//! Small works, by one worker and by several: tasks of which each waits for those before it, and tasks that wait for none.
ghost use Rattle.std.specs.Prelude.{◌≡◌, ◌≤◌, ◌∷◌, [], false, IfOk};

mod free;
mod gates;

use crate::graph::{close_run, man};
use crate::run_graph;
use crate::tests::free::{FreeTasks, Tally, tallies};
use crate::tests::gates::BeforeGate;
use qs_family::{CELLS, Family, Marks, THREE};
use qs_gate::{CountGate, CrowdGate, Gate, LogGate, Pass};
use qs_table::ResTable;
use std::alloc::{AllocError, Global};
use std::test::Fail;
use std::thread::Threads;

/// Blocks of the family on which nothing is done.
fn fresh(alloc: Global) -> Result<Vec<Marks>, AllocError>
    ensures { IfOk result (λ v. v.items ≡ record { zeroth = false; first = false; second = false } ∷ record { zeroth = false; first = false; second = false } ∷ []) }
{
    let blocks = vec![in alloc;
        Marks::of(false, false, false),
        Marks::of(false, false, false),
    ]?;
    Ok(blocks)
}

/// What a run of the family by so many workers leaves of blocks on which nothing is done.
fn ran<R: Threads + Sync, G: Gate>(
    rt: &R,
    alloc: Global,
    work: &Family,
    workers: u32,
    gate: &G,
) -> Result<Vec<Marks>, AllocError>
    requires { (1 ≤ workers) × (workers ≤ 64) }
{
    let blocks = fresh(alloc)?;
    run_graph(rt, alloc, work, blocks, workers, gate).map_err(|_| AllocError)
}

/// The blocks on which all three tasks of the family are done.
fn all_done() -> [Marks; 2] {
    [Marks::of(true, true, true), Marks::of(false, false, true)]
}

/// The passes of a worker, with these tasks.
fn passes(worker: u32, tasks: [u32; 3]) -> [Pass; 3] {
    let [first, second, third] = tasks;
    [
        Pass {
            worker,
            task: first,
        },
        Pass {
            worker,
            task: second,
        },
        Pass {
            worker,
            task: third,
        },
    ]
}

#[test]
fn tasks_in_a_row_are_done_in_their_order(rt: HostRuntime) -> Result<(), Fail> {
    let gate = LogGate::new(rt.alloc(), 4)?;
    let blocks = ran(&rt, rt.alloc(), &THREE, 1, &gate)?;
    assert_eq!(rt; blocks.as_slice(), all_done().as_slice());
    assert_eq!(rt;
        gate.passes(rt.alloc())?.as_slice(),
        passes(0, [0, 1, 2]).as_slice()
    );
    Ok(())
}

#[test]
fn several_workers_do_each_task_once(rt: HostRuntime) -> Result<(), Fail> {
    for workers in [2, 3, 64] {
        let gate = CountGate::new();
        let blocks = ran(&rt, rt.alloc(), &THREE, workers, &gate)?;
        assert_eq!(rt; blocks.as_slice(), all_done().as_slice());
        assert_eq!(rt; gate.passes(), 3);
    }
    Ok(())
}

#[test]
fn without_tasks_nothing_is_done(rt: HostRuntime) -> Result<(), Fail> {
    let gate = CountGate::new();
    let blocks = ran(&rt, rt.alloc(), &CELLS, 2, &gate)?;
    assert_eq!(rt; blocks.as_slice(), fresh(rt.alloc())?.as_slice());
    assert_eq!(rt; gate.passes(), 0);
    Ok(())
}

/// What a run of the free tasks by so many workers leaves of blocks on which nothing is done.
fn ran_free<R: Threads + Sync, G: Gate>(
    rt: &R,
    alloc: Global,
    work: &FreeTasks,
    workers: u32,
    gate: &G,
) -> Result<Vec<Tally>, AllocError>
    requires { (1 ≤ workers) × (workers ≤ 64) }
{
    let blocks = tallies(alloc, 0)?;
    run_graph(rt, alloc, work, blocks, workers, gate).map_err(|_| AllocError)
}

#[test]
fn free_tasks_are_done_once(rt: HostRuntime) -> Result<(), Fail> {
    for workers in [1, 2, 3, 64] {
        let work = FreeTasks::new();
        let gate = CountGate::new();
        let blocks = ran_free(&rt, rt.alloc(), &work, workers, &gate)?;
        assert_eq!(rt; blocks.as_slice(), tallies(rt.alloc(), 1)?.as_slice());
        assert_eq!(rt; (gate.passes(), work.done()), (3, 3));
    }
    Ok(())
}

#[test]
fn one_worker_does_the_heavier_tasks_first(rt: HostRuntime) -> Result<(), Fail> {
    let gate = LogGate::new(rt.alloc(), 4)?;
    let _blocks = ran_free(&rt, rt.alloc(), &FreeTasks::new(), 1, &gate)?;
    assert_eq!(rt;
        gate.passes(rt.alloc())?.as_slice(),
        passes(0, [1, 0, 2]).as_slice()
    );
    Ok(())
}

/// Each of three workers waits with its task until the others have theirs, so each does one and none is left.
#[test]
fn three_workers_are_at_work_at_once(rt: HostRuntime) -> Result<(), Fail> {
    let work = FreeTasks::new();
    let gate = CrowdGate::new(3, 10_000_000);
    let _blocks = ran_free(&rt, rt.alloc(), &work, 3, &gate)?;
    assert!(rt; gate.met());
    assert_eq!(rt; work.done(), 3);
    Ok(())
}

#[test]
fn the_gate_is_passed_before_the_task_is_done(rt: HostRuntime) -> Result<(), Fail> {
    for workers in [1, 3] {
        let work = FreeTasks::new();
        let gate = BeforeGate::new(&work);
        let _blocks = ran_free(&rt, rt.alloc(), &work, workers, &gate)?;
        assert_eq!(rt; gate.counts(), (3, 0));
    }
    Ok(())
}

/// What is done of the free tasks where neither of two workers worked.
fn left_over<G: Gate>(alloc: Global, work: &FreeTasks, gate: &G) -> Result<Vec<Tally>, AllocError> {
    let blocks = tallies(alloc, 0)?;
    let (table, seats) = ResTable::new(alloc, work, blocks, 2).map_err(|_| AllocError)?;
    let Ok((_queues, crew)) = man(alloc, work, &table, seats) else {
        return Err(AllocError);
    };
    Ok(close_run(work, table, crew, gate))
}

/// By number and not by weight, with the number behind the workers'.
#[test]
fn what_no_worker_claimed_is_done_in_order(rt: HostRuntime) -> Result<(), Fail> {
    let gate = LogGate::new(rt.alloc(), 4)?;
    let blocks = left_over(rt.alloc(), &FreeTasks::new(), &gate)?;
    assert_eq!(rt; blocks.as_slice(), tallies(rt.alloc(), 1)?.as_slice());
    assert_eq!(rt;
        gate.passes(rt.alloc())?.as_slice(),
        passes(2, [0, 1, 2]).as_slice()
    );
    Ok(())
}

#[test]
fn the_rest_passes_the_gate_before_each_task(rt: HostRuntime) -> Result<(), Fail> {
    let work = FreeTasks::new();
    let gate = BeforeGate::new(&work);
    let _blocks = left_over(rt.alloc(), &work, &gate)?;
    assert_eq!(rt; gate.counts(), (3, 0));
    Ok(())
}
