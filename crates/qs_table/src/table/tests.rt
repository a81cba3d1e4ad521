//! Tries on the family of four cells, by seats of one thread and of several.
ghost use Rattle.std.specs.Prelude.{◌≡◌, ◌<◌, ◌≤◌, ◌∷◌, [], true, All, IfOk, length, vec_capacity, None, Some};
ghost use Rattle.qs_family.specs.Family.{family};
ghost use Rattle.qs_core.specs.Steps.{started};
ghost use Rattle.qs_table.specs.Seats.{IsSeatOf};
ghost use Rattle.qs_table.specs.Tries.{owned_chain};
ghost use Rattle.qs_table.specs.inner.Tokens.{IsEmptySeat};

use crate::answers::{Claim, Try};
use crate::seat::QsSeat;
use crate::table::ResTable;
use qs_core::Work;
use qs_family::{CELLS, Family, Marks, THREE};
use std::alloc::{AllocError, Global};
use std::test::Fail;
use std::thread;
use std::thread::Threads;

/// A table of the family.
fn opened(
    alloc: Global,
    work: &Family,
    seats: u32,
) -> Result<(ResTable<Family>, Vec<QsSeat<Family>>), AllocError>
    requires seats { (1 ≤ seats) × (seats ≤ 65) }
    ensures table { IfOk result (λ t. (t.0.plan ≡ work.now) × (t.0.seats ≡ seats)) }
    ensures seats { IfOk result (λ t. (length t.1.items ≡ seats) × All (λ s. IsEmptySeat t.0 s) t.1.items) }
{
    let mut blocks = Vec::with_capacity(alloc, 2)?;
    blocks.push(Marks::of(false, false, false))?;
    blocks.push(Marks::of(false, false, false))?;
    match ResTable::new(alloc, work, blocks, seats) {
        Ok(opened) => Ok(opened),
        Err(_) => Err(AllocError),
    }
}

/// A table of the family, and its two seats.
fn opened_for_two(
    alloc: Global,
    work: &Family,
) -> Result<(ResTable<Family>, QsSeat<Family>, QsSeat<Family>), AllocError>
    ensures table { IfOk result (λ t. t.0.plan ≡ work.now) }
    ensures seats { IfOk result (λ t. IsEmptySeat t.0 t.1 × IsEmptySeat t.0 t.2) }
{
    let (table, mut seats) = opened(alloc, work, 2)?;
    let last = seats.pop().unwrap();
    let first = seats.pop().unwrap();
    Ok((table, first, last))
}

/// The word of a cell.
fn word(table: &ResTable<Family>, cell: u32) -> u64
    requires { cell < 4 }
{
    table.table.shared.peek(1 + cell as usize)
}

/// The words of all cells.
fn words(table: &ResTable<Family>) -> [u64; 4] {
    [
        word(table, 0),
        word(table, 1),
        word(table, 2),
        word(table, 3),
    ]
}

/// Tries a cell, and gives it back where it was got: what the try answered.
fn tries(table: &ResTable<Family>, seat: &mut QsSeat<Family>, cell: u32) -> Try
    requires seat { IsEmptySeat table.now seat.old }
    requires cell { cell < 4 }
    ensures { IsEmptySeat table.now seat.new }
{
    let answer = table.try_cell(seat, cell);
    match answer {
        Try::Got => table.give_cell(seat),
        Try::Busy { .. } => {}
    }
    answer
}

/// While one seat has a cell, another tries one: what both were answered, and the words after it.
fn while_held(
    table: &ResTable<Family>,
    holder: &mut QsSeat<Family>,
    held: u32,
    other: &mut QsSeat<Family>,
    tried: u32,
) -> (Try, Try, [u64; 4])
    requires seats { IsEmptySeat table.now holder.old × IsEmptySeat table.now other.old }
    requires cells { (held < 4) × (tried < 4) }
    ensures { IsEmptySeat table.now holder.new × IsEmptySeat table.now other.new }
{
    let first = table.try_cell(holder, held);
    let second = tries(table, other, tried);
    let after = words(table);
    match first {
        Try::Got => table.give_cell(holder),
        Try::Busy { .. } => {}
    }
    (first, second, after)
}

#[test]
fn tries_are_turned_back_by_what_is_held(rt: HostRuntime) -> Result<(), Fail> {
    let (table, mut holder, mut other) = opened_for_two(rt.alloc(), &CELLS)?;
    assert_eq!(rt;
        while_held(&table, &mut holder, 2, &mut other, 0),
        (Try::Got, Try::Busy { cell: 0, seen: 2 }, [2, 2, 1, 0])
    );
    assert_eq!(rt;
        while_held(&table, &mut holder, 2, &mut other, 1),
        (Try::Got, Try::Busy { cell: 1, seen: 2 }, [2, 2, 1, 0])
    );
    assert_eq!(rt;
        while_held(&table, &mut holder, 2, &mut other, 2),
        (Try::Got, Try::Busy { cell: 2, seen: 1 }, [2, 2, 1, 0])
    );
    assert_eq!(rt;
        while_held(&table, &mut holder, 2, &mut other, 3),
        (Try::Got, Try::Got, [2, 2, 1, 0])
    );
    assert_eq!(rt;
        while_held(&table, &mut holder, 0, &mut other, 2),
        (Try::Got, Try::Busy { cell: 0, seen: 1 }, [1, 0, 0, 0])
    );
    assert_eq!(rt; words(&table), [0, 0, 0, 0]);
    Ok(())
}

#[test]
fn a_task_takes_both_its_cells_or_none(rt: HostRuntime) -> Result<(), Fail> {
    let (table, mut holder, mut other) = opened_for_two(rt.alloc(), &THREE)?;
    assert_eq!(rt; table.try_cell(&mut holder, 3), Try::Got);
    assert_eq!(rt;
        table.try_task(&THREE, &mut other, 2),
        Try::Busy { cell: 3, seen: 1 }
    );
    assert_eq!(rt; words(&table), [2, 2, 0, 1]);
    let (fresh, mut seat, _rest) = opened_for_two(rt.alloc(), &THREE)?;
    assert_eq!(rt; fresh.try_task(&THREE, &mut seat, 2), Try::Got);
    assert_eq!(rt; words(&fresh), [4, 4, 1, 1]);
    Ok(())
}

#[test]
fn two_seats_own_cells_that_are_apart(rt: HostRuntime) -> Result<(), Fail> {
    let (table, mut first, mut second) = opened_for_two(rt.alloc(), &CELLS)?;
    assert_eq!(rt; table.try_cell(&mut first, 2), Try::Got);
    assert_eq!(rt; table.try_cell(&mut second, 3), Try::Got);
    let (_first, _second) = table.own_apart(first, second);
    assert_eq!(rt; words(&table), [4, 4, 1, 1]);
    Ok(())
}

/// Does a claimed task on its block, frees the tasks that wait for it, and gives its cell back.
fn works(table: &ResTable<Family>, seat: &mut QsSeat<Family>, task: u32, ready: &mut Vec<u32>)
    requires plan { table.now.plan ≡ record { has_tasks = true; has_third = true } }
    requires seat { IsSeatOf table.now seat.old }
    requires task { task < 2 }
    requires runs { seat.old.view.holds ≡ record { chains = owned_chain (family true true) 2 ∷ []; out = []; running = Some (started (family true true) task) } }
    requires room { (ready.old.items ≡ []) × (2 ≤ vec_capacity ready.old) }
    ensures seat { IsEmptySeat table.now seat.new }
    ensures room { vec_capacity ready.new ≡ vec_capacity ready.old }
{
    let mut blocks = [table.fetch(seat, 0)];
    THREE.apply(task, &mut blocks, &mut []);
    let [block] = blocks;
    table.put_back(seat, 0, block);
    table.release(&THREE, seat, ready);
    table.give_cell(seat);
}

/// Tries the cell of a task and asks for the task: where it is claimed, it is done, and the tasks that it freed stand in the list.
fn asks(
    table: &ResTable<Family>,
    seat: &mut QsSeat<Family>,
    task: u32,
    ready: &mut Vec<u32>,
) -> Option<Claim>
    requires plan { table.now.plan ≡ record { has_tasks = true; has_third = true } }
    requires seat { IsEmptySeat table.now seat.old }
    requires task { task < 2 }
    requires room { 2 ≤ vec_capacity ready.old }
    ensures seat { IsEmptySeat table.now seat.new }
    ensures room { vec_capacity ready.new ≡ vec_capacity ready.old }
{
    ready.clear();
    match table.try_task(&THREE, seat, task) {
        Try::Busy { .. } => return None,
        Try::Got => {}
    }
    let answer = table.claim(seat, task);
    match answer {
        Claim::Claimed => works(table, seat, task, ready),
        Claim::Waiting { .. } | Claim::Taken => table.give_cell(seat),
    }
    Some(answer)
}

#[test]
fn a_task_waits_for_another_on_its_cell(rt: HostRuntime) -> Result<(), Fail> {
    let (table, mut first, mut second) = opened_for_two(rt.alloc(), &THREE)?;
    let mut ready = Vec::with_capacity(rt.alloc(), 2)?;
    assert_eq!(rt;
        asks(&table, &mut first, 1, &mut ready),
        Some(Claim::Waiting { seen: 1 })
    );
    assert_eq!(rt;
        asks(&table, &mut first, 0, &mut ready),
        Some(Claim::Claimed)
    );
    assert_eq!(rt; ready.as_slice(), [1].as_slice());
    assert_eq!(rt;
        asks(&table, &mut second, 1, &mut ready),
        Some(Claim::Claimed)
    );
    assert_eq!(rt; ready.as_slice(), [2].as_slice());
    assert_eq!(rt;
        asks(&table, &mut second, 0, &mut ready),
        Some(Claim::Taken)
    );
    Ok(())
}

/// Tries each cell in turn, again and again.
fn tries_often(table: &ResTable<Family>, seat: &mut QsSeat<Family>, from: usize)
    requires { IsEmptySeat table.now seat.old }
    ensures { IsEmptySeat table.now seat.new }
{
    for round in 0..4000 {
        tries(table, seat, ((from % 4 + round) % 4) as u32);
    }
}

/// Each seat does so in a thread of its own.
fn try_in_threads<R: Threads + Sync>(rt: &R, table: &ResTable<Family>, seats: &mut [QsSeat<Family>])
    requires { All (λ seat. IsEmptySeat table.now seat) seats.old }
    ensures { All (λ seat. IsEmptySeat table.now seat) seats.new }
{
    thread::for_each_mut(
        rt,
        seats,
        4,
        &|number, seat: &mut QsSeat<Family>|
            requires { IsEmptySeat table.now seat.old }
            ensures { IsEmptySeat table.entry.now seat.exit.now }
        {
            tries_often(table, seat, number);
        },
    );
}

#[test]
fn seats_in_threads_leave_the_words_at_0(rt: HostRuntime) -> Result<(), Fail> {
    let (table, mut seats) = opened(rt.alloc(), &THREE, 4)?;
    try_in_threads(&rt, &table, seats.as_mut_slice());
    table.always_apart();
    assert_eq!(rt; words(&table), [0, 0, 0, 0]);
    let mut closed = table.close(seats);
    assert!(rt; !closed.claimed(0) && !closed.claimed(1) && !closed.claimed(2));
    assert_eq!(rt; closed.blocks_mut().len(), 2);
    assert_eq!(rt; closed.into_blocks().len(), 2);
    Ok(())
}
