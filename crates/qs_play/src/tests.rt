//! Events on the family of four cells.
ghost use Rattle.std.specs.Prelude.{◌≡◌, false, length};
ghost use Rattle.qs_family.specs.Family.{family};

use crate::{State, play};
use qs_core::{Event, Note, Step, StepKind};
use qs_family::{CELLS, Family, TASKS, THREE};
use std::alloc::{AllocError, Global};
use std::test::Fail;

/// Plays a step on the family.
fn step(
    alloc: Global,
    work: &Family,
    state: &mut State,
    seat: u32,
    step: Step,
) -> Result<bool, AllocError>
    requires { state.old.shape ≡ family work.now.has_tasks work.now.has_third }
    ensures shape { state.new.shape ≡ family work.now.has_tasks work.now.has_third }
    ensures seats { length state.new.core.views ≡ length state.old.core.views }
{
    play(alloc, work, state, Event { seat, step })
}

/// The words of the cells.
fn words(work: &Family, state: &State) -> [u64; 4]
    requires { state.now.shape ≡ family work.now.has_tasks work.now.has_third }
{
    let _ = work;
    [state.word(0), state.word(1), state.word(2), state.word(3)]
}

/// Seat 0 locks a cell and raises the two cells above it: whether each step was allowed.
fn takes(alloc: Global, work: &Family, state: &mut State, cell: u32) -> Result<bool, AllocError>
    requires { state.old.shape ≡ family work.now.has_tasks work.now.has_third }
    ensures shape { state.new.shape ≡ family work.now.has_tasks work.now.has_third }
    ensures seats { length state.new.core.views ≡ length state.old.core.views }
{
    let locked = step(alloc, work, state, 0, Step::Lock { cell })?;
    let parent = step(alloc, work, state, 0, Step::Raise)?;
    let top = step(alloc, work, state, 0, Step::Raise)?;
    Ok(locked && parent && top)
}

/// Seat 0 gives its newest cell back: whether each step was allowed.
fn gives_back(alloc: Global, work: &Family, state: &mut State) -> Result<bool, AllocError>
    requires { state.old.shape ≡ family work.now.has_tasks work.now.has_third }
    ensures shape { state.new.shape ≡ family work.now.has_tasks work.now.has_third }
    ensures seats { length state.new.core.views ≡ length state.old.core.views }
{
    let top = step(alloc, work, state, 0, Step::Lower)?;
    let parent = step(alloc, work, state, 0, Step::Lower)?;
    let unlocked = step(alloc, work, state, 0, Step::Unlock)?;
    Ok(top && parent && unlocked)
}

/// Seat 0 claims a task, and fetches and returns leaf 0: whether each step was allowed.
fn works_on(alloc: Global, work: &Family, state: &mut State, task: u32) -> Result<bool, AllocError>
    requires { state.old.shape ≡ family work.now.has_tasks work.now.has_third }
    ensures shape { state.new.shape ≡ family work.now.has_tasks work.now.has_third }
    ensures seats { length state.new.core.views ≡ length state.old.core.views }
{
    let claimed = step(alloc, work, state, 0, Step::Claim { task })?;
    let fetched = step(alloc, work, state, 0, Step::Fetch { leaf: 0 })?;
    let returned = step(alloc, work, state, 0, Step::Return { leaf: 0 })?;
    Ok(claimed && fetched && returned)
}

/// Plays a step on the cells alone: the words of the cells after it, where it was allowed.
fn leads_to(
    alloc: Global,
    state: &mut State,
    seat: u32,
    next: Step,
) -> Result<Option<[u64; 4]>, AllocError>
    requires { state.old.shape ≡ family false false }
    ensures shape { state.new.shape ≡ family false false }
    ensures seats { length state.new.core.views ≡ length state.old.core.views }
{
    let allowed = step(alloc, &CELLS, state, seat, next)?;
    let after = words(&CELLS, state);
    Ok(if allowed { Some(after) } else { None })
}

/// A note that a seat has.
fn noted(number: u64, kind: StepKind, cell: u32, seen: u64) -> Option<Note> {
    Some(Note {
        number,
        kind,
        cell,
        seen,
    })
}

#[test]
fn a_raise_finds_a_lock_and_gives_way(rt: HostRuntime) -> Result<(), Fail> {
    let alloc = rt.alloc();
    let mut state = State::new(alloc, &CELLS, 3)?;
    let state = &mut state;
    assert_eq!(rt;
        leads_to(alloc, state, 0, Step::Lock { cell: 0 })?,
        Some([1, 0, 0, 0])
    );
    assert!(rt; state.owns(0, 0));
    assert_eq!(rt;
        leads_to(alloc, state, 1, Step::Lock { cell: 2 })?,
        Some([1, 0, 1, 0])
    );
    assert_eq!(rt; leads_to(alloc, state, 1, Step::Raise)?, Some([1, 2, 1, 0]));
    assert_eq!(rt; leads_to(alloc, state, 1, Step::Raise)?, Some([3, 2, 1, 0]));
    assert_eq!(rt; state.note(1), noted(3, StepKind::Raise, 0, 1));
    assert!(rt; !state.owns(1, 2));
    assert_eq!(rt;
        leads_to(alloc, state, 0, Step::Unlock)?,
        Some([2, 2, 1, 0])
    );
    assert_eq!(rt;
        leads_to(alloc, state, 2, Step::Lock { cell: 0 })?,
        Some([2, 2, 1, 0])
    );
    assert_eq!(rt; state.note(2), noted(1, StepKind::Lock, 0, 2));
    assert!(rt; !state.owns(2, 0));
    assert_eq!(rt; leads_to(alloc, state, 1, Step::Lower)?, Some([0, 2, 1, 0]));
    assert_eq!(rt;
        leads_to(alloc, state, 2, Step::Lock { cell: 0 })?,
        Some([1, 2, 1, 0])
    );
    assert!(rt; state.owns(2, 0));
    assert_eq!(rt; leads_to(alloc, state, 1, Step::Lower)?, Some([1, 0, 1, 0]));
    assert_eq!(rt;
        leads_to(alloc, state, 1, Step::Unlock)?,
        Some([1, 0, 0, 0])
    );
    assert!(rt; !step(alloc, &CELLS, state, 1, Step::Raise)?);
    assert_eq!(rt; words(&CELLS, state), [1, 0, 0, 0]);
    assert_eq!(rt; state.note(1), noted(6, StepKind::Unlock, 2, 1));
    Ok(())
}

#[test]
fn one_seat_runs_both_tasks(rt: HostRuntime) -> Result<(), Fail> {
    let alloc = rt.alloc();
    let mut state = State::new(alloc, &TASKS, 1)?;
    let state = &mut state;
    assert_eq!(rt; state.wait(1), 1);
    assert!(rt; takes(alloc, &TASKS, state, 2)?);
    assert!(rt; step(alloc, &TASKS, state, 0, Step::Claim { task: 1 })?);
    assert_eq!(rt; state.note(0), noted(4, StepKind::Claim, 1, 1));
    assert_eq!(rt; state.wait(1), 1);
    assert!(rt; step(alloc, &TASKS, state, 0, Step::Claim { task: 0 })?);
    assert!(rt; step(alloc, &TASKS, state, 0, Step::Fetch { leaf: 0 })?);
    assert!(rt; state.is_out(0));
    assert!(rt; !state.is_done(0, 0));
    assert!(rt; step(alloc, &TASKS, state, 0, Step::Return { leaf: 0 })?);
    assert!(rt; state.is_done(0, 0));
    assert!(rt; step(alloc, &TASKS, state, 0, Step::Release)?);
    assert_eq!(rt; state.wait(1), 0);
    assert!(rt; works_on(alloc, &TASKS, state, 1)?);
    assert!(rt; state.is_done(0, 1));
    assert!(rt; !state.is_out(0));
    assert!(rt; step(alloc, &TASKS, state, 0, Step::Claim { task: 0 })?);
    assert_eq!(rt; state.note(0), noted(12, StepKind::Claim, 0, 1 << 63));
    assert_eq!(rt; state.wait(0), 1 << 63);
    assert_eq!(rt; state.wait(1), 1 << 63);
    assert!(rt; state.is_done(0, 0));
    assert!(rt; !state.is_done(1, 0));
    assert!(rt; gives_back(alloc, &TASKS, state)?);
    assert_eq!(rt; words(&TASKS, state), [0, 0, 0, 0]);
    Ok(())
}

#[test]
fn a_task_on_two_cells_wants_both(rt: HostRuntime) -> Result<(), Fail> {
    let alloc = rt.alloc();
    let mut state = State::new(alloc, &THREE, 1)?;
    let state = &mut state;
    assert_eq!(rt; state.wait(2), 2);
    assert!(rt; takes(alloc, &THREE, state, 2)?);
    assert!(rt; works_on(alloc, &THREE, state, 0)?);
    assert!(rt; step(alloc, &THREE, state, 0, Step::Release)?);
    assert!(rt; step(alloc, &THREE, state, 0, Step::Release)?);
    assert_eq!(rt; state.wait(2), 1);
    assert!(rt; works_on(alloc, &THREE, state, 1)?);
    assert!(rt; step(alloc, &THREE, state, 0, Step::Release)?);
    assert_eq!(rt; state.wait(2), 0);
    assert!(rt; !step(alloc, &THREE, state, 0, Step::Claim { task: 2 })?);
    assert!(rt; takes(alloc, &THREE, state, 3)?);
    assert_eq!(rt; words(&THREE, state), [4, 4, 1, 1]);
    assert!(rt; !step(alloc, &THREE, state, 0, Step::Claim { task: 0 })?);
    assert!(rt; works_on(alloc, &THREE, state, 2)?);
    assert!(rt; state.is_done(0, 2));
    assert!(rt; !state.is_done(1, 2));
    assert!(rt; step(alloc, &THREE, state, 0, Step::Fetch { leaf: 1 })?);
    assert!(rt; step(alloc, &THREE, state, 0, Step::Return { leaf: 1 })?);
    assert!(rt; state.is_done(1, 2));
    assert!(rt; gives_back(alloc, &THREE, state)?);
    assert!(rt; gives_back(alloc, &THREE, state)?);
    assert_eq!(rt; words(&THREE, state), [0, 0, 0, 0]);
    Ok(())
}
