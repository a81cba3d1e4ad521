//! The heap of tasks by their weights.
ghost use Rattle.std.specs.Prelude.{◌≡◌, ◌≤◌, ◌<◌, ◌+◌, ◌∷◌, ◌++◌, ℕ, None, Some, length, swap_remove, IfOk, IfSome, IfNone, MatchOption, []};
ghost use Rattle.qs_heap.specs.Entries.{AddsEntry, RemovesEntry, entry_at, entry_of};
ghost use Rattle.qs_heap.specs.Heap.{IsHeap};
ghost use Rattle.qs_heap.specs.Moves.{MovesInLine};
ghost use Rattle.qs_heap.specs.Scans.{AllRefused, AreBelow, RefusedBefore, RoseBy, TakesFirst, TriesOnce};

use crate::entry::Entry;
use crate::sift::{move_up, settle};
use crate::trial::Trial;
use std::alloc::{AllocError, Global};
use std::marker::Model;

/// Tasks with their weights, in a list in which no entry goes before the one above it.
#[derive(Debug, Drop)]
pub struct WeightHeap {
    entries: Vec<Entry>,
    room: usize,
}

impl Model for WeightHeap {
    ghost use Rattle.qs_heap.specs.Heap.{Heap};
    ghost use Rattle.qs_heap.specs.inner.Stored.{IsKept};
    ghost use Rattle.std.specs.Prelude.{vec_capacity};

    ghost Value = { Heap };

    ghost view = { λ h. record { entries = h.entries.items; room = h.room } };

    ghost invariant = { λ h. IsKept h.entries.items h.room (vec_capacity h.entries) };
}

impl WeightHeap {
    /// An empty heap with room for so many entries. The error is want of memory.
    pub fn new(alloc: Global, room: usize) -> Result<WeightHeap, AllocError>
        ensures empty { IfOk result (λ heap. heap.entries ≡ []) }
        ensures room { IfOk result (λ heap. heap.room ≡ room) }
    {
        let entries = Vec::with_capacity(alloc, room)?;
        Ok(WeightHeap { entries, room })
    }

    /// How many entries there are.
    pub fn len(&self) -> usize
        ensures len { result ≡ length self.now.entries }
        ensures fits { length self.now.entries ≤ self.now.room }
        ensures heap { IsHeap self.now.entries }
    {
        self.entries.len()
    }

    /// How many entries there is room for.
    pub fn room(&self) -> usize
        ensures { result ≡ self.now.room }
    {
        self.room
    }

    /// The weight and the task at a place of the list.
    pub fn entry(&self, place: usize) -> (u64, u32)
        requires { place < length self.now.entries }
        ensures { entry_of result.0 result.1 ≡ entry_at self.now.entries place }
    {
        let entry = self.entries[place];
        (entry.weight, entry.task)
    }

    /// Adds just one entry: it is put last and moved up while it goes before the one above it. Takes no
    /// memory.
    pub fn push(&mut self, weight: u64, task: u32)
        requires { length self.old.entries < self.old.room }
        ensures added { AddsEntry (entry_of weight task) self.old.entries self.new.entries }
        ensures moved { MovesInLine (self.old.entries ++ entry_of weight task ∷ []) self.new.entries (length self.old.entries) }
        ensures len { length self.new.entries ≡ length self.old.entries + 1 }
        ensures heap { IsHeap self.new.entries }
        ensures room { self.new.room ≡ self.old.room }
    {
        let last = self.entries.len();
        self.entries.push_reserved(Entry { weight, task });
        move_up(&mut self.entries, last);
    }

    /// Tries the entries in the order of the list up to the first that is taken, and removes just that
    /// one: the last entry takes its place and is moved up or down. Takes no memory.
    pub fn scan<T: Trial>(&mut self, trial: &mut T) -> Option<u32>
        requires none { T.taken trial.old ≡ None }
        requires below { AreBelow (T.limit trial.old) self.old.entries }

        // The answer is what the trial has taken. Where that is a task, just its entry is gone.
        ensures answer { result ≡ T.taken trial.new }
        ensures some { IfSome result (λ task.
            TakesFirst (T.refused trial.new) task self.old.entries self.new.entries) }
        ensures none { IfNone result
            (AllRefused (T.refused trial.new) self.old.entries × (self.new ≡ self.old)) }
        ensures tried { TriesOnce (T.refused trial.new) result self.old.entries (T.tries trial.old) (T.tries trial.new) }

        ensures heap { IsHeap self.new.entries }
        ensures room { self.new.room ≡ self.old.room }

        // What the trial was made with stays, and what was refused stays so.
        ensures limit { T.limit trial.new ≡ T.limit trial.old }
        ensures origin { T.origin trial.new ≡ T.origin trial.old }
        ensures kept { (other : ℕ) → T.refused trial.old other → T.refused trial.new other }
    {
        let place = first_taken(&self.entries, trial)?;
        Some(self.remove(place))
    }

    /// Takes out the entry at a place: the last one takes the place and is moved up or down.
    fn remove(&mut self, place: usize) -> u32
        requires { place < length self.old.entries }
        ensures task { result ≡ (entry_at self.old.entries place).task }
        ensures rest { RemovesEntry (entry_at self.old.entries place) self.old.entries self.new.entries }
        ensures moved { MovesInLine (swap_remove self.old.entries place (entry_of 0 0)) self.new.entries place }
        ensures heap { IsHeap self.new.entries }
        ensures room { self.new.room ≡ self.old.room }
    {
        let removed = self.entries.swap_remove(place);
        let left = self.entries.len();
        if place < left {
            settle(&mut self.entries, place);
        }
        removed.task
    }
}

/// The place of the first entry that is taken.
fn first_taken<T: Trial>(entries: &[Entry], trial: &mut T) -> Option<usize>
    requires none { T.taken trial.old ≡ None }
    requires below { AreBelow (T.limit trial.old) entries.now }
    ensures some { IfSome result (λ place. (place < length entries.now)
        × (T.taken trial.new ≡ Some (entry_at entries.now place).task)
        × RefusedBefore (T.refused trial.new) entries.now place) }
    ensures none { IfNone result
        ((T.taken trial.new ≡ None) × AllRefused (T.refused trial.new) entries.now) }
    ensures tried { MatchOption result (RoseBy (length entries.now) (T.tries trial.old) (T.tries trial.new))
        (λ place. RoseBy (place + 1) (T.tries trial.old) (T.tries trial.new)) }
    ensures limit { T.limit trial.new ≡ T.limit trial.old }
    ensures origin { T.origin trial.new ≡ T.origin trial.old }
    ensures kept { (other : ℕ) → T.refused trial.old other → T.refused trial.new other }
{
    for place in 0..entries.len() {
        if trial.try_take(entries[place].task) {
            return Some(place);
        }
    }
    None
}
