//! The state of the machine: a word for each cell, leaf and task, and what each seat holds.
ghost use Rattle.std.specs.Prelude.{◌≡◌, ◌<◌, ◌≤◌, ◌↔◌, length, slice_get, slice_index, IfOk, IsTrue, None, OnErr, OnOk, unwrap_or};
ghost use Rattle.std.specs.List.{Any};
ghost use Rattle.qs_core.specs.Core.{Owns, View, cell_place, leaf_place, task_place, view_at, word_count};
ghost use Rattle.qs_core.specs.Sound.{IsDone};
ghost use Rattle.qs_core.specs.Steps.{IsAllowed};
ghost use Rattle.qs_core.specs.Machine.{IsMachine, made, note_of, played};
ghost use Rattle.qs_core.specs.inner.Held.{RunsOn};

use crate::exchange::{exchanged, kind_of};
use crate::layout::Layout;
use crate::seat::Seat;
use crate::start;
use qs_core::{CLAIMED, Event, Note, Work, opening_words};
use std::alloc::{AllocError, Global};
use std::marker::Model;

/// The state of the machine, with its own copy of the cells, leaves and tasks, and the last note of
/// each seat. A cell's word is its lock bit and twice the number of its raises, a leaf's is 1 while it
/// is out, a task's is the number of edges into it that aren't released, or 2^63 once it is claimed.
#[derive(Drop)]
pub struct State {
    layout: Layout,
    words: Vec<u64>,
    seats: Vec<Seat>,
    notes: Vec<Option<Note>>,
}

impl Model for State {
    ghost use Rattle.qs_core.specs.Machine.{Machine, IsMachine};
    ghost use Rattle.qs_play.specs.inner.Stored.{machine_of};

    ghost Value = { Machine };

    ghost view = { λ s. machine_of s.layout s.words.items s.seats.items s.notes.items };

    ghost invariant = { λ s. IsMachine (machine_of s.layout s.words.items s.seats.items s.notes.items) };
}

impl State {
    /// The opening state for so many seats, which number from 0.
    pub fn new<W: Work>(alloc: Global, work: &W, seats: u32) -> Result<State, AllocError>
        requires { 1 ≤ seats }
        ensures made { IfOk result (λ state. state ≡ made (W.shape (W.plan work.now)) seats) }
        ensures machine { IfOk result (λ state. IsMachine state) }
    {
        let layout = Layout::of(alloc, work)?;
        let words = opening_words(alloc, work)?;
        let empty = start::seats(alloc, seats)?;
        let notes = start::notes(alloc, seats)?;
        Ok(State {
            layout,
            words,
            seats: empty,
            notes,
        })
    }

    /// A word by its place.
    fn word_at(&self, place: usize) -> u64
        requires { place < word_count self.now.shape }
        ensures { result ≡ slice_index self.now.core.words place }
    {
        self.words[place]
    }

    /// What a seat holds.
    fn seat(&self, seat: u32) -> &Seat
        requires { seat < length self.now.core.views }
        ensures { result.now ≡ view_at self.now.core.views seat }
    {
        &self.seats[seat as usize]
    }

    /// The word of a cell.
    pub fn word(&self, cell: u32) -> u64
        requires { cell < length self.now.shape.parents }
        ensures value { result ≡ slice_index self.now.core.words (cell_place self.now.shape cell) }
        ensures machine { IsMachine self.now }
    {
        self.word_at(self.layout.cell_place(cell))
    }

    /// The word of a task.
    pub fn wait(&self, task: u32) -> u64
        requires { task < length self.now.shape.tasks }
        ensures { result ≡ slice_index self.now.core.words (task_place self.now.shape task) }
    {
        self.word_at(self.layout.task_place(task))
    }

    /// Whether a leaf is out.
    pub fn is_out(&self, leaf: u32) -> bool
        requires { leaf < self.now.shape.leaves }
        ensures { IsTrue result ↔ (slice_index self.now.core.words (leaf_place self.now.shape leaf) ≡ 1) }
    {
        self.word_at(self.layout.leaf_place(leaf)) == 1
    }

    /// Whether some seat runs the task with the leaf left.
    fn is_left(&self, leaf: u32, task: u32) -> bool
        ensures { IsTrue result ↔ Any (λ (v : View). RunsOn v.running task leaf) self.now.core.views }
    {
        for seat in &self.seats {
            if seat.runs_on(task, leaf) {
                return true;
            }
        }
        false
    }

    /// Whether a task is done on a leaf.
    pub fn is_done(&self, leaf: u32, task: u32) -> bool
        requires leaf { leaf < self.now.shape.leaves }
        requires task { task < length self.now.shape.tasks }
        ensures { IsTrue result ↔ IsDone self.now.shape self.now.core task leaf }
    {
        self.layout.touches(task, leaf) && self.wait(task) == CLAIMED && !self.is_left(leaf, task)
    }

    /// Whether a seat owns a cell.
    pub fn owns(&self, seat: u32, cell: u32) -> bool
        requires seat { seat < length self.now.core.views }
        requires cell { cell < length self.now.shape.parents }
        ensures { IsTrue result ↔ Owns self.now.shape (view_at self.now.core.views seat) cell }
    {
        self.seat(seat).owns(&self.layout, cell)
    }

    /// The note that the last step of a seat left: none before its first.
    pub fn note(&self, seat: u32) -> Option<Note>
        requires { seat < length self.now.core.views }
        ensures { result ≡ unwrap_or (slice_get self.now.notes seat) None }
    {
        match self.notes.get(seat as usize) {
            Some(note) => *note,
            None => None,
        }
    }

    /// Whether an event is allowed.
    pub(crate) fn may(&self, event: Event) -> bool
        ensures value { IsTrue result ↔ IsAllowed self.now.shape self.now.core event }
        ensures machine { IsMachine self.now }
    {
        (event.seat as usize) < self.seats.len()
            && self.seat(event.seat).may(&self.layout, event.step)
    }

    /// The note that an event leaves.
    fn note_of(&self, event: Event) -> Note
        requires { IsAllowed self.now.shape self.now.core event }
        ensures { result ≡ note_of self.now event }
    {
        let number = match self.note(event.seat) {
            Some(note) => note.number.saturating_add(1),
            None => 1,
        };
        let cell = self.seat(event.seat).object(&self.layout, event.step);
        Note {
            number,
            kind: kind_of(event.step),
            cell,
            seen: self.word_at(self.layout.place(event.step, cell)),
        }
    }

    /// Plays an event that is allowed: the memory for it is taken before the state is changed.
    pub(crate) fn make(&mut self, alloc: Global, event: Event) -> Result<(), AllocError>
        requires { IsAllowed self.old.shape self.old.core event }
        ensures made { OnOk result (self.new ≡ played self.old event) }
        ensures unchanged { OnErr result (self.new ≡ self.old) }
        ensures machine { IsMachine self.new }
    {
        let note = self.note_of(event);
        let seat = event.seat as usize;
        let changed = &mut self.seats[seat];
        changed.make(alloc, &self.layout, event.step, note.seen)?;
        let place = self.layout.place(event.step, note.cell);
        self.words[place] = exchanged(event.step, note.seen);
        self.notes[seat] = Some(note);
        Ok(())
    }
}
