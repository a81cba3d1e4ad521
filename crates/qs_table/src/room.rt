//! What of a table's memory is taken before a block moves.
ghost use Rattle.std.specs.Prelude.{◌≡◌, ◌≤◌, [], length, map, IfOk, vec_capacity};
ghost use Rattle.std.specs.List.{range_with_len};
ghost use Rattle.qs_core.specs.Core.{opening};
ghost use Rattle.qs_core.specs.Shape.{ancestors};

use crate::lines::Lines;
use crate::seat::QsSeat;
use qs_core::{Work, opening_words};
use std::alloc::{AllocError, Global};

/// The cells above each cell, the words at the opening, and empty lists for the blocks and the tokens.
#[derive(Drop)]
pub(crate) struct Room<W: Work> {
    pub(crate) lines: Lines,
    pub(crate) words: Vec<u64>,
    pub(crate) slots: Vec<Option<W::Block>>,
    pub(crate) tokens: Vec<QsSeat<W>>,
}

impl<W: Work> Room<W> {
    /// Room for the table of a work with so many seats.
    pub(crate) fn reserve(alloc: Global, work: &W, seats: u32) -> Result<Room<W>, AllocError>
        ensures lines { IfOk result (λ r. r.lines ≡ map (ancestors (W.shape (W.plan work.now))) (range_with_len 0 (length (W.shape (W.plan work.now)).parents))) }
        ensures words { IfOk result (λ r. r.words.items ≡ (opening (W.shape (W.plan work.now)) 0).words) }
        ensures slots { IfOk result (λ r. (r.slots.items ≡ []) × ((W.shape (W.plan work.now)).leaves ≤ vec_capacity r.slots)) }
        ensures tokens { IfOk result (λ r. (r.tokens.items ≡ []) × (seats ≤ vec_capacity r.tokens)) }
    {
        Ok(Room {
            lines: Lines::of(alloc, work)?,
            words: opening_words(alloc, work)?,
            slots: Vec::with_capacity(alloc, work.leaves() as usize)?,
            tokens: Vec::with_capacity(alloc, seats as usize)?,
        })
    }
}
