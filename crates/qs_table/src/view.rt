//! What seats know. No value of these types is made: they stand in the proofs alone.
use qs_core::{Held, Note};
use std::collections::LinkedList;

/// A leaf that is out, with the tasks that were done on its block at the fetch.
pub struct Fetched {
    pub leaf: u32,
    pub done: LinkedList<u32>,
}

/// What one seat knows.
pub struct SeatView {
    /// Its number among the seats of the table.
    pub place: u32,
    /// What it holds.
    pub holds: Held,
    /// The notes of all its steps.
    pub notes: LinkedList<Note>,
    /// The leaves that it has out, the newest first.
    pub fetched: LinkedList<Fetched>,
    /// The leaf whose slot it has at hand: none between calls.
    pub hand: Option<u32>,
}

/// Seats of one table: one in each token, and several while they are dealt or gathered.
pub struct Bundle<P> {
    /// None where the seats went into another bundle.
    pub plan: Option<P>,
    pub seats: LinkedList<SeatView>,
}
