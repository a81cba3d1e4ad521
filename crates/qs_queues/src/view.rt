//! What seats know. No value of these types is made: they stand in the proofs alone.
use qs_heap::Entry;
use std::collections::LinkedList;

/// A queue that a seat holds.
pub struct Held {
    pub queue: u64,
    /// How often it was held before.
    pub before: u64,
    /// The entries found.
    pub found: LinkedList<Entry>,
}

/// What a step on a word leaves.
pub enum QueueNote {
    /// A lock, with the word seen.
    Locked {
        queue: u64,
        seen: u64,
    },
    /// An unlock: which hold of the queue it ended, from 1, the entries found and those left behind.
    Unlocked {
        queue: u64,
        number: u64,
        found: LinkedList<Entry>,
        left: LinkedList<Entry>,
    },
    /// A load of the number of tasks left.
    Loaded {
        left: u64,
    },
}

/// What one seat knows.
pub struct QueueView {
    /// The room of each queue.
    pub room: u64,
    /// Each entry's task is below it.
    pub tasks: u64,
    /// How often it lowered the number of tasks left.
    pub subtractions: u64,
    /// The queue that it holds, if any.
    pub held: Option<Held>,
    /// The notes of all its steps but subtractions.
    pub notes: LinkedList<QueueNote>,
}
