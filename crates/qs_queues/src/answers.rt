//! What calls answer.

/// What a push answers.
#[derive(Clone, Copy, Debug, PartialEq, Eq)]
pub enum Push {
    /// The entry is in the queue.
    In,
    /// The queue was held: its word was `seen`.
    Held { seen: u64 },
    /// There was no room.
    Full,
}

/// What a scan answers.
#[derive(Clone, Copy, Debug, PartialEq, Eq)]
pub enum Scan {
    /// The task was taken.
    Got(u32),
    /// The queue was held: its word was `seen`.
    Held { seen: u64 },
    /// There was no entry.
    Empty,
    /// There were entries, and each was refused.
    AllBusy,
}
