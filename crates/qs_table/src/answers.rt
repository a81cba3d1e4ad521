//! What calls answer.

/// What a try answers.
#[derive(Clone, Copy, Debug, PartialEq, Eq)]
pub enum Try {
    /// The cell, or each cell of the task, is owned.
    Got,
    /// At a step of this try the word of this cell was `seen`: it is a cell that was tried, and `seen` isn't 0, since it or
    /// a cell in it was held; or it is one that contains a tried cell, and `seen` is odd, since it was locked.
    Busy { cell: u32, seen: u64 },
}

/// What a claim answers.
#[derive(Clone, Copy, Debug, PartialEq, Eq)]
pub enum Claim {
    /// The task's word was 0: it is claimed now, and runs.
    Claimed,
    /// The task's word was the number of the edges into it that aren't released.
    Waiting { seen: u64 },
    /// The task was claimed before.
    Taken,
}

/// There was no memory: the blocks come back.
#[derive(Drop)]
pub struct NoRoom<B> {
    pub blocks: Vec<B>,
}
