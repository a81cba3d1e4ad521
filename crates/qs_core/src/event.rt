//! The events of the machine: each is one step of one seat on one word.

/// The word of a claimed task: no count of edges reaches it.
pub const CLAIMED: u64 = 1 << 63;

/// A step: one read and write of one word.
#[derive(Clone, Copy, Debug, PartialEq, Eq)]
pub enum Step {
    /// Locks a cell where its word is 0.
    Lock { cell: u32 },
    /// Raises the next ancestor of the newest chain.
    Raise,
    /// Lowers the ancestor that the newest chain raised last.
    Lower,
    /// Unlocks the cell of the newest chain.
    Unlock,
    /// Takes the block of a leaf out.
    Fetch { leaf: u32 },
    /// Brings the block of a leaf home.
    Return { leaf: u32 },
    /// Claims a task where its word is 0.
    Claim { task: u32 },
    /// Releases the next successor of the running task.
    Release,
}

/// The kind of a step.
#[derive(Clone, Copy, Debug, PartialEq, Eq)]
pub enum StepKind {
    Lock,
    Raise,
    Lower,
    Unlock,
    Fetch,
    Return,
    Claim,
    Release,
}

/// A step of a seat.
#[derive(Clone, Copy, Debug, PartialEq, Eq)]
pub struct Event {
    pub seat: u32,
    pub step: Step,
}

/// What a step leaves with its seat.
#[derive(Clone, Copy, Debug, PartialEq, Eq)]
pub struct Note {
    /// The number of the step among those of its seat, from 1.
    pub number: u64,
    pub kind: StepKind,
    /// The cell, leaf or task on whose word the step was made: the ancestor for Raise and Lower, the
    /// successor for Release.
    pub cell: u32,
    /// The word that the step saw.
    pub seen: u64,
}
