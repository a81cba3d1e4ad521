//! What a run writes, and how it ends.

/// What a run writes.
#[derive(Clone, Copy, Debug, PartialEq, Eq)]
pub enum Form {
    /// The stream of snapshots.
    Snapshots,
    /// A line of sums for the tick of each snapshot.
    Summary,
}

/// How a run ends.
#[derive(Clone, Copy, Debug, PartialEq, Eq)]
pub enum RunEnd {
    /// All was written.
    Done,
    /// A write failed: some first bytes were written.
    WriteFault,
    /// Memory ran out: what was written ends behind a snapshot or a line.
    Memory,
}
