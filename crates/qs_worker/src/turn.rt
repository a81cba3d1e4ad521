//! What a turn answers.

/// What a turn answers.
#[derive(Clone, Copy, Debug, PartialEq, Eq)]
pub enum Turn {
    /// No task was left.
    Over,
    /// The task was claimed and done.
    Ran(u32),
    /// No task could be claimed.
    Idle,
}
