//! What a gate is, and the program's.

/// A gate that each worker passes with each task that it claimed. It promises nothing: tests see by it
/// that workers work.
pub trait Gate: Sync {
    fn pass(&self, worker: u32, task: u32);
}

/// The gate of the program, which does nothing.
#[derive(Clone, Copy, Debug, PartialEq, Eq)]
pub struct NoGate;

impl Gate for NoGate {
    fn pass(&self, _worker: u32, _task: u32) {}
}
