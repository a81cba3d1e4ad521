//! A gate that sees how much was done before each pass.

use crate::tests::free::FreeTasks;
use qs_gate::Gate;
use std::sync::atomic::{AtomicU64, Ordering};

/// A gate that wants no more tasks done at a pass than there were passes before. It counts its passes, and those at which
/// more were done.
#[derive(Drop)]
pub(crate) struct BeforeGate<'a> {
    work: &'a FreeTasks,
    passes: AtomicU64,
    late: AtomicU64,
}

impl<'a> BeforeGate<'a> {
    pub(crate) fn new(work: &'a FreeTasks) -> BeforeGate<'a> {
        BeforeGate {
            work,
            passes: AtomicU64::new(0),
            late: AtomicU64::new(0),
        }
    }

    /// How often it was passed, and how often too late.
    pub(crate) fn counts(&self) -> (u64, u64) {
        (
            self.passes.load(Ordering::SeqCst),
            self.late.load(Ordering::SeqCst),
        )
    }
}

impl<'a> Gate for BeforeGate<'a> {
    fn pass(&self, _worker: u32, _task: u32) {
        // First what is done: between the two other workers may pass, and do their tasks.
        let done = self.work.done();
        let passes = self.passes.fetch_add(1, Ordering::SeqCst);
        if done > passes {
            self.late.fetch_add(1, Ordering::SeqCst);
        }
    }
}
