//! A gate that counts.
use crate::gate::Gate;
use std::sync::atomic::{AtomicU64, Ordering};

/// A gate that counts its passes, for tests. Past 2^64 - 1 a count begins again at 0.
#[derive(Drop)]
pub struct CountGate {
    all: AtomicU64,
    of_first: AtomicU64,
}

impl CountGate {
    /// A gate that nobody has passed.
    pub fn new() -> CountGate {
        CountGate {
            all: AtomicU64::new(0),
            of_first: AtomicU64::new(0),
        }
    }

    /// How often it was passed.
    pub fn passes(&self) -> u64 {
        self.all.load(Ordering::SeqCst)
    }

    /// How often worker 0 passed it.
    pub fn firsts(&self) -> u64 {
        self.of_first.load(Ordering::SeqCst)
    }
}

impl Gate for CountGate {
    fn pass(&self, worker: u32, _task: u32) {
        self.all.fetch_add(1, Ordering::SeqCst);
        if worker == 0 {
            self.of_first.fetch_add(1, Ordering::SeqCst);
        }
    }
}
