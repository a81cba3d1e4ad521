//! A gate at which workers meet.
use crate::gate::Gate;
use std::sync::atomic::{AtomicU64, Ordering};
use std::thread;

/// A gate at which the first workers meet, for tests: each waits in its first pass until all of them have come, for so many
/// turns at most, and yields in each. Every other pass returns at once.
#[derive(Drop)]
pub struct CrowdGate {
    crowd: u64,
    limit: u64,
    came: Workers,
    saw_all: Workers,
}

/// A set of workers below 64, each a bit.
#[derive(Drop)]
struct Workers {
    bits: AtomicU64,
}

impl Workers {
    fn none() -> Workers {
        Workers {
            bits: AtomicU64::new(0),
        }
    }

    /// Adds a worker. The answer is whether it is a new one.
    fn add(&self, bit: u64) -> bool {
        self.bits.fetch_or(bit, Ordering::SeqCst) & bit == 0
    }

    fn are(&self, crowd: u64) -> bool {
        self.bits.load(Ordering::SeqCst) == crowd
    }
}

/// The bits of so many workers, of 64 at most.
fn crowd_of(count: u32) -> u64 {
    if count < 64 {
        (1 << count) - 1
    } else {
        u64::MAX
    }
}

impl CrowdGate {
    /// A gate that nobody has passed, for so many workers, 64 at most, with this limit of turns.
    pub fn new(count: u32, limit: u64) -> CrowdGate {
        CrowdGate {
            crowd: crowd_of(count),
            limit,
            came: Workers::none(),
            saw_all: Workers::none(),
        }
    }

    /// Whether each of them saw, in its first pass, that all had come.
    pub fn met(&self) -> bool {
        self.saw_all.are(self.crowd)
    }

    /// Waits for the others.
    fn meet(&self, bit: u64) {
        for _turn in 0..self.limit {
            if self.came.are(self.crowd) {
                self.saw_all.add(bit);
                return;
            }
            thread::yield_now();
        }
    }
}

impl Gate for CrowdGate {
    fn pass(&self, worker: u32, _task: u32) {
        let bit = if worker < 64 { 1 << worker } else { 0 };
        if self.crowd & bit != 0 && self.came.add(bit) {
            self.meet(bit);
        }
    }
}
