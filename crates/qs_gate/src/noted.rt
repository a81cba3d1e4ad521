//! A gate that keeps a list.
use crate::gate::Gate;
use std::alloc::{AllocError, Global};
use std::sync::atomic::{AtomicU32, AtomicUsize, Ordering};

/// A pass of a gate.
#[derive(Clone, Copy, Debug, PartialEq, Eq)]
pub struct Pass {
    pub worker: u32,
    pub task: u32,
}

/// A gate that lists its passes in their order, for tests.
#[derive(Drop)]
pub struct LogGate {
    count: AtomicUsize,
    places: Vec<Place>,
}

/// A place of the list.
#[derive(Drop)]
struct Place {
    worker: AtomicU32,
    task: AtomicU32,
}

impl Place {
    fn new() -> Place {
        Place {
            worker: AtomicU32::new(0),
            task: AtomicU32::new(0),
        }
    }

    fn pass(&self) -> Pass {
        Pass {
            worker: self.worker.load(Ordering::SeqCst),
            task: self.task.load(Ordering::SeqCst),
        }
    }
}

impl LogGate {
    /// A gate that nobody has passed, with room for so many passes. The error is want of memory.
    pub fn new(alloc: Global, room: usize) -> Result<LogGate, AllocError> {
        let places = (0..room).map(|_| Place::new()).collect(alloc)?;
        Ok(LogGate {
            count: AtomicUsize::new(0),
            places,
        })
    }

    /// The passes in their order, or the first of them where there was no room for more. It is asked after the workers have
    /// stopped.
    pub fn passes(&self, alloc: Global) -> Result<Vec<Pass>, AllocError> {
        let count = self.count.load(Ordering::SeqCst);
        self.places
            .iter()
            .take(count)
            .map(|place: &Place| place.pass())
            .collect(alloc)
    }
}

impl Gate for LogGate {
    fn pass(&self, worker: u32, task: u32) {
        let number = self.count.fetch_add(1, Ordering::SeqCst);
        if let Some(place) = self.places.get(number) {
            place.worker.store(worker, Ordering::SeqCst);
            place.task.store(task, Ordering::SeqCst);
        }
    }
}
