//! Threads may share queues, and their seats may go to other threads.
use crate::queues::Queues;
use crate::seat::QueueSeat;

fn needs_sync<T: Sync>(_value: &T) {}

fn needs_send<T: Send + Drop>(value: T) {
    drop(value);
}

/// Threads may share queues.
pub fn queues_are_sync(queues: &Queues) {
    needs_sync(queues);
}

/// A seat may go to another thread.
pub fn seat_is_sent(seat: QueueSeat) {
    needs_send(seat);
}
