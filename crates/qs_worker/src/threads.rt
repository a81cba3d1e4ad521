//! A worker may go to another thread.
use crate::worker::Worker;
use qs_core::Work;

fn needs_send<T: Send + Drop>(value: T) {
    drop(value);
}

/// A worker may go to another thread, where its work may be shared and its blocks sent.
pub fn worker_is_sent<W: Work + Sync>(worker: Worker<W>)
where
    W::Block: Send,
{
    needs_send(worker);
}
