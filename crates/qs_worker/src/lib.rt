//! Workers: each looks through queues for tasks of a work that it can claim on the lock table, and does those that it claims.
#![tactic(auto)]

mod buffers;
mod claimed;
mod crew;
mod leaves;
mod offers;
mod rounds;
mod shares;
mod threads;
mod trial;
mod turn;
mod worker;

pub use crew::{Crew, NoCrew};
pub use threads::worker_is_sent;
pub use turn::Turn;
pub use worker::{NoWorker, Worker};

#[cfg(test)]
mod tests;
