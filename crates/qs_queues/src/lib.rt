//! Queues of tasks that threads share, each a heap behind a word, and the number of tasks left.
#![tactic(auto)]

mod answers;
mod held;
mod make;
mod queues;
mod rule;
mod seat;
mod steps;
mod threads;
mod view;

pub use answers::{Push, Scan};
pub use queues::Queues;
pub use rule::{About, QueueRule};
pub use seat::QueueSeat;
pub use threads::{queues_are_sync, seat_is_sent};
pub use view::{Held, QueueNote, QueueView};

#[cfg(test)]
mod tests;
