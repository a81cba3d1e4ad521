//! The words that the program is started with: the job that they name, or their first fault.
#![tactic(auto)]

mod ask;
mod fault;
mod job;
mod number;
mod order;
mod read;
mod table;

pub use fault::{WordsFault, WordsRefusal};
pub use job::Job;
pub use read::read_words;

#[cfg(test)]
mod tests;
