//! The machine of events as plain data, run by a list of events. The program never runs it: it shows that each allowed event can be played.
#![tactic(auto)]

mod exchange;
mod layout;
mod player;
mod seat;
mod start;
mod state;

pub use player::play;
pub use state::State;

#[cfg(test)]
mod tests;
