//! The edge of the program: where bytes come from, and where they go. A source and a sink count their faults, so that an
//! answer can name its cause.
#![tactic(auto)]

mod adapters;
mod growing;
mod memory;
mod traits;
mod whole;

pub use adapters::{StdSink, StdSource};
pub use growing::GrowingSink;
pub use memory::{MemorySink, MemorySource};
pub use traits::{Failed, Sink, Source};
pub use whole::{ReadEnd, read_whole, write_whole};

#[cfg(test)]
mod tests;
