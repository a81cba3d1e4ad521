//! What is scheduled, and the machine of events in definitions and laws: locks on cells in a hierarchy, blocks fetched and returned, tasks claimed and released.
#![tactic(auto)]

mod event;
mod held;
mod laws;
mod ranges;
mod start;
mod work;

pub use event::{CLAIMED, Event, Note, Step, StepKind};
pub use held::Held;
pub use laws::{runs_are_sound, steps_are_sound};
pub use ranges::{LeafRange, ranges_of};
pub use start::opening_words;
pub use work::Work;
