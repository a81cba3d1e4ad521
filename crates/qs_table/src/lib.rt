//! The lock table: locks on cells, on words that threads share, under a rule that holds between any two steps.
#![tactic(auto)]

mod answers;
mod closed;
mod lines;
mod room;
mod rule;
mod seat;
mod slots;
mod stowed;
mod table;
mod threads;
mod view;

pub use answers::{Claim, NoRoom, Try};
pub use closed::Closed;
pub use rule::{About, LockRule};
pub use seat::QsSeat;
pub use table::ResTable;
pub use threads::{blocks_are_sent, seat_is_sent, table_is_sync};
pub use view::{Bundle, Fetched, SeatView};
