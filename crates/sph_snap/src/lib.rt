//! Snapshots of particles as a stream of bytes: the writer and the reader.
#![tactic(auto)]

mod fault;
mod field;
mod laws;
mod layout;
mod put;
mod read;
mod row;
mod snapshot;

pub use fault::SnapFault;
pub use laws::streams_differ;
pub use layout::END;
pub use put::put_snapshot;
pub use read::read_stream;
pub use snapshot::{RowList, SnapRow, Snapshot};
