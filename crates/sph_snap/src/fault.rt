//! What the reader of a stream refuses.
ghost use Rattle.std.specs.Prelude.{◌≡◌};
ghost use Rattle.sph_snap.specs.declared.fault.SnapFault.TheVariants.{Memory};

use std::alloc::{AllocError, AllocFailed};
use thiserror::Error;

/// The first place at which bytes cease to be a stream, as an offset from their begin.
#[derive(Clone, Copy, Debug, PartialEq, Eq, Error)]
pub enum SnapFault {
    /// The eight bytes here are no mark that may stand here.
    #[error("no mark at byte {0}")]
    Magic(usize),
    /// The mark or the field that begins here is cut off.
    #[error("cut off at byte {0}")]
    Short(usize),
    /// The number of the field that begins here is out of its range.
    #[error("out of range at byte {0}")]
    Range(usize),
    /// Bytes follow the end mark from here on.
    #[error("bytes behind the end at byte {0}")]
    Trailing(usize),
    /// Memory ran out.
    #[error("no memory")]
    Memory,
}

impl From<AllocError> for SnapFault {
    ghost from_gives = { λ _ fault. fault ≡ Memory };

    fn from(_error: AllocError) -> SnapFault {
        SnapFault::Memory
    }
}

impl<T: Drop> From<AllocFailed<T>> for SnapFault {
    ghost from_gives = { λ _ fault. fault ≡ Memory };

    fn from(_error: AllocFailed<T>) -> SnapFault {
        SnapFault::Memory
    }
}
