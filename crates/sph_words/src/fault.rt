//! What may be wrong with the words.
ghost use Rattle.std.specs.Prelude.{◌≡◌};
ghost use Rattle.sph_words.specs.declared.fault.WordsRefusal.TheVariants.{Fault, Memory};

use std::alloc::AllocError;
use thiserror::Error;

/// The first fault of the words.
#[derive(Clone, Copy, Debug, PartialEq, Eq, Error)]
pub enum WordsFault {
    /// They aren't in order, or name no job.
    #[error("no job is named")]
    Usage,
    /// The number of workers isn't 1 to 64.
    #[error("workers must be 1 to 64, not {0}")]
    Workers(u64),
    /// The side isn't 1 to 32.
    #[error("side must be 1 to 32, not {0}")]
    Side(u64),
}

/// Why no job was read.
#[derive(Clone, Copy, Debug, PartialEq, Eq)]
pub enum WordsRefusal {
    /// The words have this fault.
    Fault(WordsFault),
    /// Memory ran out.
    Memory,
}

impl From<WordsFault> for WordsRefusal {
    ghost from_gives = { λ fault refusal. refusal ≡ Fault fault };

    fn from(fault: WordsFault) -> WordsRefusal {
        WordsRefusal::Fault(fault)
    }
}

impl From<AllocError> for WordsRefusal {
    ghost from_gives = { λ _ refusal. refusal ≡ Memory };

    fn from(_error: AllocError) -> WordsRefusal {
        WordsRefusal::Memory
    }
}
