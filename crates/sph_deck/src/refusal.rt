//! Why no deck was read.
ghost use Rattle.std.specs.Prelude.{◌≡◌};
ghost use Rattle.sph_deck.specs.declared.refusal.DeckRefusal.TheVariants.{Fault, Memory};

use crate::fault::DeckFault;
use std::alloc::AllocError;

/// Why no deck was read.
#[derive(Clone, Copy, Debug, PartialEq, Eq)]
pub enum DeckRefusal {
    /// The first fault of the text.
    Fault(DeckFault),
    /// Memory ran out.
    Memory,
}

impl From<DeckFault> for DeckRefusal {
    ghost from_gives = { λ fault refusal. refusal ≡ Fault fault };

    fn from(fault: DeckFault) -> DeckRefusal {
        DeckRefusal::Fault(fault)
    }
}

impl From<AllocError> for DeckRefusal {
    ghost from_gives = { λ _ refusal. refusal ≡ Memory };

    fn from(_error: AllocError) -> DeckRefusal {
        DeckRefusal::Memory
    }
}
