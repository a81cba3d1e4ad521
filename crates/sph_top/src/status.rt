//! What the top call answers, and the process's exit status for it.
ghost use Rattle.std.specs.Prelude.{◌≡◌};
ghost use Rattle.sph_top.specs.Lines.{exit_status};

use sph_deck::DeckFault;
use sph_words::WordsFault;

/// The answer of the top call.
#[derive(Clone, Copy, Debug, PartialEq, Eq)]
pub enum Status {
    /// The whole output was written.
    Done,
    /// The words have this fault.
    Usage(WordsFault),
    /// The deck has this fault.
    DeckRefused(DeckFault),
    /// A read of the input failed.
    ReadFault,
    /// A write of the output or of an error line failed.
    WriteFault,
    /// Memory ran out.
    NoMemory,
}

/// The exit status of the process: 0 for Done.
pub fn exit_of(status: &Status) -> u8
    ensures { result ≡ exit_status status.now }
{
    match status {
        Status::Done => 0,
        Status::Usage(_) => 2,
        Status::DeckRefused(_) => 3,
        Status::ReadFault => 4,
        Status::WriteFault => 5,
        Status::NoMemory => 6,
    }
}
