//! The line that an answer writes on standard error.
ghost use Rattle.std.specs.Prelude.{◌≡◌};
ghost use Rattle.sph_deck.specs.declared.fault.DeckFault.{DeckFault};
ghost use Rattle.sph_report.specs.DeckLines.{NamesKey};
ghost use Rattle.sph_top.specs.Answers.{change};
ghost use Rattle.sph_top.specs.Lines.{error_line};
ghost use Rattle.sph_top.specs.inner.Steps.{IsTold, NamesItsKey, Reports};

use crate::status::Status;
use sph_deck::DeckFault;
use sph_edge::{Failed, Sink, write_whole};
use sph_report::{deck_text, words_text};
use sph_words::WordsFault;
use std::alloc::{AllocError, Global};

/// The line for memory that ran out.
const NO_MEMORY: &[u8] = b"swiftq: no memory\n";

/// Writes the line of a refusal, and answers a write fault where that fails. The lines of a refused deck
/// and of the words' faults take memory: where there is none, the answer is `NoMemory`, with its own line.
#[tactic(auto, unfolding(crate::specs::Lines::error_line))]
pub fn report<E: Sink>(alloc: Global, status: Status, err: &mut E) -> Status
    requires { NamesItsKey status }
    ensures told { Reports status result (change E.held E.faults err.old err.new) }
    ensures untouched { status ≡ Status.Done → err.new ≡ err.old }
{
    match status {
        Status::Done => Status::Done,
        Status::Usage(fault) => report_usage(alloc, fault, err),
        Status::DeckRefused(fault) => report_refused(alloc, fault, err),
        Status::ReadFault => tell(status, b"swiftq: read fault\n", err),
        Status::WriteFault => tell(status, b"swiftq: write fault\n", err),
        Status::NoMemory => tell(status, NO_MEMORY, err),
    }
}

/// The same for a fault of the words.
#[tactic(auto, unfolding(crate::specs::Lines::error_line))]
fn report_usage<E: Sink>(alloc: Global, fault: WordsFault, err: &mut E) -> Status
    ensures { Reports (Status.Usage fault) result (change E.held E.faults err.old err.new) }
{
    match words_text(alloc, &fault) {
        Ok(line) => tell(Status::Usage(fault), &line, err),
        Err(AllocError) => tell(Status::NoMemory, NO_MEMORY, err),
    }
}

/// The same for a refused deck.
#[tactic(auto, unfolding(crate::specs::Lines::error_line))]
fn report_refused<E: Sink>(alloc: Global, fault: DeckFault, err: &mut E) -> Status
    requires { NamesKey fault }
    ensures { Reports (Status.DeckRefused fault) result (change E.held E.faults err.old err.new) }
{
    match deck_text(alloc, &fault) {
        Ok(line) => tell(Status::DeckRefused(fault), &line, err),
        Err(AllocError) => tell(Status::NoMemory, NO_MEMORY, err),
    }
}

/// Writes the answer's line, and answers a write fault where that fails.
fn tell<E: Sink>(status: Status, line: &[u8], err: &mut E) -> Status
    requires refusal { status ≡ Status.Done → ⊥ }
    requires line { line.now ≡ error_line status }
    ensures { IsTold status result (change E.held E.faults err.old err.new) }
{
    match write_whole(err, line) {
        Ok(()) => status,
        Err(Failed) => Status::WriteFault,
    }
}
