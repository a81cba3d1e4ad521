//! A run from bytes to bytes, for another program to call.
ghost use Rattle.sph_top.specs.Headline.{Headline};

use crate::job::do_on_text;
use crate::status::Status;
use qs_gate::{Gate, NoGate};
use sph_deck::DeckFault;
use sph_edge::GrowingSink;
use sph_words::Job;
use std::alloc::Global;
use std::thread::Threads;

/// Why a run gives no stream.
#[derive(Clone, Copy, Debug, PartialEq, Eq)]
pub enum RunRefusal {
    /// The deck has this fault.
    DeckRefused(DeckFault),
    /// Memory ran out.
    NoMemory,
}

/// Runs a deck's text and gives the stream, as the job `run` does, by its graph of tasks, of which no clause speaks. For 0
/// workers 1 is taken, and for more than 64 it is 64.
pub fn run_bytes<R: Threads + Sync>(
    rt: &R,
    alloc: Global,
    text: &[u8],
    workers: u32,
) -> Result<Vec<u8>, RunRefusal>
    ensures headline { Headline text.now result }
{
    run_bytes_past(rt, alloc, text, workers, &NoGate)
}

/// The same, past a gate.
pub(crate) fn run_bytes_past<R: Threads + Sync, G: Gate>(
    rt: &R,
    alloc: Global,
    text: &[u8],
    workers: u32,
    gate: &G,
) -> Result<Vec<u8>, RunRefusal>
    ensures headline { Headline text.now result }
{
    let job = Job::Run {
        workers: workers.clamp(1, 64),
    };
    let mut stream = GrowingSink::new(alloc);
    match do_on_text(rt, alloc, job, text, &mut stream, gate) {
        Status::Done => Ok(stream.into_held()),
        Status::DeckRefused(fault) => Err(RunRefusal::DeckRefused(fault)),

        // The one write fault of this sink is want of memory.
        Status::WriteFault | Status::NoMemory => Err(RunRefusal::NoMemory),
        Status::Usage(_) | Status::ReadFault => unreachable!(),
    }
}
