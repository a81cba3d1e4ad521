//! Writing an output, and what is answered for it.
ghost use Rattle.std.specs.Prelude.{◌≡◌, ℕ, List, IfOk};
ghost use Rattle.sph_lattice.specs.Lattice.{IsSide};
ghost use Rattle.sph_top.specs.Answers.{change};
ghost use Rattle.sph_top.specs.Output.{stream, text};
ghost use Rattle.sph_top.specs.inner.Steps.{AreWorkers, WritesOutput, WritesSample, run_output, status_at};

use crate::status::Status;
use qs_gate::Gate;
use sph_deck::Deck;
use sph_edge::{Failed, Sink, write_whole};
use sph_lattice::lattice_deck;
use sph_run::{Form, RunEnd, run_plain};
use std::alloc::{AllocError, Global};
use std::thread::Threads;

/// Runs a deck through the graph of its tasks by so many workers, and writes its stream or its summary.
pub fn run<R: Threads + Sync, O: Sink, G: Gate>(
    rt: &R,
    alloc: Global,
    deck: &Deck,
    workers: u32,
    form: Form,
    out: &mut O,
    gate: &G,
) -> Status
    requires { AreWorkers workers }
    ensures { WritesOutput (run_output form deck.now) result (change O.held O.faults out.old out.new) }
{
    status_at(sph_run::run(rt, alloc, deck, workers, form, out, gate))
}

/// Runs a deck by sums over all pairs, and writes its stream.
pub fn plain<O: Sink>(alloc: Global, deck: &Deck, out: &mut O) -> Status
    ensures { WritesOutput (stream deck.now) result (change O.held O.faults out.old out.new) }
{
    status_at(run_plain(alloc, deck, Form::Snapshots, out))
}

/// The answer at the end of a run.
fn status_at(end: RunEnd) -> Status
    ensures { result ≡ status_at end }
{
    match end {
        RunEnd::Done => Status::Done,
        RunEnd::WriteFault => Status::WriteFault,
        RunEnd::Memory => Status::NoMemory,
    }
}

/// Runs a generated deck, and writes its summary.
pub fn sample<R: Threads + Sync, O: Sink, G: Gate>(
    rt: &R,
    alloc: Global,
    side: u32,
    seed: u64,
    workers: u32,
    out: &mut O,
    gate: &G,
) -> Status
    requires side { IsSide side }
    requires workers { AreWorkers workers }
    ensures { WritesSample side seed result (change O.held O.faults out.old out.new) }
{
    match lattice_deck(alloc, side, seed) {
        Ok(deck) => run(rt, alloc, &deck, workers, Form::Summary, out, gate),
        Err(AllocError) => Status::NoMemory,
    }
}

/// Writes a text whole, if there was memory for it.
pub fn write_text<O: Sink>(made: Result<Vec<u8>, AllocError>, out: &mut O) -> Status
    ensures { (whole : List ℕ) → IfOk made (λ bytes. bytes.items ≡ whole)
        → WritesOutput (text whole) result (change O.held O.faults out.old out.new) }
{
    let whole = match made {
        Ok(whole) => whole,
        Err(AllocError) => return Status::NoMemory,
    };
    match write_whole(out, &whole) {
        Ok(()) => Status::Done,
        Err(Failed) => Status::WriteFault,
    }
}
