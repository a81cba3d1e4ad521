//! Doing a job, and what is answered for it.
ghost use Rattle.std.specs.Prelude.{◌≡◌, true, false, List};
ghost use Rattle.std.specs.declared.alloc.Global.{Global};
ghost use Rattle.std.specs.Prelude.{String};
ghost use Rattle.sph_top.specs.Answers.{change, IsWithoutFault, IsWithoutOutput, Rests};
ghost use Rattle.sph_top.specs.Words.{NamesJob, reads_deck};
ghost use Rattle.sph_top.specs.inner.Steps.{Follows, HasNumbers, Writes};

use crate::output::{plain, run, sample, write_text};
use crate::status::Status;
use qs_gate::Gate;
use sph_deck::{Deck, DeckFault, DeckRefusal, LONGEST_TEXT, read_deck};
use sph_edge::{ReadEnd, Sink, Source, read_whole};
use sph_lattice::lattice;
use sph_report::{check_text, tree_text};
use sph_run::Form;
use sph_words::Job;
use std::alloc::Global;
use std::thread::Threads;

/// Does the job, on the source where it reads a deck.
pub fn do_job<R: Threads + Sync, S: Source, O: Sink, G: Gate>(
    rt: &R,
    alloc: Global,
    job: Job,
    source: &mut S,
    out: &mut O,
    gate: &G,
) -> Status
    requires numbers { HasNumbers job }
    ensures rests { (words : List (String Global)) → NamesJob words job → Rests result words (change S.left S.faults source.old source.new)
        (change O.held O.faults out.old out.new) }
    ensures unread { reads_deck job ≡ false → source.new ≡ source.old }
    ensures kept { IsWithoutFault result → S.faults source.new ≡ S.faults source.old }
    ensures untouched { IsWithoutOutput result → out.new ≡ out.old }
{
    match job {
        Job::Generate { side, seed } => write_text(lattice(alloc, side, seed), out),
        Job::Sample {
            side,
            seed,
            workers,
        } => sample(rt, alloc, side, seed, workers, out, gate),
        _ => do_on_source(rt, alloc, job, source, out, gate),
    }
}

/// Reads the source whole, and does the job on its deck.
fn do_on_source<R: Threads + Sync, S: Source, O: Sink, G: Gate>(
    rt: &R,
    alloc: Global,
    job: Job,
    source: &mut S,
    out: &mut O,
    gate: &G,
) -> Status
    requires reads { reads_deck job ≡ true }
    requires numbers { HasNumbers job }
    ensures rests { (words : List (String Global)) → NamesJob words job → Rests result words (change S.left S.faults source.old source.new)
        (change O.held O.faults out.old out.new) }
    ensures kept { IsWithoutFault result → S.faults source.new ≡ S.faults source.old }
    ensures untouched { IsWithoutOutput result → out.new ≡ out.old }
{
    match read_whole(alloc, source, LONGEST_TEXT) {
        Ok(bytes) => do_on_text(rt, alloc, job, &bytes, out, gate),
        Err(ReadEnd::TooLong) => Status::DeckRefused(DeckFault::TooLong),
        Err(ReadEnd::Fault) => Status::ReadFault,
        Err(ReadEnd::Memory) => Status::NoMemory,
    }
}

/// Reads a deck, and does the job on it where it is accepted.
pub fn do_on_text<R: Threads + Sync, O: Sink, G: Gate>(
    rt: &R,
    alloc: Global,
    job: Job,
    bytes: &[u8],
    out: &mut O,
    gate: &G,
) -> Status
    requires reads { reads_deck job ≡ true }
    requires numbers { HasNumbers job }
    ensures follows { Follows job bytes.now result (change O.held O.faults out.old out.new) }
    ensures untouched { IsWithoutOutput result → out.new ≡ out.old }
{
    match read_deck(alloc, bytes) {
        Ok(deck) => write_output(rt, alloc, job, &deck, out, gate),
        Err(DeckRefusal::Fault(fault)) => Status::DeckRefused(fault),
        Err(DeckRefusal::Memory) => Status::NoMemory,
    }
}

/// Writes the job's output for the deck that it read.
fn write_output<R: Threads + Sync, O: Sink, G: Gate>(
    rt: &R,
    alloc: Global,
    job: Job,
    deck: &Deck,
    out: &mut O,
    gate: &G,
) -> Status
    requires reads { reads_deck job ≡ true }
    requires numbers { HasNumbers job }
    ensures { Writes job (λ d. d ≡ deck.now) result (change O.held O.faults out.old out.new) }
{
    match job {
        Job::Run { workers } => run(rt, alloc, deck, workers, Form::Snapshots, out, gate),
        Job::Plain => plain(alloc, deck, out),
        Job::Check => write_text(check_text(alloc, deck), out),
        Job::Tree => write_text(tree_text(alloc, deck), out),
        Job::Generate { .. } | Job::Sample { .. } => unreachable!(),
    }
}
