//! A whole run, whatever takes it from step to step.
ghost use Rattle.std.specs.Prelude.{◌≡◌, ◌≤◌, IfOk, OnErr, OnOk};
ghost use Rattle.std.specs.Io.KnownBytes.{Appends};
ghost use Rattle.sph_bins.specs.Bins.{IsDue, IsStepTick};
ghost use Rattle.sph_edge.specs.Bytes.{AppendsPrefix};
ghost use Rattle.sph_edge.specs.Causes.{HasCause, Rose};
ghost use Rattle.sph_plain.specs.Run.{after, before};
ghost use Rattle.sph_run.specs.Stream.{AppendsPiecesIn, IsSnapshotTick, output_in};
ghost use Rattle.sph_run.specs.inner.Pieces.{end_of, piece_at};
ghost use Rattle.sph_run.specs.inner.Steps.{TakesSteps};

use crate::form::{Form, RunEnd};
use qs_gate::Gate;
use sph_bins::next_tick;
use sph_deck::Deck;
use sph_edge::{Failed, Sink, write_whole};
use sph_num::Particle;
use sph_plain::{PlainSteps, start};
use sph_report::summary_line;
use sph_snap::{END, put_snapshot};
use sph_step::GraphSteps;
use std::alloc::{AllocError, Global};
use std::thread::Threads;

/// Runs a deck through the graph of tasks by so many workers, 1 to 64, and writes its stream or its summary:
/// each snapshot, each line and the end mark is one piece. Each worker passes the gate with each of its tasks.
pub fn run<R: Threads + Sync, O: Sink, G: Gate>(
    rt: &R,
    alloc: Global,
    deck: &Deck,
    workers: u32,
    form: Form,
    out: &mut O,
    gate: &G,
) -> RunEnd
    requires some { 1 ≤ workers }
    requires most { workers ≤ 64 }
    ensures done { result ≡ RunEnd.Done → Appends (O.held out.old) (O.held out.new) (output_in form deck.now) }
    ensures write_fault { result ≡ RunEnd.WriteFault → Rose (O.faults out.old) (O.faults out.new) }
    ensures write_fault_output { result ≡ RunEnd.WriteFault → AppendsPrefix (O.held out.old) (O.held out.new) (output_in form deck.now) }
    ensures memory { result ≡ RunEnd.Memory → AppendsPiecesIn form deck.now (O.held out.old) (O.held out.new) }
    ensures kept { (result ≡ RunEnd.WriteFault → ⊥) → O.faults out.new ≡ O.faults out.old }
{
    let Ok(steps) = GraphSteps::new(alloc) else {
        return RunEnd::Memory;
    };
    let step = |particles: &mut Vec<Particle>, t: u32| -> Result<(), AllocError>
        requires workers { (1 ≤ workers) × (workers ≤ 64) }
        requires tick { IsStepTick deck.now.params t }
        requires before { particles.old.items ≡ before deck.now t }
    { steps.step(rt, alloc, deck, particles, t, workers, gate) };
    run_by(alloc, deck, form, step, out)
}

/// Runs a deck on the calling thread by sums over all pairs, and writes what `run` writes.
pub fn run_plain<O: Sink>(alloc: Global, deck: &Deck, form: Form, out: &mut O) -> RunEnd
    ensures done { result ≡ RunEnd.Done → Appends (O.held out.old) (O.held out.new) (output_in form deck.now) }
    ensures write_fault { result ≡ RunEnd.WriteFault → Rose (O.faults out.old) (O.faults out.new) }
    ensures write_fault_output { result ≡ RunEnd.WriteFault → AppendsPrefix (O.held out.old) (O.held out.new) (output_in form deck.now) }
    ensures memory { result ≡ RunEnd.Memory → AppendsPiecesIn form deck.now (O.held out.old) (O.held out.new) }
    ensures kept { (result ≡ RunEnd.WriteFault → ⊥) → O.faults out.new ≡ O.faults out.old }
{
    let Ok(steps) = PlainSteps::new(alloc) else {
        return RunEnd::Memory;
    };
    let step = |particles: &mut Vec<Particle>, t: u32| -> Result<(), AllocError>
        requires tick { IsStepTick deck.now.params t }
        requires before { particles.old.items ≡ before deck.now t }
    { steps.step(alloc, deck, particles, t) };
    run_by(alloc, deck, form, step, out)
}

/// Runs a deck by what takes its list through a step, and writes its stream or its summary.
fn run_by<F: Fn(&mut Vec<Particle>, u32) -> Result<(), AllocError>, O: Sink>(
    alloc: Global,
    deck: &Deck,
    form: Form,
    step: F,
    out: &mut O,
) -> RunEnd
    requires { TakesSteps deck.now (F.pre step) (F.post step) }
    ensures done { result ≡ RunEnd.Done → Appends (O.held out.old) (O.held out.new) (output_in form deck.now) }
    ensures write_fault { result ≡ RunEnd.WriteFault → Rose (O.faults out.old) (O.faults out.new) }
    ensures write_fault_output { result ≡ RunEnd.WriteFault → AppendsPrefix (O.held out.old) (O.held out.new) (output_in form deck.now) }
    ensures memory { result ≡ RunEnd.Memory → AppendsPiecesIn form deck.now (O.held out.old) (O.held out.new) }
    ensures kept { (result ≡ RunEnd.WriteFault → ⊥) → O.faults out.new ≡ O.faults out.old }
{
    let Ok(mut particles) = start(alloc, deck) else {
        return RunEnd::Memory;
    };
    let pieces = deck.params.ticks / deck.params.every + 1;
    let mut next = 0;
    for k in 0..pieces {
        let tick = k * deck.params.every;
        let Ok(bytes) = piece_bytes(&step, alloc, deck, form, &mut particles, next, tick) else {
            return RunEnd::Memory;
        };
        let Ok(()) = write_whole(out, &bytes) else {
            return RunEnd::WriteFault;
        };
        next = next_tick(tick, deck.params.bin_min);
    }
    match write_end(form, out) {
        Ok(()) => RunEnd::Done,
        Err(Failed) => RunEnd::WriteFault,
    }
}

/// Writes what follows the last piece.
fn write_end<O: Sink>(form: Form, out: &mut O) -> Result<(), Failed>
    ensures all { OnOk result (Appends (O.held out.old) (O.held out.new) (end_of form)) }
    ensures some { OnErr result (AppendsPrefix (O.held out.old) (O.held out.new) (end_of form)) }
    ensures cause { HasCause (O.faults out.old) (O.faults out.new) result }
{
    match form {
        Form::Snapshots => write_whole(out, &END),
        Form::Summary => Ok(()),
    }
}

/// Steps the list, which stands before the step at tick `next`, through the tick of a snapshot, and
/// gives the bytes of the snapshot or of the line there.
fn piece_bytes<F: Fn(&mut Vec<Particle>, u32) -> Result<(), AllocError>>(
    step: &F,
    alloc: Global,
    deck: &Deck,
    form: Form,
    particles: &mut Vec<Particle>,
    next: u32,
    tick: u32,
) -> Result<Vec<u8>, AllocError>
    requires steps { TakesSteps deck.now (F.pre step.now) (F.post step.now) }
    requires before { particles.old.items ≡ before deck.now next }
    requires due { IsDue next deck.now.params.bin_min }
    requires order { next ≤ tick }
    requires tick { IsSnapshotTick deck.now.params tick }
    ensures bytes { IfOk result (λ bytes. bytes.items ≡ piece_at form deck.now tick) }
    ensures after { OnOk result (particles.new.items ≡ after deck.now tick) }
{
    step_through(step, deck, particles, next, tick)?;
    match form {
        Form::Snapshots => put_snapshot(alloc, tick, particles),
        Form::Summary => summary_line(alloc, tick, particles),
    }
}

/// Takes each step from tick `next`, before which the list stands, through tick `last`.
fn step_through<F: Fn(&mut Vec<Particle>, u32) -> Result<(), AllocError>>(
    step: &F,
    deck: &Deck,
    particles: &mut Vec<Particle>,
    next: u32,
    last: u32,
) -> Result<(), AllocError>
    requires steps { TakesSteps deck.now (F.pre step.now) (F.post step.now) }
    requires before { particles.old.items ≡ before deck.now next }
    requires due { IsDue next deck.now.params.bin_min }
    requires order { next ≤ last }
    requires last { IsStepTick deck.now.params last }
    ensures after { OnOk result (particles.new.items ≡ after deck.now last) }
{
    let mut tick = next;
    while tick <= last {
        step(particles, tick)?;
        tick = next_tick(tick, deck.params.bin_min);
    }
    Ok(())
}
