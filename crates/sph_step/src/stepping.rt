//! One step of a run.
ghost use Rattle.std.specs.Prelude.{◌≡◌, ◌≤◌, OnErr, OnOk};
ghost use Rattle.sph_bins.specs.Bins.{IsStepTick};
ghost use Rattle.sph_plain.specs.Run.{after, before};
ghost use Rattle.sph_step.specs.inner.Shares.{threads_for, workers_for};

use crate::blocks::blocks_of;
use crate::gathering::gather;
use crate::preparing::stage_of;
use qs_core::Work;
use qs_gate::Gate;
use qs_run::run_graph;
use sph_deck::Deck;
use sph_num::{Particle, Tables};
use std::alloc::{AllocError, Global};
use std::sync::Arc;
use std::thread::Threads;

/// A further worker takes part for so many tasks: for fewer, starting a thread takes longer than doing them.
const TASKS_A_WORKER: u32 = 32;

/// A further thread makes blocks for so many particles: to start a thread takes longer than to make those of fewer.
const PARTICLES_A_THREAD: usize = 8_192;

/// Steps through the graph of tasks, with the kernel's tables that these read.
#[derive(Debug, Drop)]
pub struct GraphSteps {
    tables: Arc<Tables, Global>,
}

impl GraphSteps {
    /// Makes the tables; fails only for want of memory.
    pub fn new(alloc: Global) -> Result<GraphSteps, AllocError> {
        let tables = Arc::new(alloc, Tables::new(alloc)?)?;
        Ok(GraphSteps { tables })
    }

    /// One step at tick `t` by so many workers, or by fewer where there are few tasks; each passes the gate with each
    /// task that it claimed, and what they leave passes it with the number behind theirs. The blocks are made by as
    /// many threads, or by fewer where there are few particles. The due particles are given their densities, ghosts,
    /// forces and kicks. The error is want of memory.
    pub fn step<R: Threads + Sync, G: Gate>(
        &self,
        rt: &R,
        alloc: Global,
        deck: &Deck,
        particles: &mut Vec<Particle>,
        t: u32,
        workers: u32,
        gate: &G,
    ) -> Result<(), AllocError>
        requires tick { IsStepTick deck.now.params t }
        requires before { particles.old.items ≡ before deck.now t }
        requires workers_some { 1 ≤ workers }
        requires workers_most { workers ≤ 64 }
        ensures after { OnOk result (particles.new.items ≡ after deck.now t) }
        ensures unchanged { OnErr result (particles.new ≡ particles.old) }
    {
        let tables = Arc::try_clone(&self.tables)?;
        let stage = stage_of(alloc, tables, deck, particles, t)?;
        let threads = threads_for(particles.len(), workers);
        let blocks = blocks_of(rt, alloc, &stage, threads)?;
        let some = workers_for(stage.tasks(), workers);
        match run_graph(rt, alloc, &stage, blocks, some, gate) {
            Ok(blocks) => {
                gather(&stage, blocks, particles);
                Ok(())
            }
            Err(_) => Err(AllocError),
        }
    }
}

/// How many workers do so many tasks, where so many may.
pub(crate) fn workers_for(tasks: u32, most: u32) -> u32
    requires { 1 ≤ most }
    ensures value { result ≡ workers_for tasks most }
    ensures some { 1 ≤ result }
    ensures most { result ≤ most }
{
    most.min(1 + tasks / TASKS_A_WORKER)
}

/// How many threads make the blocks of so many particles, where so many may.
pub(crate) fn threads_for(particles: usize, most: u32) -> u32
    ensures value { result ≡ threads_for particles most }
    ensures most { result ≤ most }
{
    (most as usize).min(1 + particles / PARTICLES_A_THREAD) as u32
}

/// One step at tick `t`, as `GraphSteps::step`, with tables of its own.
pub fn step<R: Threads + Sync, G: Gate>(
    rt: &R,
    alloc: Global,
    deck: &Deck,
    particles: &mut Vec<Particle>,
    t: u32,
    workers: u32,
    gate: &G,
) -> Result<(), AllocError>
    requires tick { IsStepTick deck.now.params t }
    requires before { particles.old.items ≡ before deck.now t }
    requires workers_some { 1 ≤ workers }
    requires workers_most { workers ≤ 64 }
    ensures after { OnOk result (particles.new.items ≡ after deck.now t) }
    ensures unchanged { OnErr result (particles.new ≡ particles.old) }
{
    GraphSteps::new(alloc)?.step(rt, alloc, deck, particles, t, workers, gate)
}
