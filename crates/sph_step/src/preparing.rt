//! From the list before a step to its stage and the blocks of its leaves.
ghost use Rattle.std.specs.Prelude.{◌≡◌, All, IfOk, OnOk, false, map};
ghost use Rattle.cell_block.specs.Blocks.{done_of};
ghost use Rattle.cell_tree.specs.Spans.{IsSpan};
ghost use Rattle.pair_cover.specs.Covering.{CoversMoved};
ghost use Rattle.qs_core.specs.Blocks.{AreFresh};
ghost use Rattle.sph_bins.specs.Bins.{IsStepTick};
ghost use Rattle.sph_bins.specs.InBounds.{InBounds};
ghost use Rattle.sph_bins.specs.Kick.{place_at};
ghost use Rattle.sph_num.specs.Bound.{bounds_of};
ghost use Rattle.sph_plain.specs.Run.{before};
ghost use Rattle.sph_step.specs.Made.{IsStageOf, dues_at, made_at, spans_at};
ghost use Rattle.sph_step.specs.Stage.{IsStage, fits_in, shape_of};
ghost use Rattle.sph_step.specs.inner.Graphs.{IsGraphOn};
ghost use Rattle.task_graph.specs.Graph.{graph_of};

use crate::blocks::blocks_here;
use crate::cells::{leaves_of, parents_of, ranges_of};
use crate::lines::lines_in;
use crate::stage::{Stage, StagePlan};
use cell_block::{Block, Scene};
use cell_tree::Tree;
use pair_cover::{Limits, cover};
use sph_bins::due;
use sph_deck::{Deck, bounds_of};
use sph_num::{Particle, ParticleList, Tables, position};
use std::alloc::{AllocError, Global};
use std::sync::Arc;
use task_graph::Graph;

/// The stage of the step at tick `t`, on the tree of the particles' places there, and a block for each of its
/// leaves, in order, with nothing done. The error is want of memory.
pub fn prepare(
    alloc: Global,
    deck: &Deck,
    particles: &[Particle],
    t: u32,
) -> Result<(Stage, Vec<Block>), AllocError>
    requires tick { IsStepTick deck.now.params t }
    requires before { particles.now ≡ before deck.now t }
    ensures stage { IfOk result (λ r. IsStageOf deck.now.params (bounds_of deck.now.particles) t particles.now r.0) }
    ensures kept { IfOk result (λ r. IsStage r.0) }
    ensures blocks { IfOk result (λ r. AreFresh (shape_of r.0) (fits_in r.0) done_of r.1.items) }
{
    let tables = Arc::new(alloc, Tables::new(alloc)?)?;
    let stage = stage_of(alloc, tables, deck, particles, t)?;
    let blocks = blocks_here(alloc, &stage)?;
    Ok((stage, blocks))
}

/// The stage of the step at tick `t`, with the kernel's tables at hand.
pub(crate) fn stage_of(
    alloc: Global,
    tables: Arc<Tables, Global>,
    deck: &Deck,
    particles: &[Particle],
    t: u32,
) -> Result<Stage, AllocError>
    requires tick { IsStepTick deck.now.params t }
    requires before { particles.now ≡ before deck.now t }
    ensures stage { IfOk result (λ stage. IsStageOf deck.now.params (bounds_of deck.now.particles) t particles.now stage) }
    ensures kept { IfOk result (λ stage. IsStage stage) }
{
    let plan = plan_of(alloc, deck, particles, t)?;
    let stage = Stage::new(plan, tables);
    Ok(stage)
}

/// What is kept of the tree of the particles' places and of its cover.
fn plan_of(
    alloc: Global,
    deck: &Deck,
    particles: &[Particle],
    t: u32,
) -> Result<StagePlan, AllocError>
    requires tick { IsStepTick deck.now.params t }
    requires before { particles.now ≡ before deck.now t }
    ensures of { IfOk result (λ plan. IsStageOf deck.now.params (bounds_of deck.now.particles) t particles.now plan) }
    ensures kept { IfOk result (λ plan. IsStage plan) }
{
    let tree = tree_of(alloc, deck, particles, t)?;
    let graph = graph_of_cover(alloc, deck, particles, t, &tree)?;
    let parents = parents_of(alloc, &tree)?;
    let ranges = ranges_of(alloc, &tree)?;
    let scene = Scene {
        tick: t,
        params: deck.params,
        bounds: bounds_of(&deck.params, deck.particles.as_slice()),
        start: ParticleList::from_vec(Vec::from_slice(alloc, particles)?),
        leaves: leaves_of(alloc, &tree)?,
        tasks: lines_in(alloc, &graph, &ranges)?,
        drift: false,
    };
    Ok(StagePlan {
        scene,
        parents,
        ranges,
        graph,
    })
}

/// The tree of the particles' places at the tick.
fn tree_of(alloc: Global, deck: &Deck, particles: &[Particle], t: u32) -> Result<Tree, AllocError>
    requires tick { IsStepTick deck.now.params t }
    requires bounds { InBounds deck.now.params (bounds_of deck.now.particles) t particles.now }
    ensures { IfOk result (λ tree. tree ≡ made_at deck.now.params t particles.now) }
{
    let points = places_of(alloc, deck, particles, t)?;
    let lengths = lengths_of(alloc, particles)?;
    Tree::build(alloc, &points, &lengths, deck.params.leaf)
}

/// The particles' places at the tick.
fn places_of(
    alloc: Global,
    deck: &Deck,
    particles: &[Particle],
    t: u32,
) -> Result<Vec<[u32; 3]>, AllocError>
    requires { InBounds deck.now.params (bounds_of deck.now.particles) t particles.now }
    ensures { IfOk result (λ places. places.items ≡ map (place_at deck.now.params t) particles.now) }
{
    let mut places = Vec::with_capacity(alloc, particles.len())?;
    for particle in particles {
        places.push(position(particle, t, deck.params.shift))?;
    }
    Ok(places)
}

/// Their smoothing lengths.
fn lengths_of(alloc: Global, particles: &[Particle]) -> Result<Vec<u32>, AllocError>
    ensures { IfOk result (λ lengths. lengths.items ≡ map (λ p. p.h) particles.now) }
{
    particles.iter().map(|particle| particle.h).collect(alloc)
}

/// Which of them are due.
fn dues_of(
    alloc: Global,
    deck: &Deck,
    particles: &[Particle],
    t: u32,
) -> Result<Vec<bool>, AllocError>
    requires { InBounds deck.now.params (bounds_of deck.now.particles) t particles.now }
    ensures { IfOk result (λ dues. dues.items ≡ dues_at t particles.now) }
{
    let mut dues = Vec::with_capacity(alloc, particles.len())?;
    for particle in particles {
        dues.push(due(t, particle.bin))?;
    }
    Ok(dues)
}

/// The graph of the cover of the tree, without drifts.
fn graph_of_cover(
    alloc: Global,
    deck: &Deck,
    particles: &[Particle],
    t: u32,
    tree: &Tree,
) -> Result<Graph, AllocError>
    requires bounds { InBounds deck.now.params (bounds_of deck.now.particles) t particles.now }
    requires tree { tree.now ≡ made_at deck.now.params t particles.now }
    ensures value { IfOk result (λ graph. graph ≡ graph_of tree.now (spans_at deck.now.params t particles.now) (dues_at t particles.now) false) }
    ensures graph { IfOk result (λ graph. IsGraphOn tree.now (spans_at deck.now.params t particles.now) graph) }
    ensures spans { OnOk result (All (IsSpan tree.now) (spans_at deck.now.params t particles.now)) }
    ensures covers { OnOk result (CoversMoved tree.now (dues_at t particles.now) deck.now.params.slack (spans_at deck.now.params t particles.now)) }
{
    let dues = dues_of(alloc, deck, particles, t)?;
    let limits = Limits {
        pairs: deck.params.pairs,
        slack: deck.params.slack,
    };
    let spans = cover(alloc, tree, &dues, limits)?;
    Graph::build(alloc, tree, &spans, &dues, false)
}
