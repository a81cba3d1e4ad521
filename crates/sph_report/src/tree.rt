//! The lines of a deck whose tree and graph are shown.
ghost use Rattle.std.specs.Prelude.{◌≡◌, IfOk, length, map, string_bytes};
ghost use Rattle.sph_report.specs.TreeLines.{greatest_level, edge_count, graph_of_deck, heaviest_weight, largest_leaf, line_of_graph, line_of_tree, tasks_of_kind, tree_lines, tree_of};

use cell_tree::Tree;
use pair_cover::{Limits, cover};
use sph_deck::Deck;
use sph_num::{Kind, Particle};
use std::alloc::{AllocError, Global};
use task_graph::Graph;

/// The greatest level of a cell.
fn greatest_level(tree: &Tree) -> u32
    ensures { result ≡ greatest_level tree.now }
{
    let mut deepest = 0;
    for cell in 0..tree.cells() {
        deepest = tree.cube(cell).level.max(deepest);
    }
    deepest
}

/// The greatest number of members of a leaf.
fn largest_leaf(tree: &Tree) -> u32
    ensures { result ≡ largest_leaf tree.now }
{
    let mut largest = 0;
    for cell in 0..tree.cells() {
        if tree.leaf_of(cell).is_some() {
            largest = tree.count(cell).max(largest);
        }
    }
    largest
}

/// The number of tasks of a kind.
fn tasks_of_kind(graph: &Graph, kind: Kind) -> u32
    ensures { result ≡ tasks_of_kind kind graph.now }
{
    let mut count = 0;
    for task in 0..graph.tasks() {
        if graph.kind(task) == kind {
            count += 1;
        }
    }
    count
}

/// The number of edges.
fn edge_count(graph: &Graph) -> u128
    ensures { result ≡ edge_count graph.now }
{
    // So wide, since nothing here says that a task has fewer than 2^32 successors.
    let mut count = 0;
    for task in 0..graph.tasks() {
        count += graph.successors(task).len() as u128;
    }
    count
}

/// The greatest weight of a task.
fn heaviest_weight(graph: &Graph) -> u64
    ensures { result ≡ heaviest_weight graph.now }
{
    let mut heaviest = 0;
    for task in 0..graph.tasks() {
        heaviest = graph.weight(task).max(heaviest);
    }
    heaviest
}

/// The two lines for an accepted deck, each with its end: the tree of its particles' places, and the graph
/// of the cover where every particle is due, without drifts. The error is want of memory.
pub fn tree_text(alloc: Global, deck: &Deck) -> Result<Vec<u8>, AllocError>
    ensures { IfOk result (λ text. text.items ≡ tree_lines deck.now) }
{
    let tree = tree_of(alloc, deck)?;
    let graph = graph_of_deck(alloc, deck, &tree)?;
    let mut text = line_of_tree(alloc, &tree)?;
    text.push_str(line_of_graph(alloc, &graph)?.as_str())?;
    Ok(text.into_bytes())
}

/// The place of a particle.
fn place_of(particle: &Particle) -> [u32; 3]
    ensures { result ≡ particle.now.x0 }
{
    particle.x0
}

/// The places of particles.
fn places_of(alloc: Global, particles: &[Particle]) -> Result<Vec<[u32; 3]>, AllocError>
    ensures { IfOk result (λ places. places.items ≡ map (λ p. p.x0) particles.now) }
{
    particles.iter().map(place_of).collect(alloc)
}

/// Their smoothing lengths.
fn lengths_of(alloc: Global, particles: &[Particle]) -> Result<Vec<u32>, AllocError>
    ensures { IfOk result (λ lengths. lengths.items ≡ map (λ p. p.h) particles.now) }
{
    particles.iter().map(|particle| particle.h).collect(alloc)
}

/// The tree of the places of a deck's particles.
fn tree_of(alloc: Global, deck: &Deck) -> Result<Tree, AllocError>
    ensures { IfOk result (λ tree. tree ≡ tree_of deck.now) }
{
    let points = places_of(alloc, deck.particles.as_slice())?;
    let hs = lengths_of(alloc, deck.particles.as_slice())?;
    Tree::build(alloc, &points, &hs, deck.params.leaf)
}

/// The graph of the cover of a deck's tree where every particle is due, without drifts.
fn graph_of_deck(alloc: Global, deck: &Deck, tree: &Tree) -> Result<Graph, AllocError>
    requires { tree.now ≡ tree_of deck.now }
    ensures { IfOk result (λ graph. graph ≡ graph_of_deck deck.now) }
{
    let due = vec![in alloc; true; deck.particles.len()]?;
    let limits = Limits {
        pairs: deck.params.pairs,
        slack: deck.params.slack,
    };
    let spans = cover(alloc, tree, &due, limits)?;
    Graph::build(alloc, tree, &spans, &due, false)
}

/// The line of a tree.
fn line_of_tree(alloc: Global, tree: &Tree) -> Result<String, AllocError>
    ensures { IfOk result (λ text. string_bytes text ≡ line_of_tree (length tree.now.points) tree.now) }
{
    let particles = tree.points();
    let cells = tree.cells();
    let leaves = tree.leaves();
    let deepest = greatest_level(tree);
    let largest = largest_leaf(tree);
    format!(in alloc;
        "particles {particles} cells {cells} leaves {leaves} deepest {deepest} largest {largest}\n"
    )
}

/// The line of a graph.
fn line_of_graph(alloc: Global, graph: &Graph) -> Result<String, AllocError>
    ensures { IfOk result (λ text. string_bytes text ≡ line_of_graph graph.now) }
{
    let density = tasks_of_kind(graph, Kind::Density);
    let ghosts = tasks_of_kind(graph, Kind::Ghost);
    let force = tasks_of_kind(graph, Kind::Force);
    let kick = tasks_of_kind(graph, Kind::Kick);
    let edges = edge_count(graph);
    let heaviest = heaviest_weight(graph);
    let tasks = format!(in alloc; "density {density} ghost {ghosts} force {force} kick {kick}")?;
    format!(in alloc; "{tasks} edges {edges} heaviest {heaviest}\n")
}

#[cfg(test)]
mod tests {
    use super::*;
    use crate::decks::{PAIR, TOP};
    use sph_deck::read_deck;
    use std::test::Fail;

    const LIGHT: &str =
        "[[particle]]\nmass = 1\nh = 131072\nx = 0\ny = 0\nz = 0\npx = 0\npy = 0\npz = 0\n";

    #[test]
    fn forty_at_one_point_have_their_lines(rt: HostRuntime) -> Result<(), Fail> {
        let alloc = rt.alloc();
        let mut text = format!(in alloc; "{TOP}leaf = 16\npairs = 4096\n")?;
        for _ in 0..40 {
            text.push_str(LIGHT)?;
        }
        let deck = read_deck(alloc, text.as_bytes()).ok().ok_or("refused")?;
        let lines = tree_text(alloc, &deck)?;
        let want: &[u8] = b"particles 40 cells 11 leaves 1 deepest 10 largest 40\n\
              density 1 ghost 1 force 1 kick 1 edges 3 heaviest 1680\n";
        assert!(rt; lines.as_slice() == want);
        Ok(())
    }

    #[test]
    fn a_pair_in_two_leaves_has_its_lines(rt: HostRuntime) -> Result<(), Fail> {
        let alloc = rt.alloc();
        let text = format!(in alloc; "{TOP}leaf = 1\npairs = 1\n{PAIR}")?;
        let deck = read_deck(alloc, text.as_bytes()).ok().ok_or("refused")?;
        let lines = tree_text(alloc, &deck)?;
        let want: &[u8] = b"particles 2 cells 12 leaves 2 deepest 10 largest 1\n\
              density 3 ghost 2 force 3 kick 2 edges 12 heaviest 4\n";
        assert!(rt; lines.as_slice() == want);
        Ok(())
    }
}
