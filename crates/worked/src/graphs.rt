//! Weights, and the graphs of the tasks on two leaves and on the leaves of two cells.
ghost use Rattle.std.specs.Prelude.{◌≡◌, ◌<◌, ◌≤◌, ℕ, length, All, IfOk};
ghost use Rattle.cell_tree.specs.Spans.{IsSpan};
ghost use Rattle.cell_tree.specs.Tree.{AreLeavesBelow, cells_of};

use cell_tree::{Span, Tree};
use sph_num::Kind;
use std::alloc::{AllocError, Global};
use std::process::Abort;
use task_graph::Graph;
use task_weight::{Edges, weights};

#[test]
fn weighs_two_that_wait_for_one(rt: HostRuntime) -> Result<(), AllocError> {
    let starts = vec![in rt.alloc(); 0, 2, 2, 2]?;
    let ends = vec![in rt.alloc(); 1, 2]?;
    let edges = Edges::new(starts, ends);
    assert_eq!(rt; edges.tasks(), 3);
    assert_eq!(rt; edges.after(0), [1, 2].as_slice());
    let found = weights(rt.alloc(), &[1, 2, 3], &edges)?;
    assert_eq!(rt; found.as_slice(), [4, 2, 3].as_slice());
    Ok(())
}

#[test]
fn takes_the_dearer_side_of_a_diamond(rt: HostRuntime) -> Result<(), AllocError> {
    let starts = vec![in rt.alloc(); 0, 2, 3, 4, 4]?;
    let ends = vec![in rt.alloc(); 1, 2, 3, 3]?;
    let edges = Edges::new(starts, ends);
    let found = weights(rt.alloc(), &[5, 10, 1, 2], &edges)?;
    assert_eq!(rt; found.as_slice(), [17, 12, 3, 2].as_slice());
    Ok(())
}

/// The spans of two cells, of which the one's leaves come before the other's: each alone, and both.
fn spans_of(tree: &Tree, low: u32, high: u32) -> [Span; 3]
    requires low { low < length (cells_of tree.now) }
    requires high { high < length (cells_of tree.now) }
    requires apart { (from : ℕ) × (middle : ℕ) × (next : ℕ) × (end : ℕ) × AreLeavesBelow tree.now low from middle × AreLeavesBelow tree.now high next end × (middle ≤ next) }
    ensures { All (IsSpan tree.now) result }
{
    [
        Span {
            first: low,
            second: None,
        },
        Span {
            first: high,
            second: None,
        },
        Span {
            first: low,
            second: Some(high),
        },
    ]
}

/// Two points in two leaves, the cells 10 and 11.
fn two_leaves(alloc: Global) -> Result<Tree, AllocError>
    ensures { IfOk result (λ made. length made.points ≡ 2) }
{
    Tree::build(alloc, &[[1000, 0, 0], [1512, 0, 0]], &[1024; 2], 1)
}

/// Eight points in the leaves of two cells, the cells 2 to 5 in cell 1 and 7 to 10 in cell 6.
fn eight_corners(alloc: Global) -> Result<Tree, AllocError>
    ensures { IfOk result (λ made. length made.points ≡ 8) }
{
    let points = [
        [0, 0, 0],
        [0, 0, 262_144],
        [0, 262_144, 0],
        [0, 262_144, 262_144],
        [524_288, 0, 0],
        [524_288, 0, 262_144],
        [524_288, 262_144, 0],
        [524_288, 262_144, 262_144],
    ];
    Tree::build(alloc, &points, &[1024; 8], 1)
}

/// The graph of the spans of two cells, of which the one's leaves come before the other's.
fn graph_on(
    rt: &impl Abort,
    alloc: Global,
    tree: &Tree,
    low: u32,
    high: u32,
    due: &[bool],
    drift: bool,
) -> Result<Graph, AllocError>
    requires { length due.now ≡ length tree.now.points }
{
    assert!(rt; low < tree.cells() && high < tree.cells());
    assert!(rt; tree.leaves_below(low).1 <= tree.leaves_below(high).0);
    Graph::build(alloc, tree, &spans_of(tree, low, high), due, drift)
}

fn push_edges(graph: &Graph, task: u32, edges: &mut Vec<(u32, u32)>) -> Result<(), AllocError>
    requires { task < length graph.now.tasks }
{
    for after in graph.successors(task) {
        edges.push((task, *after))?;
    }
    Ok(())
}

/// Each task with each that waits for it.
fn all_edges(alloc: Global, graph: &Graph) -> Result<Vec<(u32, u32)>, AllocError> {
    let mut edges = Vec::new(alloc);
    for task in 0..graph.tasks() {
        push_edges(graph, task, &mut edges)?;
    }
    Ok(edges)
}

fn all_waits(alloc: Global, graph: &Graph) -> Result<Vec<u32>, AllocError> {
    (0..graph.tasks())
        .map(|task| graph.waits(task))
        .collect(alloc)
}

fn all_costs(alloc: Global, graph: &Graph) -> Result<Vec<u64>, AllocError> {
    (0..graph.tasks())
        .map(|task| graph.cost(task))
        .collect(alloc)
}

fn all_weights(alloc: Global, graph: &Graph) -> Result<Vec<u64>, AllocError> {
    (0..graph.tasks())
        .map(|task| graph.weight(task))
        .collect(alloc)
}

#[test]
fn joins_two_leaves(rt: HostRuntime) -> Result<(), AllocError> {
    let tree = two_leaves(rt.alloc())?;
    assert_eq!(rt; tree.cells(), 12);
    let graph = graph_on(&rt, rt.alloc(), &tree, 10, 11, &[true; 2], false)?;
    assert!(rt; graph.tasks() == 10);
    assert_eq!(rt; graph.kind(2), Kind::Density);
    assert_eq!(rt; graph.cells_of(2), (10, Some(11)));
    assert_eq!(rt; graph.cells_of(9), (11, None));
    let edges = all_edges(rt.alloc(), &graph)?;
    assert_eq!(rt;
        edges.as_slice(),
        [
            (0, 3),
            (1, 4),
            (2, 3),
            (2, 4),
            (3, 5),
            (3, 7),
            (4, 6),
            (4, 7),
            (5, 8),
            (6, 9),
            (7, 8),
            (7, 9),
        ]
        .as_slice()
    );
    let waits = all_waits(rt.alloc(), &graph)?;
    assert_eq!(rt; waits.as_slice(), [0, 0, 0, 2, 2, 1, 1, 2, 2, 2].as_slice());
    let costs = all_costs(rt.alloc(), &graph)?;
    assert_eq!(rt; costs.as_slice(), [1, 1, 1, 1, 1, 0, 0, 1, 1, 1].as_slice());
    let weights = all_weights(rt.alloc(), &graph)?;
    assert_eq!(rt;
        weights.as_slice(),
        [4, 4, 4, 3, 3, 1, 1, 2, 1, 1].as_slice()
    );
    Ok(())
}

#[test]
fn drifts_each_leaf_first(rt: HostRuntime) -> Result<(), AllocError> {
    let tree = two_leaves(rt.alloc())?;
    assert_eq!(rt; tree.cells(), 12);
    let graph = graph_on(&rt, rt.alloc(), &tree, 10, 11, &[true; 2], true)?;
    assert!(rt; graph.tasks() == 12);
    assert_eq!(rt; graph.kind(1), Kind::Drift);
    assert_eq!(rt; graph.cells_of(0), (10, None));
    assert_eq!(rt; graph.cells_of(1), (11, None));
    assert_eq!(rt; graph.successors(0), [2, 4].as_slice());
    assert_eq!(rt; graph.successors(1), [3, 4].as_slice());
    assert_eq!(rt; graph.waits(4), 2);
    assert_eq!(rt; graph.weight(0), 5);
    Ok(())
}

#[test]
fn joins_inner_cells_at_due_leaves(rt: HostRuntime) -> Result<(), AllocError> {
    let tree = eight_corners(rt.alloc())?;
    assert_eq!(rt; tree.cells(), 11);
    let due = [true, true, false, false, true, false, false, false];
    let graph = graph_on(&rt, rt.alloc(), &tree, 1, 6, &due, false)?;
    assert_eq!(rt; graph.tasks(), 12);
    let edges = all_edges(rt.alloc(), &graph)?;
    assert_eq!(rt;
        edges.as_slice(),
        [
            (0, 3),
            (0, 4),
            (1, 5),
            (2, 3),
            (2, 4),
            (2, 5),
            (3, 6),
            (3, 8),
            (4, 6),
            (4, 8),
            (5, 7),
            (5, 8),
            (6, 9),
            (6, 10),
            (7, 11),
            (8, 9),
            (8, 10),
            (8, 11),
        ]
        .as_slice()
    );
    let costs = all_costs(rt.alloc(), &graph)?;
    assert_eq!(rt;
        costs.as_slice(),
        [10, 10, 16, 1, 1, 1, 6, 6, 16, 1, 1, 1].as_slice()
    );
    let weights = all_weights(rt.alloc(), &graph)?;
    assert_eq!(rt;
        weights.as_slice(),
        [28, 28, 34, 18, 18, 18, 7, 7, 17, 1, 1, 1].as_slice()
    );
    Ok(())
}
