//! The graph: its tasks, which of them wait for which, what they cost and how urgent they are.
ghost use Rattle.std.specs.Prelude.{◌≡◌, ◌<◌, ◌^◌, Bool, List, length, slice_index, All, IfOk, sum_by};
ghost use Rattle.cell_tree.specs.Spans.{IsSpan};
ghost use Rattle.task_graph.specs.Graph.{IsPlan, WaitAtLeaves, graph_of, task_at};
ghost use Rattle.task_graph.specs.Meeting.{MeetOnce};
ghost use Rattle.task_graph.specs.inner.Parts.{AreLeavesFor};
ghost use Rattle.task_graph.specs.Tasks.{IsOnSpan, tasks_of};
ghost use Rattle.task_weight.specs.Edges.{AreForward, AreRising};
ghost use Rattle.task_weight.specs.Paths.{AreWeights, after_of};

use crate::costs::costs_of;
use crate::leaves::Leaves;
use crate::numbers::Numbers;
use crate::successors::edge_lists;
use crate::task::{Task, push_leaf_tasks, push_span_tasks};
use crate::waits::waits_of;
use cell_tree::{Span, Tree};
use sph_num::Kind;
use std::alloc::{AllocError, Global};
use std::marker::Model;
use task_weight::{Edges, weights};

/// The tasks of a step, numbered from 0, and the edges between them.
#[derive(Debug, Drop)]
pub struct Graph {
    tasks: Vec<Task>,
    edges: Edges,
    waits: Vec<u32>,
    costs: Vec<u64>,
    weights: Vec<u64>,
}

impl Model for Graph {
    ghost use Rattle.task_graph.specs.Graph.{IsPlan, Plan};
    ghost use Rattle.task_graph.specs.inner.Parts.{plan_with};

    ghost Value = { Plan };

    ghost view = { λ g. plan_with g.tasks.items g.edges g.waits.items g.costs.items g.weights.items };

    ghost invariant = { λ g. IsPlan (plan_with g.tasks.items g.edges g.waits.items g.costs.items g.weights.items) };
}

/// The tasks in the order of their numbers.
fn all_tasks(
    alloc: Global,
    tree: &Tree,
    spans: &[Span],
    leaves: &Leaves,
) -> Result<Vec<Task>, AllocError>
    requires { (due : List Bool) × (drift : Bool) × AreLeavesFor tree.now spans.now due drift leaves.now }
    ensures { (due : List Bool) (drift : Bool) → AreLeavesFor tree.now spans.now due drift leaves.now
        → IfOk result (λ v. v.items ≡ tasks_of tree.now spans.now due drift) }
{
    let mut tasks = Vec::new(alloc);
    push_leaf_tasks(tree, Kind::Drift, leaves.drifting(), &mut tasks)?;
    push_span_tasks(Kind::Density, spans, &mut tasks)?;
    push_leaf_tasks(tree, Kind::Ghost, leaves.dues(), &mut tasks)?;
    push_span_tasks(Kind::Force, spans, &mut tasks)?;
    push_leaf_tasks(tree, Kind::Kick, leaves.dues(), &mut tasks)?;
    Ok(tasks)
}

impl Graph {
    /// The graph of the spans of a tree whose points are due where their flag is set, with tasks that take
    /// the particles to their places where `drift` is asked. The error is want of memory.
    pub fn build(
        alloc: Global,
        tree: &Tree,
        spans: &[Span],
        due: &[bool],
        drift: bool,
    ) -> Result<Graph, AllocError>
        requires one_flag_each { length due.now ≡ length tree.now.points }
        requires spans { All (IsSpan tree.now) spans.now }
        requires few { length spans.now < 2 ^ 30 }
        ensures value { IfOk result (λ plan. plan ≡ graph_of tree.now spans.now due.now drift) }
        ensures tasks_few { IfOk result (λ plan. length plan.tasks < 2 ^ 32) }
        ensures on_spans { IfOk result (λ plan. All (IsOnSpan tree.now) plan.tasks) }
        ensures meet_once { IfOk result (λ plan. MeetOnce tree.now spans.now plan.tasks) }

        ensures wait_at_leaves { IfOk result (λ plan. WaitAtLeaves tree.now plan.tasks plan.successors) }
        ensures forward { IfOk result (λ plan. AreForward plan.successors) }
        ensures rising { IfOk result (λ plan. AreRising plan.successors) }

        ensures weights { IfOk result (λ plan. AreWeights plan.costs plan.successors plan.weights) }
        ensures costs_small { IfOk result (λ plan. sum_by (λ cost. cost) plan.costs < 2 ^ 62) }
        ensures weights_small { IfOk result (λ plan. All (λ weight. weight < 2 ^ 62) plan.weights) }
    {
        let leaves = Leaves::of(alloc, tree, spans, due, drift)?;
        let tasks = all_tasks(alloc, tree, spans, &leaves)?;
        let numbers = Numbers::of(leaves.drifting().len(), spans.len(), leaves.dues().len());
        let edges = edge_lists(alloc, tree, spans, &leaves, numbers)?;
        let waits = waits_of(alloc, &edges)?;
        let costs = costs_of(alloc, tree, &tasks)?;
        let weights = weights(alloc, &costs, &edges)?;
        Ok(Graph {
            tasks,
            edges,
            waits,
            costs,
            weights,
        })
    }

    /// How many tasks there are.
    pub fn tasks(&self) -> u32
        ensures count { result ≡ length self.now.tasks }
        ensures plan { IsPlan self.now }
    {
        self.edges.tasks()
    }

    /// The kind of a task.
    pub fn kind(&self, task: u32) -> Kind
        requires { task < length self.now.tasks }
        ensures { result ≡ (task_at self.now.tasks task).kind }
    {
        self.tasks[task as usize].kind
    }

    /// The cell of a task, and its other cell, if there is one.
    pub fn cells_of(&self, task: u32) -> (u32, Option<u32>)
        requires { task < length self.now.tasks }
        ensures { result ≡ ((task_at self.now.tasks task).first, (task_at self.now.tasks task).second) }
    {
        let task = self.tasks[task as usize];
        (task.first, task.second)
    }

    /// The tasks that wait for a task, in rising order.
    pub fn successors(&self, task: u32) -> &[u32]
        requires { task < length self.now.tasks }
        ensures { result.now ≡ after_of self.now.successors task }
    {
        self.edges.after(task)
    }

    /// For how many tasks a task waits: the number of edges into it.
    pub fn waits(&self, task: u32) -> u32
        requires { task < length self.now.tasks }
        ensures { result ≡ slice_index self.now.waits task }
    {
        self.waits[task as usize]
    }

    /// What a task costs: the members of its leaf, or the pairs that it looks at.
    pub fn cost(&self, task: u32) -> u64
        requires { task < length self.now.tasks }
        ensures { result ≡ slice_index self.now.costs task }
    {
        self.costs[task as usize]
    }

    /// The greatest cost of a path of tasks that begins with a task.
    pub fn weight(&self, task: u32) -> u64
        requires { task < length self.now.tasks }
        ensures { result ≡ slice_index self.now.weights task }
    {
        self.weights[task as usize]
    }
}
