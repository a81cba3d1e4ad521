//! What is scheduled, as the machine keeps it.
ghost use Rattle.std.specs.Prelude.{◌≡◌, ◌<◌, ◌↔◌, ◌++◌, length, IfOk, IsTrue, OnOk, Some, slice_index};
ghost use Rattle.qs_core.specs.Shape.{AreApart, CellContains, IsBelow, IsShape, Touches, ancestors, leaves_of, leaves_of_other, parent_of, range_of, task_at};
ghost use Rattle.qs_core.specs.Core.{cell_place, leaf_place, task_place};
ghost use Rattle.qs_core.specs.Steps.{place_of};
ghost use Rattle.qs_core.specs.inner.Held.{IsBelowSome};
ghost use Rattle.qs_play.specs.inner.Held.{IsEither};

use qs_core::{Step, Work};
use std::alloc::{AllocError, Global};
use std::marker::Model;

/// A task: its cells, the tasks that wait for it, and its weight.
#[derive(Drop)]
pub struct TaskPlan {
    first: u32,
    second: Option<u32>,
    successors: Vec<u32>,
    // The model has it, and no code reads it.
    weight: u64,
}

impl Model for TaskPlan {
    ghost use Rattle.qs_core.specs.Shape.{TaskShape};

    ghost Value = { TaskShape };

    ghost view = { λ t. record { first = t.first; second = t.second; successors = t.successors.items; weight = t.weight } };
}

impl TaskPlan {
    /// The first cell.
    pub fn first(&self) -> u32
        ensures { result ≡ self.now.first }
    {
        self.first
    }

    /// The second cell.
    pub fn second(&self) -> Option<u32>
        ensures { result ≡ self.now.second }
    {
        self.second
    }

    /// Whether the cell, if there is one, is one of the task's.
    pub fn has(&self, cell: Option<u32>) -> bool
        ensures { IsTrue result ↔ IsEither cell (Some self.now.first) self.now.second }
    {
        match cell {
            Some(cell) => self.first == cell || self.second == Some(cell),
            None => true,
        }
    }

    /// The tasks that wait.
    pub fn successors(&self) -> &[u32]
        ensures { result.now ≡ self.now.successors }
    {
        self.successors.as_slice()
    }
}

/// The cells, leaves and tasks of a work.
#[derive(Drop)]
pub(crate) struct Layout {
    parents: Vec<Option<u32>>,
    ranges: Vec<(u32, u32)>,
    leaves: u32,
    tasks: Vec<TaskPlan>,
}

impl Model for Layout {
    ghost use Rattle.qs_core.specs.Shape.{Shape, IsShape};
    ghost use Rattle.qs_play.specs.inner.Stored.{shape_of};

    ghost Value = { Shape };

    ghost view = { λ l. shape_of l.parents.items l.ranges.items l.leaves l.tasks.items };

    ghost invariant = { λ l. IsShape (shape_of l.parents.items l.ranges.items l.leaves l.tasks.items) };
}

/// The cells above, of each cell.
fn parents_of<W: Work>(alloc: Global, work: &W) -> Result<Vec<Option<u32>>, AllocError>
    ensures { IfOk result (λ v. v.items ≡ (W.shape (W.plan work.now)).parents) }
{
    let mut parents = Vec::new(alloc);
    for cell in 0..work.cells() {
        parents.push(work.parent(cell))?;
    }
    Ok(parents)
}

/// The leaves below, of each cell.
fn cell_ranges<W: Work>(alloc: Global, work: &W) -> Result<Vec<(u32, u32)>, AllocError>
    ensures { IfOk result (λ v. v.items ≡ (W.shape (W.plan work.now)).ranges) }
{
    let mut ranges = Vec::new(alloc);
    for cell in 0..work.cells() {
        ranges.push(work.leaf_range(cell))?;
    }
    Ok(ranges)
}

/// A task of a work.
fn task_of<W: Work>(alloc: Global, work: &W, task: u32) -> Result<TaskPlan, AllocError>
    requires { task < length (W.shape (W.plan work.now)).tasks }
    ensures { IfOk result (λ t. t ≡ task_at (W.shape (W.plan work.now)) task) }
{
    let (first, second) = work.cells_of(task);
    Ok(TaskPlan {
        first,
        second,
        successors: Vec::from_slice(alloc, work.successors(task))?,
        weight: work.weight(task),
    })
}

/// The tasks.
fn tasks_of<W: Work>(alloc: Global, work: &W) -> Result<Vec<TaskPlan>, AllocError>
    ensures { IfOk result (λ v. v.items ≡ (W.shape (W.plan work.now)).tasks) }
{
    let mut tasks = Vec::new(alloc);
    for task in 0..work.tasks() {
        tasks.push(task_of(alloc, work, task)?)?;
    }
    Ok(tasks)
}

impl Layout {
    /// The cells, leaves and tasks of a work.
    pub fn of<W: Work>(alloc: Global, work: &W) -> Result<Layout, AllocError>
        ensures value { IfOk result (λ layout. layout ≡ W.shape (W.plan work.now)) }
        ensures laws { IsShape (W.shape (W.plan work.now)) }
    {
        // The call says that the work keeps its laws.
        let _cells = work.cells();
        Ok(Layout {
            parents: parents_of(alloc, work)?,
            ranges: cell_ranges(alloc, work)?,
            leaves: work.leaves(),
            tasks: tasks_of(alloc, work)?,
        })
    }

    /// The place of the word of a cell: that of the seats, which stays 0, comes before.
    pub fn cell_place(&self, cell: u32) -> usize
        ensures { result ≡ cell_place self.now cell }
    {
        1 + cell as usize
    }

    /// The place of the word of a leaf.
    pub fn leaf_place(&self, leaf: u32) -> usize
        ensures { result ≡ leaf_place self.now leaf }
    {
        1 + self.cells() as usize + leaf as usize
    }

    /// The place of the word of a task.
    pub fn task_place(&self, task: u32) -> usize
        ensures { result ≡ task_place self.now task }
    {
        1 + self.cells() as usize + self.leaves as usize + task as usize
    }

    /// The place of the word of a step on a cell, leaf or task.
    pub(crate) fn place(&self, step: Step, object: u32) -> usize
        ensures { result ≡ place_of self.now step object }
    {
        match step {
            Step::Lock { .. } | Step::Raise | Step::Lower | Step::Unlock => self.cell_place(object),
            Step::Fetch { .. } | Step::Return { .. } => self.leaf_place(object),
            Step::Claim { .. } | Step::Release => self.task_place(object),
        }
    }

    /// How many cells there are.
    pub fn cells(&self) -> u32
        ensures value { result ≡ length self.now.parents }
        ensures laws { IsShape self.now }
    {
        self.parents.len() as u32
    }

    /// How many leaves there are.
    pub(crate) fn leaves(&self) -> u32
        ensures { result ≡ self.now.leaves }
    {
        self.leaves
    }

    /// How many tasks there are.
    pub(crate) fn tasks(&self) -> u32
        ensures { result ≡ length self.now.tasks }
    {
        self.tasks.len() as u32
    }

    /// A task.
    pub(crate) fn task(&self, task: u32) -> &TaskPlan
        requires { task < length self.now.tasks }
        ensures { result.now ≡ task_at self.now task }
    {
        &self.tasks[task as usize]
    }

    /// The cell above: none where there is none, or where the number is of no cell.
    pub fn parent(&self, cell: u32) -> Option<u32>
        ensures value { result ≡ parent_of self.now cell }
        ensures laws { IsShape self.now }
    {
        match self.parents.get(cell as usize) {
            Some(above) => *above,
            None => None,
        }
    }

    /// How many ancestors a cell has.
    pub fn depth(&self, cell: u32) -> u32
        ensures { result ≡ length (ancestors self.now cell) }
    {
        let mut count = 0;
        let mut up = self.parent(cell);
        while let Some(above) = up {
            count += 1;
            up = self.parent(above);
        }
        count
    }

    /// The ancestor at an index, parent first: 0 where there is none.
    pub fn ancestor(&self, cell: u32, index: u32) -> u32
        ensures { result ≡ slice_index (ancestors self.now cell) index }
    {
        let mut left = index;
        let mut up = self.parent(cell);
        while let Some(above) = up {
            if left == 0 {
                return above;
            }
            left -= 1;
            up = self.parent(above);
        }
        0
    }

    /// Whether a cell is another or contains it.
    pub(crate) fn contains(&self, outer: u32, inner: u32) -> bool
        ensures { IsTrue result ↔ CellContains self.now outer inner }
    {
        let mut at = Some(inner);
        while let Some(cell) = at {
            if cell == outer {
                return true;
            }
            at = self.parent(cell);
        }
        false
    }

    /// The leaves below a cell: from the first number up to the second, which is excluded.
    pub(crate) fn range(&self, cell: u32) -> (u32, u32)
        ensures { result ≡ range_of self.now cell }
    {
        match self.ranges.get(cell as usize) {
            Some(range) => *range,
            None => (0, 0),
        }
    }

    /// Whether a leaf is below a cell.
    pub(crate) fn is_below(&self, leaf: u32, cell: u32) -> bool
        ensures { IsTrue result ↔ IsBelow self.now leaf cell }
    {
        let (from, to) = self.range(cell);
        from <= leaf && leaf < to
    }

    /// Whether neither of two cells contains the other.
    pub(crate) fn are_apart(&self, a: u32, b: u32) -> bool
        ensures { IsTrue result ↔ AreApart self.now a b }
    {
        !self.contains(a, b) && !self.contains(b, a)
    }

    /// Whether there is a cell and the leaf is below it.
    pub(crate) fn is_below_some(&self, leaf: u32, cell: Option<u32>) -> bool
        ensures { IsTrue result ↔ IsBelowSome self.now leaf cell }
    {
        match cell {
            Some(cell) => self.is_below(leaf, cell),
            None => false,
        }
    }

    /// Whether a task touches a leaf.
    pub(crate) fn touches(&self, task: u32, leaf: u32) -> bool
        requires { task < length self.now.tasks }
        ensures { IsTrue result ↔ Touches self.now task leaf }
    {
        let task = self.task(task);
        self.is_below_some(leaf, Some(task.first())) || self.is_below_some(leaf, task.second())
    }

    /// Appends the leaves below a cell, if there is one.
    fn push_leaves(&self, cell: Option<u32>, leaves: &mut Vec<u32>) -> Result<(), AllocError>
        ensures { OnOk result (leaves.new.items ≡ leaves.old.items ++ leaves_of_other self.now cell) }
    {
        let Some(cell) = cell else {
            return Ok(());
        };
        let (from, to) = self.range(cell);
        for leaf in from..to {
            leaves.push(leaf)?;
        }
        Ok(())
    }

    /// The leaves that a task touches: below its first cell, then below its second.
    pub(crate) fn leaves_of(&self, alloc: Global, task: u32) -> Result<Vec<u32>, AllocError>
        requires { task < length self.now.tasks }
        ensures { IfOk result (λ v. v.items ≡ leaves_of self.now task) }
    {
        let task = self.task(task);
        let mut leaves = Vec::new(alloc);
        self.push_leaves(Some(task.first()), &mut leaves)?;
        self.push_leaves(task.second(), &mut leaves)?;
        Ok(leaves)
    }
}
