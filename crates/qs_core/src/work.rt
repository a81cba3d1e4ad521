//! What is scheduled: tasks on the blocks of a hierarchy of cells.
ghost use Rattle.std.specs.Prelude.{◌≡◌, ◌<◌, ℕ, List, length};
ghost use Rattle.qs_core.specs.Shape.{Shape, IsShape, edges_into, parent_of, range_of, task_at};
ghost use Rattle.qs_core.specs.Blocks.{AreApplied, AreApplicable, first_leaves, second_leaves};

/// Cells in a hierarchy with the leaves below them, tasks on one cell or two in an order, and what a task
/// does to the blocks of its leaves. All answers follow from a plan of plain data.
pub trait Work {
    /// Plain data from which all answers follow.
    type Plan;

    /// What stands at a leaf.
    type Block: Drop;

    ghost plan: { Self → Self.Plan };

    ghost shape: { Self.Plan → Shape };

    // The tasks that are done on a block.
    ghost done: { Self.Block → List ℕ };

    // The block is one of the leaf.
    ghost fits: { Self.Plan → ℕ → Self.Block → Type 0 };

    /// How many cells there are.
    fn cells(&self) -> u32
        ensures value { result ≡ length (shape (plan self.now)).parents }
        ensures laws { IsShape (shape (plan self.now)) };

    /// The cell above a cell: none for one that no cell contains.
    fn parent(&self, cell: u32) -> Option<u32>
        requires { cell < length (shape (plan self.now)).parents }
        ensures { result ≡ parent_of (shape (plan self.now)) cell };

    /// How many leaves there are.
    fn leaves(&self) -> u32
        ensures { result ≡ (shape (plan self.now)).leaves };

    /// The leaves below a cell: from the first number up to the second, which is excluded.
    fn leaf_range(&self, cell: u32) -> (u32, u32)
        requires { cell < length (shape (plan self.now)).parents }
        ensures { result ≡ range_of (shape (plan self.now)) cell };

    /// How many tasks there are.
    fn tasks(&self) -> u32
        ensures { result ≡ length (shape (plan self.now)).tasks };

    /// The cells of a task.
    fn cells_of(&self, task: u32) -> (u32, Option<u32>)
        requires { task < length (shape (plan self.now)).tasks }
        ensures { result ≡ ((task_at (shape (plan self.now)) task).first, (task_at (shape (plan self.now)) task).second) };

    /// The tasks that wait for a task.
    fn successors(&self, task: u32) -> &[u32]
        requires { task < length (shape (plan self.now)).tasks }
        ensures { result.now ≡ (task_at (shape (plan self.now)) task).successors };

    /// For how many tasks a task waits.
    fn waits(&self, task: u32) -> u32
        requires { task < length (shape (plan self.now)).tasks }
        ensures { result ≡ edges_into (shape (plan self.now)) task };

    /// How urgent a task is: the greater, the more urgent.
    fn weight(&self, task: u32) -> u64
        requires { task < length (shape (plan self.now)).tasks }
        ensures { result ≡ (task_at (shape (plan self.now)) task).weight };

    /// Does a task on the blocks of its first cell's leaves and of its second cell's, in order.
    fn apply(&self, task: u32, first: &mut [Self::Block], second: &mut [Self::Block])
        requires task { task < length (shape (plan self.now)).tasks }
        requires first { AreApplicable (shape (plan self.now)) task (fits (plan self.now)) done (first_leaves (shape (plan self.now)) task) first.old }
        requires second { AreApplicable (shape (plan self.now)) task (fits (plan self.now)) done (second_leaves (shape (plan self.now)) task) second.old }
        ensures first { AreApplied (shape (plan self.now)) task (fits (plan self.now)) done (first_leaves (shape (plan self.now)) task) first.old first.new }
        ensures second { AreApplied (shape (plan self.now)) task (fits (plan self.now)) done (second_leaves (shape (plan self.now)) task) second.old second.new };
}
