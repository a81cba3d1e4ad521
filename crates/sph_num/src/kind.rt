//! The kinds of task that a step is made of.

/// What a task does with the particles below its cells.
#[derive(Clone, Copy, Debug, PartialEq, Eq)]
pub enum Kind {
    /// Takes the particles of a leaf to their places at the tick.
    Drift,
    /// Adds the densities of the pairs of a cell, or of two.
    Density,
    /// Makes of each density of a leaf the factor of the forces.
    Ghost,
    /// Adds the forces of the pairs of a cell, or of two.
    Force,
    /// Kicks the particles of a leaf.
    Kick,
}
