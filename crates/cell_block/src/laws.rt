//! Laws over what blocks hold, as functions without work whose contract is the law.
ghost use Rattle.cell_block.specs.Laws.{DensitiesAreWhole, ForcesAreWhole};

/// Once every task of its kind that touches a leaf is done there, the density and the force of a due member
/// are the sums over all particles.
pub fn sums_are_whole()
    ensures densities { DensitiesAreWhole }
    ensures forces { ForcesAreWhole }
{}
