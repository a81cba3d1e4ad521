//! Which list of a block holds the sums of its members.
ghost use Rattle.cell_kern.specs.inner.Taking.{CanTake, IsGiven, Sums, Densities as of_densities, Forces as of_forces, rows_in};

use crate::density::Densities;
use crate::force::Forces;
use crate::members::Members;
use crate::pairs::{between, within};
use cell_block::BlockRows;
use sph_num::Tables;

/// A kind of sum of which a block has a list.
pub(crate) trait BlockSums {
    ghost sums: { Sums };

    /// Adds what the members of one block give to one another.
    fn add_own(tables: &Tables, block: &mut BlockRows)
        requires { CanTake sums 2 block.old }
        ensures { IsGiven sums block.old (rows_in block.old) block.new };

    /// Adds what the members of two blocks give to one another, whether they are near or not.
    fn add_both(tables: &Tables, first: &mut BlockRows, second: &mut BlockRows)
        requires first { CanTake sums 2 first.old }
        requires second { CanTake sums 2 second.old }
        ensures first { IsGiven sums first.old (rows_in second.old) first.new }
        ensures second { IsGiven sums second.old (rows_in first.old) second.new };
}

impl BlockSums for Densities {
    ghost sums = { of_densities };

    fn add_own(tables: &Tables, block: &mut BlockRows) {
        let BlockRows {
            spots,
            pulls,
            due,
            rhos,
            ..
        } = block;
        let members = Members {
            spots: spots.as_slice(),
            pulls: pulls.as_slice(),
            due: due.as_slice(),
        };
        within::<Densities>(tables, &members, rhos.as_mut_slice());
    }

    fn add_both(tables: &Tables, first: &mut BlockRows, second: &mut BlockRows) {
        let first_members = Members {
            spots: first.spots.as_slice(),
            pulls: first.pulls.as_slice(),
            due: first.due.as_slice(),
        };
        let second_members = Members {
            spots: second.spots.as_slice(),
            pulls: second.pulls.as_slice(),
            due: second.due.as_slice(),
        };
        between::<Densities>(
            tables,
            &first_members,
            &second_members,
            &second.extent,
            first.rhos.as_mut_slice(),
            second.rhos.as_mut_slice(),
        );
    }
}

impl BlockSums for Forces {
    ghost sums = { of_forces };

    fn add_own(tables: &Tables, block: &mut BlockRows) {
        let BlockRows {
            spots,
            pulls,
            due,
            forces,
            ..
        } = block;
        let members = Members {
            spots: spots.as_slice(),
            pulls: pulls.as_slice(),
            due: due.as_slice(),
        };
        within::<Forces>(tables, &members, forces.as_mut_slice());
    }

    fn add_both(tables: &Tables, first: &mut BlockRows, second: &mut BlockRows) {
        let first_members = Members {
            spots: first.spots.as_slice(),
            pulls: first.pulls.as_slice(),
            due: first.due.as_slice(),
        };
        let second_members = Members {
            spots: second.spots.as_slice(),
            pulls: second.pulls.as_slice(),
            due: second.due.as_slice(),
        };
        between::<Forces>(
            tables,
            &first_members,
            &second_members,
            &second.extent,
            first.forces.as_mut_slice(),
            second.forces.as_mut_slice(),
        );
    }
}
