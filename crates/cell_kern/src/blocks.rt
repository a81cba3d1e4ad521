//! The loops over blocks: each block gives to itself and to those behind it, or to those of another range.
ghost use Rattle.std.specs.Prelude.{◌≤◌, length, flat_map};
ghost use Rattle.sph_num.specs.Ranges.{most_particles};
ghost use Rattle.cell_kern.specs.inner.Taking.{AreGivenTo, CanTake, CanTakeAll, IsGiven, rows_in};

use crate::sums::BlockSums;
use cell_block::{Block, BlockRows};
use sph_num::Tables;

/// Adds what the members of some blocks give to one another.
pub(crate) fn add_within<S: BlockSums>(tables: &Tables, blocks: &mut [Block])
    requires blocks { CanTakeAll S.sums 0 blocks.old }
    requires few { length (flat_map rows_in blocks.old) ≤ most_particles }
    ensures { AreGivenTo S.sums blocks.old (flat_map rows_in blocks.old) blocks.new }
{
    for i in 0..blocks.len() {
        let (head, behind) = blocks.split_at_mut(i + 1);
        let one: &mut BlockRows = &mut head[i];
        S::add_own(tables, one);
        add_with::<S>(tables, one, behind);
    }
}

/// Adds what the members of the blocks of two ranges give to one another.
pub(crate) fn add_between<S: BlockSums>(tables: &Tables, first: &mut [Block], second: &mut [Block])
    requires first { CanTakeAll S.sums 0 first.old }
    requires second { CanTakeAll S.sums 0 second.old }
    requires first_few { length (flat_map rows_in first.old) ≤ most_particles }
    requires second_few { length (flat_map rows_in second.old) ≤ most_particles }
    ensures first { AreGivenTo S.sums first.old (flat_map rows_in second.old) first.new }
    ensures second { AreGivenTo S.sums second.old (flat_map rows_in first.old) second.new }
{
    for one in first.iter_mut() {
        add_with::<S>(tables, one, second);
    }
}

/// Adds what the members of a block and those of others give to one another.
fn add_with<S: BlockSums>(tables: &Tables, one: &mut BlockRows, others: &mut [Block])
    requires one { CanTake S.sums 1 one.old }
    requires others { CanTakeAll S.sums 1 others.old }
    requires few { length (flat_map rows_in others.old) ≤ most_particles }
    ensures one { IsGiven S.sums one.old (flat_map rows_in others.old) one.new }
    ensures others { AreGivenTo S.sums others.old (rows_in one.old) others.new }
{
    for i in 0..others.len() {
        let other: &mut BlockRows = &mut others[i];
        add_near::<S>(tables, one, other);
    }
}

/// Adds what the members of two blocks give to one another, which is nothing where the boxes in which they stand
/// are apart.
fn add_near<S: BlockSums>(tables: &Tables, first: &mut BlockRows, second: &mut BlockRows)
    requires first { CanTake S.sums 2 first.old }
    requires second { CanTake S.sums 2 second.old }
    ensures first { IsGiven S.sums first.old (rows_in second.old) first.new }
    ensures second { IsGiven S.sums second.old (rows_in first.old) second.new }
{
    if !first.extent.is_apart(&second.extent) {
        S::add_both(tables, first, second);
    }
}
