//! The loops over members: each pair is looked at once, and gives to each of its two that is due.
ghost use Rattle.std.specs.Prelude.{◌≡◌, ◌≤◌, ◌*◌, true, fold, length};
ghost use Rattle.std.specs.List.{between};
ghost use Rattle.sph_num.specs.Ranges.{most_particles};
ghost use Rattle.cell_block.specs.Extents.{AreWithin};
ghost use Rattle.cell_kern.specs.inner.Gathered.{AreMembers, IsPassed, IsSound, gathered, list_of};
ghost use Rattle.cell_kern.specs.inner.Rooms.{AreSums, HaveRoom};

use crate::members::{Member, Members, Other};
use crate::pairing::Pairing;
use cell_block::Extent;
use sph_num::{Tables, dist2};

/// Adds what the members of one list give to one another, and each to itself.
pub(crate) fn within<P: Pairing>(tables: &Tables, members: &Members, sums: &mut [P::Sum])
    requires laws { AreSums P.given P.has_room }
    requires members { AreMembers members.now }
    requires count { length sums.old ≡ length members.now.spots.now }
    requires room { HaveRoom P.has_room (2 * most_particles) (list_of members.now) sums.old }
    ensures { sums.new ≡ gathered P.given (list_of members.now) (list_of members.now) sums.old }
{
    for i in 0..members.spots.len() {
        let one = members.at(i);
        let mut sum = sums[i];
        P::add_own(tables, &one, &mut sum);
        row::<P>(tables, &one, members, i + 1, sums, &mut sum);
        sums[i] = sum;
    }
}

/// Adds what the members of two lists give to one another. The box is one in which the second list lies.
pub(crate) fn between<P: Pairing>(
    tables: &Tables,
    first: &Members,
    second: &Members,
    extent: &Extent,
    first_sums: &mut [P::Sum],
    second_sums: &mut [P::Sum],
)
    requires laws { AreSums P.given P.has_room }
    requires first { AreMembers first.now }
    requires second { AreMembers second.now }
    requires extent { AreWithin extent.now second.now.spots.now }
    requires first_count { length first_sums.old ≡ length first.now.spots.now }
    requires second_count { length second_sums.old ≡ length second.now.spots.now }
    requires first_room { HaveRoom P.has_room (2 * most_particles) (list_of first.now) first_sums.old }
    requires second_room { HaveRoom P.has_room (2 * most_particles) (list_of second.now) second_sums.old }
    ensures first { first_sums.new ≡ gathered P.given (list_of first.now) (list_of second.now) first_sums.old }
    ensures second { second_sums.new ≡ gathered P.given (list_of second.now) (list_of first.now) second_sums.old }
{
    for i in 0..first.spots.len() {
        let one = first.at(i);
        let mut sum = first_sums[i];
        near::<P>(tables, &one, second, extent, second_sums, &mut sum);
        first_sums[i] = sum;
    }
}

/// Adds what a member and those of a list give to one another, which is nothing where it is out of reach of the
/// box in which the list lies.
#[inline]
fn near<P: Pairing>(
    tables: &Tables,
    one: &Member,
    others: &Members,
    extent: &Extent,
    sums: &mut [P::Sum],
    sum: &mut P::Sum,
)
    requires laws { AreSums P.given P.has_room }
    requires one { IsSound one.now }
    requires others { AreMembers others.now }
    requires extent { AreWithin extent.now others.now.spots.now }
    requires count { length sums.old ≡ length others.now.spots.now }
    requires room { one.now.due ≡ true → P.has_room most_particles sum.old }
    requires rooms { HaveRoom P.has_room 1 (list_of others.now) sums.old }
    ensures own { sum.new ≡ fold (P.given one.now) sum.old (list_of others.now) }
    ensures others { IsPassed P.given one.now (list_of others.now) 0 (length sums.old) sums.old sums.new }
{
    if !Extent::point(&one.spot).is_apart(extent) {
        row::<P>(tables, one, others, 0, sums, sum);
    }
}

/// Adds what a member and those of a list from an index on give to one another, to the list's sums and to the
/// member's own.
#[inline]
fn row<P: Pairing>(
    tables: &Tables,
    one: &Member,
    others: &Members,
    from: usize,
    sums: &mut [P::Sum],
    sum: &mut P::Sum,
)
    requires laws { AreSums P.given P.has_room }
    requires one { IsSound one.now }
    requires others { AreMembers others.now }
    requires from { from ≤ length others.now.spots.now }
    requires count { length sums.old ≡ length others.now.spots.now }
    requires room { one.now.due ≡ true → P.has_room most_particles sum.old }
    requires rooms { HaveRoom P.has_room 1 (list_of others.now) sums.old }
    ensures own { sum.new ≡ fold (P.given one.now) sum.old (between from (length sums.old) (list_of others.now)) }
    ensures others { IsPassed P.given one.now (list_of others.now) from (length sums.old) sums.old sums.new }
{
    for j in from..others.spots.len() {
        let spot = &others.spots[j];
        let r2 = dist2(one.spot.place, spot.place);
        let reach = u64::from(one.spot.h.max(spot.h));
        if r2 < reach * reach {
            let other = Other {
                spot,
                pull: &others.pulls[j],
                due: others.due[j],
            };
            P::add_pair(tables, one, &other, r2, sum, &mut sums[j]);
        }
    }
}
