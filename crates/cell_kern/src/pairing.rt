//! What one pair of members gives to each of its two, for each kind of sum.
ghost use Rattle.std.specs.Prelude.{◌≡◌, ℕ, true};
ghost use Rattle.sph_num.specs.Force.{InReach};
ghost use Rattle.sph_num.specs.Space.{dist2};
ghost use Rattle.cell_kern.specs.declared.members.Member.{Member};
ghost use Rattle.cell_kern.specs.inner.Gathered.{IsSound, of_other};

use crate::members::{Member, Other};
use sph_num::Tables;

/// A kind of sum, to which the members of a pair give.
pub(crate) trait Pairing {
    /// The sum of one member.
    type Sum: Copy;

    // A member's sum after what another gives to it.
    ghost given: { Member → Self.Sum → Member → Self.Sum };

    // A sum can take as many parts more.
    ghost has_room: { ℕ → Self.Sum → Type 0 };

    /// Adds what a member gives to itself.
    fn add_own(tables: &Tables, one: &Member, sum: &mut Self::Sum)
        requires one { IsSound one.now }
        requires room { one.now.due ≡ true → has_room 1 sum.old }
        ensures { sum.new ≡ given one.now sum.old one.now };

    /// Adds what two members at the square `r2` of a distance give to each other.
    fn add_pair(
        tables: &Tables,
        one: &Member,
        other: &Other,
        r2: u64,
        sum: &mut Self::Sum,
        other_sum: &mut Self::Sum,
    )
        requires one { IsSound one.now }
        requires other { IsSound (of_other other.now) }
        requires distance { r2 ≡ dist2 one.now.spot.place other.now.spot.now.place }
        requires near { InReach r2 one.now.pull.h other.now.pull.now.h }
        requires room { one.now.due ≡ true → has_room 1 sum.old }
        requires other_room { other.now.due ≡ true → has_room 1 other_sum.old }
        ensures one { sum.new ≡ given one.now sum.old (of_other other.now) }
        ensures other { other_sum.new ≡ given (of_other other.now) other_sum.old one.now };
}
