//! The members of a block as the pair loops read them.
ghost use Rattle.std.specs.Prelude.{◌≡◌, ◌<◌, length, get_or};
ghost use Rattle.cell_kern.specs.inner.Gathered.{AreMembers, list_of, no_member};

use cell_block::Spot;
use sph_num::Pull;

/// A member as its pairs see it.
#[derive(Clone, Copy, Debug)]
pub(crate) struct Member {
    pub spot: Spot,
    pub pull: Pull,
    pub due: bool,
}

/// The other member of a pair, lent from the lists in which it stands.
#[derive(Clone, Copy, Debug)]
pub(crate) struct Other<'a> {
    pub spot: &'a Spot,
    pub pull: &'a Pull,
    pub due: bool,
}

/// The members of a block: three lists with an element for each.
#[derive(Clone, Copy, Debug)]
pub(crate) struct Members<'a> {
    pub spots: &'a [Spot],
    pub pulls: &'a [Pull],
    pub due: &'a [bool],
}

impl Members<'_> {
    /// The member at an index.
    #[inline]
    pub(crate) fn at(&self, i: usize) -> Member
        requires members { AreMembers self.now }
        requires i { i < length self.now.spots.now }
        ensures { result ≡ get_or (list_of self.now) i no_member }
    {
        Member {
            spot: self.spots[i],
            pull: self.pulls[i],
            due: self.due[i],
        }
    }
}
