//! Boxes round the places of members, by which those out of reach are told without a look at each.
ghost use Rattle.std.specs.Prelude.{◌<◌};
ghost use Rattle.sph_num.specs.Space.{box_side};

use crate::rows::Spot;
use sph_num::BOX_SIDE;

/// The coordinates from the one to the other on an axis, both included; none where `high` is less than `low`.
#[derive(Clone, Copy, Debug)]
pub struct Interval {
    /// In length units.
    pub low: u32,
    /// In length units.
    pub high: u32,
    ghost low_in_box: { low < box_side },
    ghost high_in_box: { high < box_side },
}

impl Interval {
    ghost use Rattle.std.specs.Prelude.{◌≡◌, ℕ, ◌≤◌, min, max};
    ghost use Rattle.sph_num.specs.Space.{apart};
    ghost use Rattle.cell_block.specs.Extents.{IsIn, gap_of};

    /// The interval with a coordinate more.
    #[inline]
    fn with(self, x: u32) -> Interval
        requires { x < box_side }
        ensures low { result.low ≡ min self.low x }
        ensures high { result.high ≡ max self.high x }
    {
        Interval {
            low: self.low.min(x),
            high: self.high.max(x),
        }
    }

    /// No coordinate of the one is nearer than this to one of the other, either way round.
    #[inline]
    fn gap(self, other: Interval) -> u32
        ensures value { result ≡ gap_of self other }
        ensures keeps { (x y : ℕ) → IsIn self x → IsIn other y → result ≤ apart x y }
        ensures small { result < box_side }
    {
        let above = other.low.saturating_sub(self.high);
        let below = self.low.saturating_sub(other.high);
        let across = BOX_SIDE - self.high.max(other.high) + self.low.min(other.low);
        above.max(below).min(across)
    }
}

/// A box that no face of the periodic box cuts, and the greatest smoothing length in it. An empty box has
/// intervals without a coordinate and the length 0: no spot lies within it.
#[derive(Clone, Copy, Debug)]
pub struct Extent {
    pub x: Interval,
    pub y: Interval,
    pub z: Interval,
    /// The greatest smoothing length, in length units.
    pub h: u32,
}

impl Extent {
    ghost use Rattle.std.specs.Prelude.{◌≡◌, true};
    ghost use Rattle.sph_num.specs.Space.{IsPlace};
    ghost use Rattle.cell_block.specs.declared.rows.Spot.{Spot};
    ghost use Rattle.cell_block.specs.Extents.{AreApart, AreWithin, HavePlaces, IsWithin, is_apart};

    /// A box round some spots, with a length that none of theirs exceeds; of no spots the empty box.
    pub fn of(spots: &[Spot]) -> Extent
        requires { HavePlaces spots.now }
        ensures { AreWithin result spots.now }
    {
        let mut extent = Extent::empty();
        for spot in spots {
            extent = extent.with(spot);
        }
        extent
    }

    /// Whether the boxes are so far apart that no spot within the one is in reach of one within the other. The
    /// answer may be no where none is.
    #[inline]
    pub fn is_apart(&self, other: &Extent) -> bool
        ensures value { result ≡ is_apart self.now other.now }
        ensures beyond { result ≡ true → AreApart self.now other.now }
    {
        let reach = u64::from(self.h.max(other.h));
        let x = u64::from(self.x.gap(other.x));
        let y = u64::from(self.y.gap(other.y));
        let z = u64::from(self.z.gap(other.z));
        reach * reach <= x * x + y * y + z * z
    }

    /// The box of one spot.
    #[inline]
    pub fn point(spot: &Spot) -> Extent
        requires { IsPlace spot.now.place }
        ensures { IsWithin result spot.now }
    {
        Extent::empty().with(spot)
    }

    /// The empty box.
    #[inline]
    pub(crate) fn empty() -> Extent {
        let none = Interval {
            low: BOX_SIDE - 1,
            high: 0,
        };
        Extent {
            x: none,
            y: none,
            z: none,
            h: 0,
        }
    }

    /// The box with a spot more.
    #[inline]
    fn with(self, spot: &Spot) -> Extent
        requires { IsPlace spot.now.place }
        ensures spot { IsWithin result spot.now }
        ensures others { (other : Spot) → IsWithin self other → IsWithin result other }
    {
        let [x, y, z] = spot.place;
        Extent {
            x: self.x.with(x),
            y: self.y.with(y),
            z: self.z.with(z),
            h: self.h.max(spot.h),
        }
    }
}
