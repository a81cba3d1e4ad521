//! A snapshot: the particles at a tick, as rows.
use std::marker::Model;

/// One particle of a snapshot.
#[derive(Clone, Copy, Debug, PartialEq, Eq)]
pub struct SnapRow {
    /// The particle's place in the deck, from 1.
    pub number: u32,
    pub mass: u32,
    /// The smoothing length, in length units.
    pub h: u32,
    /// The place at the tick, in length units; the box has a side of 2^20.
    pub x: [u32; 3],
    /// The momentum at the tick.
    pub q: [i128; 3],
    /// The density at the tick.
    pub rho: u64,
    /// The time bin: the particle's step is `2^bin` ticks.
    pub bin: u32,
}

/// The rows of a snapshot, in the order of the deck.
#[derive(Debug, Drop)]
pub struct RowList {
    items: Vec<SnapRow>,
}

impl Model for RowList {
    ghost use Rattle.std.specs.Prelude.{List};
    ghost use Rattle.sph_snap.specs.declared.snapshot.SnapRow.{SnapRow};

    ghost Value = { List SnapRow };

    ghost view = { λ l. l.items.items };
}

impl RowList {
    ghost use Rattle.std.specs.Prelude.{◌≡◌, length, slice_get, option_copied};

    /// The list of these rows, in their order.
    pub fn from_vec(items: Vec<SnapRow>) -> RowList
        ensures { result ≡ items.items }
    {
        RowList { items }
    }

    /// The rows as a slice.
    pub fn as_slice(&self) -> &[SnapRow]
        ensures { result.now ≡ self.now }
    {
        self.items.as_slice()
    }

    /// How many rows there are.
    pub fn len(&self) -> usize
        ensures { result ≡ length self.now }
    {
        self.items.len()
    }

    /// The row at an index from 0, if there is one.
    pub fn get(&self, i: usize) -> Option<&SnapRow>
        ensures { option_copied result ≡ slice_get self.now i }
    {
        self.items.as_slice().get(i)
    }
}

/// The particles at a tick.
#[derive(Debug, Drop)]
pub struct Snapshot {
    pub tick: u32,
    pub rows: RowList,
}
