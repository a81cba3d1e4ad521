//! What can be wrong with a deck, and where.

/// A key's number, 0 for a name that isn't a key, and a row: 0 for the top, i for the i-th particle.
#[derive(Clone, Copy, Debug, PartialEq, Eq)]
pub struct Place {
    pub key: u32,
    pub row: u32,
}

/// The faults of a deck, in the order in which they are answered.
#[derive(Clone, Copy, Debug, PartialEq, Eq)]
pub enum DeckFault {
    /// The text has more than 16,777,216 bytes.
    TooLong,
    /// The text is no TOML document.
    NotToml,
    /// A name that isn't one of the row's keys.
    Unknown(Place),
    /// A key that the row lacks.
    Missing(Place),
    /// A value that is no integer, no array of particles, or no table of one.
    WrongKind(Place),
    /// An integer outside its key's range.
    OutOfRange(Place, i64),
    /// The array of particles is empty.
    NoParticles,
    /// There are more than 32,768 particles.
    TooMany(u64),
    /// `every` is no multiple of `2^bin_max`.
    BadEvery { every: u32, unit: u32 },
    /// `ticks` is no multiple of `every`.
    BadTicks { ticks: u32, every: u32 },
    /// `bin_min` is above `bin_max`.
    BadBins { min: u32, max: u32 },
    /// The momenta may reach this bound, which is 2^96 or more.
    Sums(u128),
}
