//! The order of faults, and the first of those that a walk meets.
ghost use Rattle.std.specs.Prelude.{◌≡◌, ◌≢◌, is_none, MatchBool};
ghost use Rattle.sph_deck.specs.FirstFault.{kind_of, place_of, IsNoLater};
ghost use Rattle.sph_deck.specs.inner.Meets.{IsEarlier, Meets};

use crate::fault::{DeckFault, Place};

impl DeckFault {
    /// The number of the fault's kind.
    fn kind(self) -> u32
        ensures { result ≡ kind_of self }
    {
        match self {
            DeckFault::TooLong => 1,
            DeckFault::NotToml => 2,
            DeckFault::Unknown(_) => 3,
            DeckFault::Missing(_) => 4,
            DeckFault::WrongKind(_) => 5,
            DeckFault::OutOfRange(_, _) => 6,
            DeckFault::NoParticles => 7,
            DeckFault::TooMany(_) => 8,
            DeckFault::BadEvery { .. } => 9,
            DeckFault::BadTicks { .. } => 10,
            DeckFault::BadBins { .. } => 11,
            DeckFault::Sums(_) => 12,
        }
    }

    /// Where the fault stands; the top for one that has no place.
    fn place(self) -> Place
        ensures { result ≡ place_of self }
    {
        match self {
            DeckFault::Unknown(place)
            | DeckFault::Missing(place)
            | DeckFault::WrongKind(place)
            | DeckFault::OutOfRange(place, _) => place,
            _ => Place { key: 0, row: 0 },
        }
    }

    /// Whether the fault comes no later than the other: by kind, then by row, then by key.
    fn is_no_later(self, other: DeckFault) -> bool
        ensures { MatchBool result (IsNoLater self other) (IsNoLater other self) }
    {
        let (kind, other_kind) = (self.kind(), other.kind());
        if kind != other_kind {
            return kind < other_kind;
        }
        let (place, other_place) = (self.place(), other.place());
        if place.row != other_place.row {
            return place.row < other_place.row;
        }
        place.key <= other_place.key
    }

    /// The fault that comes first.
    fn earlier(self, other: DeckFault) -> DeckFault
        ensures { IsEarlier self other result }
    {
        if self.is_no_later(other) { self } else { other }
    }
}

/// The faults that a walk has met, of which it keeps the first.
#[derive(Clone, Copy, Debug)]
pub(crate) struct Faults {
    pub(crate) first: Option<DeckFault>,
}

impl Faults {
    /// Takes one more fault into account.
    pub(crate) fn note(&mut self, fault: DeckFault)
        ensures met { Meets (λ f. f ≡ fault) self.old.first self.new.first }
        ensures kept { self.new.first ≢ None }
    {
        let first = match self.first {
            Some(first) => first.earlier(fault),
            None => fault,
        };
        self.first = Some(first);
    }

    /// Whether no fault was met.
    pub(crate) fn is_empty(&self) -> bool
        ensures { result ≡ is_none self.now.first }
    {
        self.first.is_none()
    }
}
