//! The keys of a deck.
ghost use Rattle.std.specs.Prelude.{◌≡◌, Some, find};
ghost use Rattle.std.specs.Str.{bytes_eq};
ghost use Rattle.sph_deck.specs.Keys.{is_of_top, key_numbered, keys, name_of, number_of, range_of};

use sph_num::BOX_SIDE;

/// A key of the top, down to `Particle`, or of one particle, in the order of their numbers. All but `Particle` want
/// an integer.
#[derive(Clone, Copy, Debug, PartialEq, Eq)]
pub enum Key {
    Ticks,
    Every,
    BinMin,
    BinMax,
    Sound,
    Shift,
    Accuracy,
    Leaf,
    Pairs,
    Slack,
    Particle,
    Mass,
    H,
    X,
    Y,
    Z,
    Px,
    Py,
    Pz,
}

/// The range of a coordinate.
const COORDINATE: Option<(i64, i64)> = Some((0, BOX_SIDE as i64 - 1));

/// The range of a component of a momentum.
const MOMENTUM: Option<(i64, i64)> = Some((-i64::MAX, i64::MAX));

/// The table of keys, in the order of their numbers from 1: each with its name, and the least and the
/// greatest integer that it takes.
static TABLE: [(Key, &str, Option<(i64, i64)>); 19] = [
    (Key::Ticks, "ticks", Some((0, 65_536))),
    (Key::Every, "every", Some((1, 65_536))),
    (Key::BinMin, "bin_min", Some((0, 10))),
    (Key::BinMax, "bin_max", Some((0, 10))),
    (Key::Sound, "sound", Some((1, 65_536))),
    (Key::Shift, "shift", Some((0, 60))),
    (Key::Accuracy, "accuracy", Some((0, 4_294_967_295))),
    (Key::Leaf, "leaf", Some((1, 256))),
    (Key::Pairs, "pairs", Some((1, 1_073_741_824))),
    (Key::Slack, "slack", Some((0, 65_535))),
    (Key::Particle, "particle", None),
    (Key::Mass, "mass", Some((1, 65_536))),
    (Key::H, "h", Some((1_024, 131_072))),
    (Key::X, "x", COORDINATE),
    (Key::Y, "y", COORDINATE),
    (Key::Z, "z", COORDINATE),
    (Key::Px, "px", MOMENTUM),
    (Key::Py, "py", MOMENTUM),
    (Key::Pz, "pz", MOMENTUM),
];

impl Key {
    /// The key's name in a deck.
    pub fn name(self) -> &'static str
        ensures { result.now ≡ name_of self }
    {
        TABLE[self as usize].1
    }

    /// The key's number in a place, from 1.
    pub fn number(self) -> u32
        ensures { result ≡ number_of self }
    {
        self as u32 + 1
    }

    /// The key of a number, if there is one.
    pub fn numbered(number: u32) -> Option<Key>
        ensures { result ≡ key_numbered number }
    {
        let index = number.checked_sub(1)? as usize;
        if index < TABLE.len() {
            Some(TABLE[index].0)
        } else {
            None
        }
    }

    /// The key of a name, if there is one.
    pub(crate) fn named(name: &str) -> Option<Key>
        ensures { result ≡ find (λ key. bytes_eq (name_of key) name.now) keys }
    {
        TABLE
            .iter()
            .map(|entry| entry.0)
            .find(|key| key.name() == name)
    }

    /// Whether the key stands at the top.
    pub(crate) fn is_of_top(self) -> bool
        ensures { result ≡ is_of_top self }
    {
        self.number() <= Key::Particle.number()
    }

    /// The least and the greatest integer that the key takes; none for the array of particles.
    pub fn range(self) -> Option<(i64, i64)>
        ensures { result ≡ range_of self }
    {
        TABLE[self as usize].2
    }
}
