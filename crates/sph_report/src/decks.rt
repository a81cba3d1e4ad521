//! What the decks of the tests share.

/// The top, but for how the work is cut up.
pub(crate) const TOP: &str =
    "ticks = 0\nevery = 1\nbin_min = 0\nbin_max = 0\nsound = 65536\nshift = 20\naccuracy = 0\nslack = 0\n";

/// Two particles at rest, half a smoothing length apart.
pub(crate) const PAIR: &str =
    "[[particle]]\nmass = 1024\nh = 1024\nx = 1000\ny = 0\nz = 0\npx = 0\npy = 0\npz = 0\n\
     [[particle]]\nmass = 1024\nh = 1024\nx = 1512\ny = 0\nz = 0\npx = 0\npy = 0\npz = 0\n";
