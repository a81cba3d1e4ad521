//! The chains of a seat, the newest first.
ghost use Rattle.std.specs.Prelude.{◌≡◌, ◌<◌, ◌∷◌, length, slice_get, unwrap_or};
ghost use Rattle.qs_core.specs.Steps.{no_chain, rest};
ghost use Rattle.qs_play.specs.inner.Held.{chains_of};

use super::chain::LockChain;

/// The chains of a seat: no more than two.
#[derive(Clone, Copy)]
pub enum Chains {
    Empty,
    One(LockChain),
    Two { newest: LockChain, older: LockChain },
}

impl Chains {
    /// The newest chain: all 0 where there is none.
    pub fn newest(self) -> LockChain
        ensures { result ≡ unwrap_or (slice_get (chains_of self) 0) no_chain }
    {
        match self {
            Chains::Empty => LockChain::new(0),
            Chains::One(newest) => newest,
            Chains::Two { newest, .. } => newest,
        }
    }

    /// A chain before the others.
    pub fn with(self, chain: LockChain) -> Chains
        requires { length (chains_of self) < 2 }
        ensures { chains_of result ≡ chain ∷ chains_of self }
    {
        match self {
            Chains::Empty => Chains::One(chain),
            Chains::One(older) => Chains::Two {
                newest: chain,
                older,
            },
            Chains::Two { .. } => unreachable!(),
        }
    }

    /// A chain in place of the newest.
    pub fn with_newest(self, chain: LockChain) -> Chains
        ensures { chains_of result ≡ chain ∷ rest (chains_of self) }
    {
        match self {
            Chains::Empty | Chains::One(_) => Chains::One(chain),
            Chains::Two { older, .. } => Chains::Two {
                newest: chain,
                older,
            },
        }
    }

    /// The chains without the newest.
    pub fn without_newest(self) -> Chains
        ensures { chains_of result ≡ rest (chains_of self) }
    {
        match self {
            Chains::Empty | Chains::One(_) => Chains::Empty,
            Chains::Two { older, .. } => Chains::One(older),
        }
    }
}
