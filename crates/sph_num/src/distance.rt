//! The distance in 1024ths of a smoothing length, and the square roots by which it is found.
ghost use Rattle.std.specs.Prelude.{◌≡◌, ◌+◌, ◌*◌, ◌<◌, ◌≤◌, ◌^◌};
ghost use Rattle.sph_num.specs.Kernel.{root_of};
ghost use Rattle.sph_num.specs.inner.Parts.{coarse_root, IsTableOf};
ghost use Rattle.sph_num.specs.Ranges.{IsLength};

use std::alloc::{AllocError, Global};

/// The distance in 1024ths of the smoothing length `h`, rounded down, from the square `r2` of the
/// distance. `Length::root` gives the same without a division but where a reciprocal can't tell the quotient.
pub fn root(r2: u64, h: u32) -> u32
    requires h { IsLength h }
    requires in_reach { r2 < h * h }
    ensures value { result ≡ root_of r2 h }
    ensures below { result < 1024 }
{
    let length = u64::from(h);
    let share = (r2 << 20) / (length * length);
    share.isqrt() as u32
}

/// The square roots of the multiples of 256 below 2^20, rounded down.
#[derive(Debug, Drop)]
pub(crate) struct Roots {
    table: Vec<u16>,
    ghost are_roots: { IsTableOf 4096 coarse_root table.items },
}

impl Roots {
    /// The roots, 8 KiB of them; fails only for want of memory.
    pub(crate) fn new(alloc: Global) -> Result<Roots, AllocError> {
        let table = (0..4096).map(coarse_root).collect(alloc)?;
        Ok(Roots { table })
    }

    /// The square root of a number below 2^20, rounded down: up from that of the last multiple of 256,
    /// in one step at most from 2^14 on, which is taken without a branch.
    #[inline]
    pub(crate) fn square_root(&self, square: u64) -> u32
        requires { square < 2 ^ 20 }
        ensures within { result * result ≤ square }
        ensures above { square < (result + 1) * (result + 1) }
        ensures below { result < 1024 }
    {
        let start = self.root_before(square);
        let next = start + u64::from((start + 1) * (start + 1) <= square);
        root_from(next, square) as u32
    }

    /// The square root of the last multiple of 256 up to a number, rounded down.
    #[inline]
    fn root_before(&self, square: u64) -> u64
        requires { square < 2 ^ 20 }
        ensures within { result * result ≤ square }
        ensures below { result < 1024 }
    {
        u64::from(self.table[(square >> 8) as usize])
    }
}

/// The square root of so many times 256, rounded down.
fn coarse_root(step: u64) -> u16
    requires { step < 4096 }
    ensures { result ≡ coarse_root step }
{
    (step << 8).isqrt() as u16
}

/// The square root of a number below 2^20, rounded down, from one that is no greater up.
#[inline]
fn root_from(start: u64, square: u64) -> u64
    requires start { start * start ≤ square }
    requires small { square < 2 ^ 20 }
    ensures within { result * result ≤ square }
    ensures above { square < (result + 1) * (result + 1) }
    ensures below { result < 1024 }
{
    let mut root = start;
    while (root + 1) * (root + 1) <= square {
        root += 1;
    }
    root
}
