//! The cubic spline kernel of Monaghan and Lattanzio (1985), over 1024ths of the smoothing length.
ghost use Rattle.std.specs.Prelude.{◌≡◌, ◌≤◌, ◌^◌};
ghost use Rattle.sph_num.specs.Kernel.{kernel_w, kernel_u};
ghost use Rattle.sph_num.specs.inner.Parts.{IsTableOf};

use crate::distance::Roots;
use std::alloc::{AllocError, Global};

/// The kernel's constant, 8 over pi at a scale of 2^16.
pub const KERNEL_CONSTANT: u64 = 166_886;

/// The kernel at each of the 1,025 distances, and the square roots by which a distance is found: made
/// once for a run.
#[derive(Debug, Drop)]
pub struct Tables {
    w: Vec<u64>,
    u: Vec<u32>,
    pub(crate) roots: Roots,
    ghost w_is_kernel: { IsTableOf 1025 kernel_w w.items },
    ghost u_is_slope: { IsTableOf 1025 kernel_u u.items },
}

impl Tables {
    /// The tables, 20 KiB of them; fails only for want of memory.
    pub fn new(alloc: Global) -> Result<Tables, AllocError> {
        let w = (0..1025).map(kernel_at).collect(alloc)?;
        let u = (0..1025).map(slope_at).collect(alloc)?;
        let roots = Roots::new(alloc)?;
        Ok(Tables { w, u, roots })
    }

    /// The kernel at a distance of `s` 1024ths of the smoothing length, at a scale of 2^30.
    #[inline]
    pub fn w(&self, s: u32) -> u64
        requires { s ≤ 1024 }
        ensures value { result ≡ kernel_w s }
        ensures below { result ≤ 2 ^ 30 }
    {
        self.w[s as usize]
    }

    /// The kernel's slope over its distance, with the sign turned, at a distance of `s` 1024ths of the
    /// smoothing length, at a scale of 12288.
    #[inline]
    pub fn u(&self, s: u32) -> u32
        requires { s ≤ 1024 }
        ensures value { result ≡ kernel_u s }
        ensures below { result ≤ 12288 }
    {
        self.u[s as usize]
    }
}

/// The kernel's two cubics, which meet at 512.
fn kernel_at(s: u64) -> u64
    requires { s ≤ 1024 }
    ensures { result ≡ kernel_w s }
{
    if s <= 512 {
        (1 << 30) + 6 * (s * s * s) - 6 * 1024 * (s * s)
    } else {
        let rest = 1024 - s;
        2 * (rest * rest * rest)
    }
}

/// The slope's line and its quotient, which meet at 512.
fn slope_at(s: u32) -> u32
    requires { s ≤ 1024 }
    ensures { result ≡ kernel_u s }
{
    if s <= 512 {
        12_288 - 18 * s
    } else {
        let rest = 1024 - s;
        6 * (rest * rest) / s
    }
}
