//! Time bins after Hernquist and Katz (1989): a particle of bin b has steps of 2^b ticks.
ghost use Rattle.std.specs.Prelude.{◌≡◌, ◌+◌, ◌*◌, ◌<◌, ◌≤◌, ◌^◌, ◌&&◌, nat_le};
ghost use Rattle.sph_bins.specs.Bins.{IsDue, IsTickAfter, bin_of, is_due};

use sph_num::Params;

/// Whether a particle of this bin is due at tick `t`.
#[inline]
pub fn due(t: u32, bin: u32) -> bool
    requires { bin ≤ 10 }
    ensures { result ≡ is_due t bin }
{
    t % (1 << bin) == 0
}

/// The first tick above `t` at which a particle may be due.
pub fn next_tick(t: u32, bin_min: u32) -> u32
    requires tick { t ≤ 65536 }
    requires bin { bin_min ≤ 10 }
    ensures value { IsTickAfter t bin_min result }
    ensures of_step_tick { IsDue t bin_min → result ≡ t + 2 ^ bin_min }
{
    let step = 1 << bin_min;
    (t / step + 1) * step
}

/// The new bin of a particle that is due at tick `t`: the longest step that ends in time with the others
/// of its bin and isn't too long for the force, whose greatest component is `fmax`.
pub fn choose(t: u32, fmax: u128, mass: u32, h: u32, params: &Params) -> u32
    requires force { fmax < 2 ^ 96 }
    requires bins { params.now.bin_min ≤ params.now.bin_max }
    requires bin_max { params.now.bin_max ≤ 10 }
    requires due { IsDue t params.now.bin_min }
    ensures value { result ≡ bin_of params.now t fmax mass h }
    ensures low { params.now.bin_min ≤ result }
    ensures high { result ≤ params.now.bin_max }
    ensures due { IsDue t result }
{
    let allowed = u128::from(params.accuracy) * u128::from(mass) * u128::from(h);
    let mut bin = params.bin_max;
    while bin > params.bin_min && !fits(t, fmax, allowed, bin) {
        bin -= 1;
    }
    bin
}

// Whether a step of this bin may begin at tick `t` and is short enough for the force.
fn fits(t: u32, fmax: u128, allowed: u128, bin: u32) -> bool
    requires force { fmax < 2 ^ 96 }
    requires bin { bin ≤ 10 }
    ensures { result ≡ (is_due t bin && nat_le (fmax * 4 ^ bin) allowed) }
{
    due(t, bin) && fmax << (2 * bin) <= allowed
}
