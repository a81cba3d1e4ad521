//! Quotients rounded down by a reciprocal, in place of a division.
ghost use Rattle.std.specs.Prelude.{◌≡◌, ℕ, ◌*◌, ◌/◌, ◌^◌, ◌<◌, ◌≤◌, IfSome};

/// `n * scale / divisor`, rounded down, from the reciprocal `2^shift * scale / divisor`, rounded down: by
/// one product, or nothing where that is too near a whole number to tell.
#[inline]
pub(crate) fn quotient(n: u64, reciprocal: u64, shift: u32) -> Option<u64>
    requires low { 64 ≤ shift }
    requires high { shift < 128 }
    ensures { (scale divisor : ℕ) → 0 < divisor → reciprocal ≡ (2 ^ shift * scale) / divisor
        → IfSome result (λ quotient. quotient ≡ (n * scale) / divisor) }
{
    let product = u128::from(n) * u128::from(reciprocal);
    let least = product >> shift;
    let greatest = (product + u128::from(n)) >> shift;
    if least == greatest {
        Some(least as u64)
    } else {
        None
    }
}
