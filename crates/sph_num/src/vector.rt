//! Vectors of three signed components.
ghost use Rattle.std.specs.Prelude.{◌≡◌};
ghost use Rattle.sph_num.specs.Bound.{greatest_size};

/// The greatest absolute value of a vector's components.
pub fn greatest_size(vector: &[i128]) -> u128
    ensures { result ≡ greatest_size vector.now }
{
    vector.iter().fold(
        0,
        |greatest, component| greatest.max(component.unsigned_abs()),
    )
}
