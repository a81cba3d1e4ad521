//! The draws of a seed, from Knuth's linear congruential sequence modulo 2^64 (MMIX).
ghost use Rattle.std.specs.Prelude.{◌≡◌, ◌/◌, ◌^◌, ◌+◌, ℕ};
ghost use Rattle.sph_lattice.specs.Lattice.{number_after, sequence, seven_draws};

const MULTIPLIER: u64 = 6_364_136_223_846_793_005;

const INCREMENT: u64 = 1_442_695_040_888_963_407;

/// Where the draws of a seed stand in its sequence.
#[derive(Drop)]
pub(crate) struct Draws {
    pub(crate) number: u64,
}

impl Draws {
    /// The next draw: the upper half of the sequence's next number.
    fn draw(&mut self) -> u32
        ensures value { result ≡ number_after self.old.number / 2 ^ 32 }
        ensures number { self.new.number ≡ number_after self.old.number }
    {
        self.number = self.number.wrapping_mul(MULTIPLIER).wrapping_add(INCREMENT);
        (self.number >> 32) as u32
    }

    /// The seven draws of a particle, in their order.
    pub(crate) fn seven(&mut self) -> [u32; 7]
        ensures draws { (seed k : ℕ) → self.old.number ≡ sequence seed k → result ≡ seven_draws seed k }
        ensures number { (seed k : ℕ) → self.old.number ≡ sequence seed k → self.new.number ≡ sequence seed (k + 7) }
    {
        let first = self.draw();
        let second = self.draw();
        let third = self.draw();
        let fourth = self.draw();
        let fifth = self.draw();
        let sixth = self.draw();
        let seventh = self.draw();
        [first, second, third, fourth, fifth, sixth, seventh]
    }
}

#[cfg(test)]
mod tests {
    use super::*;

    #[test]
    fn draws_the_upper_half(rt: HostRuntime) {
        let mut draws = Draws { number: 0 };
        assert_eq!(rt; draws.draw(), 335_903_614);
    }
}
