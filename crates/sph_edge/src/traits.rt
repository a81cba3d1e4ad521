//! Sources and sinks of bytes, by what they have left, what they hold and how often they failed.
ghost use Rattle.std.specs.Prelude.{ℕ, List, Option};
ghost use Rattle.std.specs.Io.{ReadsAtMost};
ghost use Rattle.sph_edge.specs.Causes.{HasCause};
ghost use Rattle.sph_edge.specs.Bytes.{TakesBytes, GivesBytes};

/// A call of a source or a sink failed, and its count of faults rose.
#[derive(Clone, Copy, Debug, PartialEq, Eq)]
pub struct Failed;

/// Where bytes come from.
pub trait Source {
    // The bytes still to come, where the source tells them.
    ghost left: { Self → Option (List ℕ) };

    // How often a call failed; the count stays at 2^64 - 1 once it is there.
    ghost faults: { Self → ℕ };

    /// Puts the next bytes at the front of `into` and says how many; none at the end of input. A call
    /// that fails says nothing of the bytes that are left.
    fn take(&mut self, into: &mut [u8]) -> Result<usize, Failed>
        ensures bound { ReadsAtMost result into.new }
        ensures bytes { TakesBytes (left self.old) (left self.new) result into.new }
        ensures cause { HasCause (faults self.old) (faults self.new) result };
}

/// Where bytes go.
pub trait Sink {
    // The bytes that were appended, where the sink tells them.
    ghost held: { Self → Option (List ℕ) };

    // How often a call failed; the count stays at 2^64 - 1 once it is there.
    ghost faults: { Self → ℕ };

    /// Appends the first bytes of the piece and says how many: at least one where there is one. A call
    /// that fails may have appended some of them.
    fn give(&mut self, bytes: &[u8]) -> Result<usize, Failed>
        ensures bytes { GivesBytes (held self.old) (held self.new) result bytes.now }
        ensures cause { HasCause (faults self.old) (faults self.new) result };
}
