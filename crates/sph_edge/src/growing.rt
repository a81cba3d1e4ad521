//! A sink in memory that grows with what it is given.
ghost use Rattle.std.specs.Prelude.{◌≡◌, [], Some};
ghost use Rattle.sph_edge.specs.Bytes.{GivesBytes};
ghost use Rattle.sph_edge.specs.Causes.{HasCause};
ghost use Rattle.sph_edge.specs.Growing.{TakesWhole};

use crate::traits::{Failed, Sink};
use std::alloc::Global;

/// A sink that takes each piece whole. Its one fault is want of memory, so a write fault of this sink tells just that.
#[derive(Debug, Drop)]
pub struct GrowingSink {
    held: Vec<u8>,
    faults: u64,
}

impl GrowingSink {
    /// An empty sink.
    pub fn new(alloc: Global) -> GrowingSink
        ensures held { ⟦<GrowingSink as Sink>⟧.held result ≡ Some [] }
        ensures faults { ⟦<GrowingSink as Sink>⟧.faults result ≡ 0 }
    {
        GrowingSink {
            held: Vec::new(alloc),
            faults: 0,
        }
    }

    /// The bytes that were given.
    pub fn into_held(self) -> Vec<u8>
        ensures { ⟦<GrowingSink as Sink>⟧.held self ≡ Some result.items }
    {
        self.held
    }
}

impl Sink for GrowingSink {
    ghost held = { λ sink. Some sink.held.items };

    ghost faults = { λ sink. sink.faults };

    fn give(&mut self, bytes: &[u8]) -> Result<usize, Failed>
        ensures bytes { GivesBytes (⟦<GrowingSink as Sink>⟧.held self.old) (⟦<GrowingSink as Sink>⟧.held self.new) result bytes.now }
        ensures cause { HasCause (⟦<GrowingSink as Sink>⟧.faults self.old) (⟦<GrowingSink as Sink>⟧.faults self.new) result }
        ensures exact { TakesWhole (⟦<GrowingSink as Sink>⟧.held self.old) (⟦<GrowingSink as Sink>⟧.held self.new) result bytes.now }
    {
        if self.held.extend_from_slice(bytes).is_err() {
            self.faults = self.faults.saturating_add(1);
            return Err(Failed);
        }
        Ok(bytes.len())
    }
}
