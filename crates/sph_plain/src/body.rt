//! What the sums of a step read of each particle.
ghost use Rattle.std.specs.Prelude.{◌≡◌, ◌<◌, ◌^◌};
ghost use Rattle.sph_plain.specs.inner.Bodies.{spot_of, with_ghost};

use sph_num::Pull;

/// A particle at the tick of a step.
#[derive(Clone, Copy, Debug)]
pub(crate) struct Body {
    pub place: [u32; 3],
    pub pull: Pull,
}

/// Where a body is and how far it reaches: all that the test of a pair's distance reads, in 16 bytes.
#[derive(Clone, Copy, Debug)]
pub(crate) struct Spot {
    pub place: [u32; 3],
    pub h: u32,
}

/// Where the body is.
pub(crate) fn spot_of(body: &Body) -> Spot
    ensures { result ≡ spot_of body.now }
{
    Spot {
        place: body.place,
        h: body.pull.length().h(),
    }
}

/// The body with another ghost.
pub(crate) fn with_ghost(body: &Body, g: u64) -> Body
    requires { g < 2 ^ 42 }
    ensures { result ≡ with_ghost body.now g }
{
    Body {
        place: body.place,
        pull: Pull::new(body.pull.length(), body.pull.mass(), g),
    }
}
