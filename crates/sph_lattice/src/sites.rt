//! The particles of a lattice: one near each site, its numbers drawn from the seed.
ghost use Rattle.std.specs.Prelude.{◌≡◌, ◌<◌, ◌*◌, All, IfOk};
ghost use Rattle.sph_lattice.specs.Lattice.{IsSide, lattice_particles, coordinate_drawn, particle_drawn, momentum_drawn, spacing};
ghost use Rattle.sph_lattice.specs.inner.Sites.{site_numbered};

use crate::draws::Draws;
use sph_num::{BOX_SIDE, Particle};
use std::alloc::{AllocError, Global};

/// The particles of a lattice with so many sites on an edge, in the order in which they are drawn.
pub(crate) fn lattice_particles(
    alloc: Global,
    side: u32,
    seed: u64,
) -> Result<Vec<Particle>, AllocError>
    requires { IsSide side }
    ensures { IfOk result (λ particles. particles.items ≡ lattice_particles side seed) }
{
    let count = side * side * side;
    let mut particles = Vec::with_capacity(alloc, count as usize)?;
    let mut draws = Draws { number: seed };
    for number in 0..count {
        particles.push(particle_drawn(side, site_numbered(side, number), draws.seven()))?;
    }
    Ok(particles)
}

/// The site of a number from 0, by its steps on the three axes; those on the last axis run first.
fn site_numbered(side: u32, number: u32) -> [u32; 3]
    requires side { IsSide side }
    requires number { number < side * side * side }
    ensures value { result ≡ site_numbered side number }
    ensures within { All (λ steps. steps < side) result }
{
    [number / side / side, number / side % side, number % side]
}

/// The particle near a site from its seven draws, as it is at the start of a run.
fn particle_drawn(side: u32, site: [u32; 3], draws: [u32; 7]) -> Particle
    requires side { IsSide side }
    requires site { All (λ steps. steps < side) site }
    ensures { result ≡ particle_drawn side site draws }
{
    let [a, b, c] = site;
    let [mass, x, y, z, px, py, pz] = draws;
    let p = [momentum_drawn(px), momentum_drawn(py), momentum_drawn(pz)];
    Particle {
        mass: 1024 + mass % 1024,
        h: (2 * spacing(side)).min(131_072),
        x0: [
            coordinate_drawn(side, a, x),
            coordinate_drawn(side, b, y),
            coordinate_drawn(side, c, z),
        ],
        t0: 0,
        p,
        q: p,
        f: [0; 3],
        rho: 0,
        g: 0,
        bin: 0,
    }
}

/// The distance of two sites on an axis, in length units.
fn spacing(side: u32) -> u32
    requires { IsSide side }
    ensures { result ≡ spacing side }
{
    BOX_SIDE / side
}

/// A coordinate at most a quarter of the spacing past its site.
fn coordinate_drawn(side: u32, steps: u32, draw: u32) -> u32
    requires side { IsSide side }
    requires steps { steps < side }
    ensures { result ≡ coordinate_drawn side steps draw }
{
    let spacing = spacing(side);
    steps * spacing + draw % (spacing / 4)
}

/// A component of a momentum, of either sign.
fn momentum_drawn(draw: u32) -> i128
    ensures { result ≡ momentum_drawn draw }
{
    i128::from(draw % (1 << 24)) - (1 << 23)
}
