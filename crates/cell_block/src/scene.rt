//! What a step starts from, as plain data: the particles, who stands in which leaf, and the tasks.
ghost use Rattle.std.specs.Prelude.{◌≡◌, ◌<◌, length};
ghost use Rattle.cell_block.specs.Scene.{IsGoodScene, particle_at, place_of};

use crate::flat::Flat;
use sph_num::{Bounds, Kind, Params, Particle, ParticleList, position};

/// A task, by the leaves below its cells: each range goes from the first number up to the second, which is
/// excluded.
#[derive(Clone, Copy, Debug, PartialEq, Eq)]
pub struct TaskLine {
    pub kind: Kind,
    pub first: (u32, u32),
    pub second: Option<(u32, u32)>,
}

/// The particles of a leaf, by their indices from 0, rising.
pub type LeafMembers = Flat<u32>;

/// The leaves by their numbers.
pub type LeafList = Flat<LeafMembers>;

/// The tasks by their numbers.
pub type LineList = Flat<TaskLine>;

/// The plain data that a step starts from.
#[derive(Debug, Drop)]
pub struct Scene {
    /// The tick of the step.
    pub tick: u32,
    pub params: Params,
    /// The bounds of the deck's numbers.
    pub bounds: Bounds,
    /// The particles before the step.
    pub start: ParticleList,
    pub leaves: LeafList,
    pub tasks: LineList,
    /// Whether tasks take the particles to their places at the tick; else the blocks have them there from
    /// the start.
    pub drift: bool,
}

impl Scene {
    /// The particle of an index from 0, before the step.
    pub fn particle(&self, i: u32) -> &Particle
        requires { i < length self.now.start }
        ensures { result.now ≡ particle_at self.now i }
    {
        &self.start.as_slice()[i as usize]
    }

    /// Where the particle of an index from 0 stands at the tick, in length units.
    pub fn place(&self, i: u32) -> [u32; 3]
        requires good { IsGoodScene self.now }
        requires within { i < length self.now.start }
        ensures { result ≡ place_of self.now (particle_at self.now i) }
    {
        position(self.particle(i), self.tick, self.params.shift)
    }
}
