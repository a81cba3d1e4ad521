//! Particles in a periodic box, and what one pair of them gives, in whole numbers.
#![tactic(auto)]

mod density;
mod distance;
mod force;
mod kernel;
mod kind;
mod length;
mod list;
mod motion;
mod particle;
mod pull;
mod reciprocal;
mod space;
mod vector;

pub use density::density_part;
pub use distance::root;
pub use force::{force_part, ghost_of};
pub use kernel::{KERNEL_CONSTANT, Tables};
pub use kind::Kind;
pub use length::Length;
pub use list::ParticleList;
pub use motion::position;
pub use particle::{Bounds, MOST_PARTICLES, Params, Particle};
pub use pull::Pull;
pub use space::{BOX_SIDE, dist2, minimal};
pub use vector::greatest_size;
