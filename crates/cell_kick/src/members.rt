//! The loops over the members of a leaf.
ghost use Rattle.std.specs.Prelude.{◌≡◌, ℕ, ◌<◌, ◌≤◌, true, false, All, length, get_or};
ghost use Rattle.sph_num.specs.Force.{ghost_value};
ghost use Rattle.sph_num.specs.Pull.{puller};
ghost use Rattle.cell_block.specs.Reading.{no_moving};
ghost use Rattle.cell_block.specs.Scene.{IsGoodScene};
ghost use Rattle.cell_kick.specs.inner.Written.{AreEach, AreSummed, CanKick, force_at_index, kick_at, kicked_by, ghosts_at, spots_at, tick_spot};

use cell_block::{Moving, Scene, Spot};
use sph_bins::kick;
use sph_num::{Pull, ghost_of};

/// What a kick reads of the members: three lists with an element for each.
#[derive(Clone, Copy, Debug)]
pub(crate) struct Summed<'a> {
    pub spots: &'a [Spot],
    pub due: &'a [bool],
    pub forces: &'a [[i128; 3]],
}

/// Takes each of some members to its place at the tick.
pub(crate) fn place_members(scene: &Scene, members: &[u32], spots: &mut [Spot])
    requires good { IsGoodScene scene.now }
    requires within { All (λ i. i < length scene.now.start) members.now }
    requires one_each { length spots.old ≡ length members.now }
    ensures { AreEach (spots_at scene.now members.now) spots.old spots.new }
{
    for k in 0..members.len() {
        spots[k] = tick_spot(scene, members[k]);
    }
}

/// Where a particle stands at the tick, and how far it reaches.
fn tick_spot(scene: &Scene, i: u32) -> Spot
    requires good { IsGoodScene scene.now }
    requires within { i < length scene.now.start }
    ensures { result ≡ tick_spot scene.now i }
{
    Spot {
        place: scene.place(i),
        h: scene.particle(i).h,
    }
}

/// Makes the ghosts of the due ones of some members.
pub(crate) fn make_ghosts(sound: u32, due: &[bool], rhos: &[u64], pulls: &mut [Pull])
    requires sound { sound ≤ 65536 }
    requires due { length due.now ≡ length pulls.old }
    requires rhos { length rhos.now ≡ length pulls.old }
    requires dense { (k : ℕ) → k < length pulls.old → get_or due.now k false ≡ true → 20 ≤ get_or rhos.now k 0 }
    ensures { AreEach (ghosts_at sound due.now rhos.now) pulls.old pulls.new }
{
    for k in 0..pulls.len() {
        let is_due = due[k];
        if is_due {
            pulls[k] = with_ghost(sound, rhos[k], &pulls[k]);
        }
    }
}

/// The pull of a member with the ghost of its density.
fn with_ghost(sound: u32, rho: u64, pull: &Pull) -> Pull
    requires sound { sound ≤ 65536 }
    requires dense { 20 ≤ rho }
    ensures { result ≡ puller pull.now.h pull.now.mass (ghost_value sound rho) }
{
    Pull::new(pull.length(), pull.mass(), ghost_of(sound, rho))
}

/// Kicks the due ones of some members.
pub(crate) fn kick_members(scene: &Scene, summed: &Summed, moving: &mut [Moving])
    requires good { IsGoodScene scene.now }
    requires one_each { AreSummed summed.now (length moving.old) }
    requires ready { (k : ℕ) → k < length moving.old → get_or summed.now.due.now k false ≡ true → CanKick scene.now summed.now k (get_or moving.old k no_moving) }
    ensures { AreEach (kick_at scene.now summed.now) moving.old moving.new }
{
    for k in 0..moving.len() {
        let is_due = summed.due[k];
        if is_due {
            moving[k] = kicked(scene, summed, k, &moving[k]);
        }
    }
}

/// A member after its kick, which reads neither its density nor its ghost.
fn kicked(scene: &Scene, summed: &Summed, k: usize, member: &Moving) -> Moving
    requires good { IsGoodScene scene.now }
    requires one_each { AreSummed summed.now (length summed.now.spots.now) }
    requires within { k < length summed.now.spots.now }
    requires ready { CanKick scene.now summed.now k member.now }
    ensures { result ≡ kicked_by scene.now (force_at_index summed.now k) member.now }
{
    let place = summed.spots[k].place;
    let force = summed.forces[k];
    let mut particle = member.with_sums(0, 0, force);
    kick(&scene.params, scene.tick, place, force, 0, &mut particle);
    Moving::of(&particle)
}
