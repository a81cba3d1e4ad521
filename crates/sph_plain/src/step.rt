//! One step of a run.
ghost use Rattle.std.specs.Prelude.{◌≡◌, IfOk, OnErr, OnOk, map};
ghost use Rattle.sph_bins.specs.Bins.{IsStepTick};
ghost use Rattle.sph_plain.specs.inner.Bodies.{body_at, ghost_body, spot_at, spot_of, with_density};
ghost use Rattle.sph_plain.specs.Run.{after, before};

use crate::body::{Body, Spot, spot_of, with_ghost};
use crate::sums::{density, force};
use sph_bins::{due, kick};
use sph_deck::Deck;
use sph_num::{Length, Particle, Pull, Tables, ghost_of, position};
use std::alloc::{AllocError, Global};

/// Steps by double sums over all pairs, with the kernel's tables that these read.
#[derive(Debug, Drop)]
pub struct PlainSteps {
    tables: Tables,
}

impl PlainSteps {
    /// Makes the tables; fails only for want of memory.
    pub fn new(alloc: Global) -> Result<PlainSteps, AllocError> {
        let tables = Tables::new(alloc)?;
        Ok(PlainSteps { tables })
    }

    /// One step at tick `t`: the due particles are given their densities, ghosts, forces and kicks by
    /// sums over all pairs. All memory, some 100 bytes a particle, is taken before the first particle is
    /// changed.
    pub fn step(
        &self,
        alloc: Global,
        deck: &Deck,
        particles: &mut Vec<Particle>,
        t: u32,
    ) -> Result<(), AllocError>
        requires tick { IsStepTick deck.now.params t }
        requires before { particles.old.items ≡ before deck.now t }
        ensures after { OnOk result (particles.new.items ≡ after deck.now t) }
        ensures unchanged { OnErr result (particles.new ≡ particles.old) }
    {
        let mut bodies = bodies_at(alloc, deck, particles, t)?;
        let spots = spots_of(alloc, &bodies)?;
        find_densities(deck, &self.tables, &bodies, &spots, particles, t);
        find_ghosts(deck, particles, &mut bodies, t);
        kick_due(deck, &self.tables, &bodies, &spots, particles, t);
        Ok(())
    }
}

/// One step at tick `t`, as `PlainSteps::step`, with tables of its own.
pub fn plain_step(
    alloc: Global,
    deck: &Deck,
    particles: &mut Vec<Particle>,
    t: u32,
) -> Result<(), AllocError>
    requires tick { IsStepTick deck.now.params t }
    requires before { particles.old.items ≡ before deck.now t }
    ensures after { OnOk result (particles.new.items ≡ after deck.now t) }
    ensures unchanged { OnErr result (particles.new ≡ particles.old) }
{
    PlainSteps::new(alloc)?.step(alloc, deck, particles, t)
}

/// The particles where they are at the tick of the step, each with the ghost that its last kick left.
fn bodies_at(
    alloc: Global,
    deck: &Deck,
    particles: &[Particle],
    t: u32,
) -> Result<Vec<Body>, AllocError>
    requires tick { IsStepTick deck.now.params t }
    requires particles { particles.now ≡ before deck.now t }
    ensures { IfOk result (λ bodies. bodies.items ≡ map (body_at deck.now.params t) (before deck.now t)) }
{
    let mut bodies = Vec::with_capacity(alloc, particles.len())?;
    for particle in particles {
        let place = position(particle, t, deck.params.shift);
        let pull = Pull::new(Length::new(particle.h), particle.mass, particle.g);
        bodies.push(Body { place, pull })?;
    }
    Ok(bodies)
}

/// Where each body is.
fn spots_of(alloc: Global, bodies: &[Body]) -> Result<Vec<Spot>, AllocError>
    ensures { IfOk result (λ spots. spots.items ≡ map spot_of bodies.now) }
{
    bodies.iter().map(spot_of).collect(alloc)
}

/// Gives each due particle the density at its body.
fn find_densities(
    deck: &Deck,
    tables: &Tables,
    bodies: &[Body],
    spots: &[Spot],
    particles: &mut [Particle],
    t: u32,
)
    requires tick { IsStepTick deck.now.params t }
    requires bodies { bodies.now ≡ map (body_at deck.now.params t) (before deck.now t) }
    requires spots { spots.now ≡ map (spot_at deck.now.params t) (before deck.now t) }
    requires particles { particles.old ≡ before deck.now t }
    ensures { particles.new ≡ map (with_density deck.now.params t (before deck.now t)) (before deck.now t) }
{
    for (i, body) in bodies.iter().enumerate() {
        if due(t, particles[i].bin) {
            particles[i].rho = density(tables, bodies, spots, body);
        }
    }
}

/// Gives each due particle's body the ghost of its density.
fn find_ghosts(deck: &Deck, particles: &[Particle], bodies: &mut [Body], t: u32)
    requires tick { IsStepTick deck.now.params t }
    requires particles { particles.now ≡ map (with_density deck.now.params t (before deck.now t)) (before deck.now t) }
    requires bodies { bodies.old ≡ map (body_at deck.now.params t) (before deck.now t) }
    ensures { bodies.new ≡ map (ghost_body deck.now.params t (before deck.now t)) (before deck.now t) }
{
    for (i, particle) in particles.iter().enumerate() {
        if due(t, particle.bin) {
            let g = ghost_of(deck.params.sound, particle.rho);
            bodies[i] = with_ghost(&bodies[i], g);
        }
    }
}

/// Kicks each due particle by the force on its body.
fn kick_due(
    deck: &Deck,
    tables: &Tables,
    bodies: &[Body],
    spots: &[Spot],
    particles: &mut [Particle],
    t: u32,
)
    requires tick { IsStepTick deck.now.params t }
    requires bodies { bodies.now ≡ map (ghost_body deck.now.params t (before deck.now t)) (before deck.now t) }
    requires spots { spots.now ≡ map (spot_at deck.now.params t) (before deck.now t) }
    requires particles { particles.old ≡ map (with_density deck.now.params t (before deck.now t)) (before deck.now t) }
    ensures { particles.new ≡ after deck.now t }
{
    for (i, body) in bodies.iter().enumerate() {
        let bin = particles[i].bin;
        if due(t, bin) {
            let f = force(tables, bodies, spots, body);
            kick(
                &deck.params,
                t,
                body.place,
                f,
                body.pull.g(),
                &mut particles[i],
            );
        }
    }
}
