//! The rows of particles.
ghost use Rattle.std.specs.Prelude.{◌≡◌, ◌≤◌, false, length, map, IfOk, IsSomeAnd, OnOk};
ghost use Rattle.toml.specs.View.{view, table_view};
ghost use Rattle.sph_deck.specs.Faults.{longest_text};
ghost use Rattle.sph_deck.specs.inner.Meets.{Meets};
ghost use Rattle.sph_deck.specs.inner.Row.{IsRowFault};
ghost use Rattle.sph_deck.specs.inner.Rows.{AreElementsRead, HasElementFault, IsElementFault, IsElementRead, IsParticleRead};

use crate::fault::{DeckFault, Place};
use crate::first::Faults;
use crate::key::Key;
use crate::row::{component, note_names, whole};
use sph_num::Particle;
use std::alloc::{AllocError, Global};
use toml::{Table, Value};

/// The particle of a row, as it is at the start of a run.
fn read_particle(table: &Table, row: u32, faults: &mut Faults) -> Particle
    ensures faults { Meets (IsRowFault false row (table_view table.now)) faults.old.first faults.new.first }
    ensures read { faults.new.first ≡ None → IsParticleRead (table_view table.now) result }
{
    note_names(table, false, row, faults);
    let mass = whole(table, Key::Mass, row, faults);
    let h = whole(table, Key::H, row, faults);
    let x = whole(table, Key::X, row, faults);
    let y = whole(table, Key::Y, row, faults);
    let z = whole(table, Key::Z, row, faults);
    let px = component(table, Key::Px, row, faults);
    let py = component(table, Key::Py, row, faults);
    let pz = component(table, Key::Pz, row, faults);
    let p = [px, py, pz];
    Particle {
        mass,
        h,
        x0: [x, y, z],
        t0: 0,
        p,
        q: p,
        f: [0; 3],
        rho: 0,
        g: 0,
        bin: 0,
    }
}

/// The particle of an element of the array, which has to be a table; none once a fault was met.
fn read_element(element: &Value, row: u32, faults: &mut Faults) -> Option<Particle>
    ensures faults { Meets (IsElementFault row (view element.now)) faults.old.first faults.new.first }
    ensures read { faults.new.first ≡ None → IsSomeAnd result (IsElementRead (view element.now)) }
{
    let Some(table) = element.as_table() else {
        faults.note(DeckFault::WrongKind(Place {
            key: Key::Particle.number(),
            row,
        }));
        return None;
    };
    let particle = read_particle(table, row, faults);
    if faults.is_empty() {
        Some(particle)
    } else {
        None
    }
}

/// The particles of the array, in its order, kept until a fault is met.
pub(crate) fn read_particles(
    alloc: Global,
    array: &[Value],
    faults: &mut Faults,
) -> Result<Vec<Particle>, AllocError>
    requires { length array.now ≤ longest_text }
    ensures faults { OnOk result (Meets (HasElementFault (map view array.now)) faults.old.first faults.new.first) }
    ensures read { IfOk result (λ particles. faults.new.first ≡ None → AreElementsRead array.now particles.items) }
{
    let room = if faults.is_empty() { array.len() } else { 0 };
    let mut particles = Vec::with_capacity(alloc, room)?;
    for (i, element) in array.iter().enumerate() {
        if let Some(particle) = read_element(element, i as u32 + 1, faults) {
            particles.push(particle)?;
        }
    }
    Ok(particles)
}
