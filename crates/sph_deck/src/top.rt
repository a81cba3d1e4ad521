//! The row of the top.
ghost use Rattle.std.specs.Prelude.{◌≡◌, ◌≤◌, length, map, true, Ok, Err, MatchResult};
ghost use Rattle.sph_num.specs.Ranges.{most_particles};
ghost use Rattle.toml.specs.View.{items_view, table_view, view};
ghost use Rattle.sph_deck.specs.Document.{elements, value_at};
ghost use Rattle.sph_deck.specs.inner.Meets.{Meets};
ghost use Rattle.sph_deck.specs.inner.Row.{IsRowFault};
ghost use Rattle.sph_deck.specs.inner.Rows.{judged_array, AreParamsRead, IsArrayFault, IsCountFault};

use crate::fault::{DeckFault, Place};
use crate::first::Faults;
use crate::key::Key;
use crate::row::{note_names, value_at, whole};
use sph_num::{MOST_PARTICLES, Params};
use toml::{Table, Value};

/// The numbers of the top.
pub(crate) fn read_params(top: &Table, faults: &mut Faults) -> Params
    ensures faults { Meets (IsRowFault true 0 (table_view top.now)) faults.old.first faults.new.first }
    ensures read { faults.new.first ≡ None → AreParamsRead (table_view top.now) result }
{
    note_names(top, true, 0, faults);
    let ticks = whole(top, Key::Ticks, 0, faults);
    let every = whole(top, Key::Every, 0, faults);
    let bin_min = whole(top, Key::BinMin, 0, faults);
    let bin_max = whole(top, Key::BinMax, 0, faults);
    let sound = whole(top, Key::Sound, 0, faults);
    let shift = whole(top, Key::Shift, 0, faults);
    let accuracy = whole(top, Key::Accuracy, 0, faults);
    let leaf = whole(top, Key::Leaf, 0, faults);
    let pairs = whole(top, Key::Pairs, 0, faults);
    let slack = whole(top, Key::Slack, 0, faults);
    Params {
        ticks,
        every,
        bin_min,
        bin_max,
        sound,
        shift,
        accuracy,
        leaf,
        pairs,
        slack,
    }
}

/// What stands at the key of the array of particles.
fn particle_array(top: &Table) -> Result<&[Value], DeckFault>
    ensures { MatchResult result
        (λ values. judged_array (value_at Key.Particle (table_view top.now)) ≡ Ok (items_view values.now))
        (λ fault. judged_array (value_at Key.Particle (table_view top.now)) ≡ Err fault) }
{
    let place = Place {
        key: Key::Particle.number(),
        row: 0,
    };
    let Some(value) = value_at(top, Key::Particle) else {
        return Err(DeckFault::Missing(place));
    };
    match value.as_array() {
        Some(array) => Ok(array.as_slice()),
        None => Err(DeckFault::WrongKind(place)),
    }
}

/// Notes a number of particles that no deck may have.
fn note_count(count: usize, faults: &mut Faults)
    ensures faults { Meets (IsCountFault count) faults.old.first faults.new.first }
    ensures fits { faults.new.first ≡ None → (1 ≤ count) × (count ≤ most_particles) }
{
    if count == 0 {
        faults.note(DeckFault::NoParticles);
    } else if count > MOST_PARTICLES {
        faults.note(DeckFault::TooMany(count as u64));
    }
}

/// The elements of the array of particles; none where there is no array.
pub(crate) fn particle_elements<'a>(top: &'a Table, faults: &mut Faults) -> &'a [Value]
    ensures faults { Meets (IsArrayFault (table_view top.now)) faults.old.first faults.new.first }
    ensures elements { elements (table_view top.now) ≡ map view result.now }
    ensures fits { faults.new.first ≡ None → (1 ≤ length result.now) × (length result.now ≤ most_particles) }
{
    match particle_array(top) {
        Ok(values) => {
            note_count(values.len(), faults);
            values
        }
        Err(fault) => {
            faults.note(fault);
            &[]
        }
    }
}
