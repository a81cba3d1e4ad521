//! The table of one row: its names, and the integers at its keys.
ghost use Rattle.std.specs.Prelude.{◌≡◌, pos, option_map, IsTrue, IfOk, MatchBool};
ghost use Rattle.toml.specs.View.{view, table_view};
ghost use Rattle.sph_deck.specs.Document.{value_at};
ghost use Rattle.sph_deck.specs.inner.Judged.{judged, is_whole, IsReadAt};
ghost use Rattle.sph_deck.specs.inner.Meets.{Meets};
ghost use Rattle.sph_deck.specs.inner.Row.{HasUnknownName, AreNamesKnown, IsKnownName, IsNameFault, IsUnknownName, ReadsKey};

use crate::fault::{DeckFault, Place};
use crate::first::Faults;
use crate::key::Key;
use toml::{Table, Value};

/// The value at a key.
pub(crate) fn value_at<'a>(table: &'a Table, key: Key) -> Option<&'a Value>
    ensures { option_map (λ v. view v.now) result ≡ value_at key (table_view table.now) }
{
    table.get(key.name())
}

/// The integer at a key, in the key's range, or the fault there.
#[tactic(auto, unfolding(crate::specs::inner::Judged::judged))]
fn integer(table: &Table, key: Key, row: u32) -> Result<i64, DeckFault>
    ensures judged { result ≡ judged key row (value_at key (table_view table.now)) }
    ensures read { IfOk result (IsReadAt key (table_view table.now)) }
{
    let place = Place {
        key: key.number(),
        row,
    };
    let Some(value) = value_at(table, key) else {
        return Err(DeckFault::Missing(place));
    };
    match (value.as_integer(), key.range()) {
        (Some(z), Some((low, high))) if low <= z && z <= high => Ok(z),
        (Some(z), Some(_)) => Err(DeckFault::OutOfRange(place, z)),
        _ => Err(DeckFault::WrongKind(place)),
    }
}

/// The integer at a key that takes none below 0, and none from 2^32 on; 0 after a fault.
pub(crate) fn whole(table: &Table, key: Key, row: u32, faults: &mut Faults) -> u32
    requires { IsTrue (is_whole key) }
    ensures { ReadsKey key row (table_view table.now) (pos result) faults.old.first faults.new.first }
{
    match integer(table, key, row) {
        Ok(z) => z as u32,
        Err(fault) => {
            faults.note(fault);
            0
        }
    }
}

/// The integer at a key, as wide as a momentum; 0 after a fault.
pub(crate) fn component(table: &Table, key: Key, row: u32, faults: &mut Faults) -> i128
    ensures { ReadsKey key row (table_view table.now) result faults.old.first faults.new.first }
{
    match integer(table, key, row) {
        Ok(z) => i128::from(z),
        Err(fault) => {
            faults.note(fault);
            0
        }
    }
}

/// Whether the name is that of a key of the top, or else of a particle.
fn is_known_name(name: &str, of_top: bool) -> bool
    ensures { MatchBool result (IsKnownName of_top name.now) (IsUnknownName of_top name.now) }
{
    match Key::named(name) {
        Some(key) => key.is_of_top() == of_top,
        None => false,
    }
}

/// Whether the table of the top, or else of a particle, has a name that is none of its keys.
fn has_unknown_name(table: &Table, of_top: bool) -> bool
    ensures { MatchBool result
        (HasUnknownName of_top (table_view table.now))
        (AreNamesKnown of_top (table_view table.now)) }
{
    table.keys().any(|name| !is_known_name(name, of_top))
}

/// Notes the names of a row that are none of its keys.
pub(crate) fn note_names(table: &Table, of_top: bool, row: u32, faults: &mut Faults)
    ensures { Meets (IsNameFault of_top row (table_view table.now)) faults.old.first faults.new.first }
{
    if has_unknown_name(table, of_top) {
        faults.note(DeckFault::Unknown(Place { key: 0, row }));
    }
}
