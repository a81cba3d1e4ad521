//! The lines of a deck's text.
ghost use Rattle.std.specs.Prelude.{◌≡◌, ◌++◌, OnOk, string_bytes};
ghost use Rattle.std.specs.Fmt.{AppendsText};
ghost use Rattle.std.specs.Option.{option_map};
ghost use Rattle.sph_lattice.specs.LatticeText.{key_line, params_lines, particle_lines};

use sph_deck::Key;
use sph_num::{Params, Particle};
use std::alloc::AllocError;
use std::fmt::Display;

/// Appends the ten lines of the parameters.
pub(crate) fn push_params(text: &mut String, params: &Params) -> Result<(), AllocError>
    ensures { OnOk result (string_bytes text.new ≡ string_bytes text.old ++ params_lines params.now) }
{
    push_key(text, Key::Ticks, params.ticks)?;
    push_key(text, Key::Every, params.every)?;
    push_key(text, Key::BinMin, params.bin_min)?;
    push_key(text, Key::BinMax, params.bin_max)?;
    push_key(text, Key::Sound, params.sound)?;
    push_key(text, Key::Shift, params.shift)?;
    push_key(text, Key::Accuracy, params.accuracy)?;
    push_key(text, Key::Leaf, params.leaf)?;
    push_key(text, Key::Pairs, params.pairs)?;
    push_key(text, Key::Slack, params.slack)
}

/// Appends the nine lines of a particle.
pub(crate) fn push_particle(text: &mut String, particle: &Particle) -> Result<(), AllocError>
    ensures { OnOk result (string_bytes text.new ≡ string_bytes text.old ++ particle_lines particle.now) }
{
    let [x, y, z] = particle.x0;
    let [px, py, pz] = particle.p;
    text.push_str("[[particle]]\n")?;
    push_key(text, Key::Mass, particle.mass)?;
    push_key(text, Key::H, particle.h)?;
    push_key(text, Key::X, x)?;
    push_key(text, Key::Y, y)?;
    push_key(text, Key::Z, z)?;
    push_key(text, Key::Px, px)?;
    push_key(text, Key::Py, py)?;
    push_key(text, Key::Pz, pz)
}

/// Appends the line of a key and its value.
fn push_key<D: Display + Drop>(text: &mut String, key: Key, value: D) -> Result<(), AllocError>
    ensures { OnOk result (AppendsText (string_bytes text.old) (string_bytes text.new) (option_map (key_line key) (D.output value))) }
{
    let name = key.name();
    writeln!(text, "{name} = {value}")
}
