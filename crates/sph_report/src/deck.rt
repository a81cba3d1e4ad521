//! The lines of a deck's faults.
ghost use Rattle.std.specs.Prelude.{◌≡◌, ◌∷◌, ◌++◌, [], IfOk, Some};
ghost use Rattle.sph_report.specs.DeckLines.{deck_line, NamesKey, fault_text, place_text, row_text, name_numbered};

use sph_deck::{DeckFault, Key, Place};
use std::alloc::{AllocError, Global};
use std::fmt;

/// The line on standard error for a fault, with its end.
pub fn deck_text(alloc: Global, fault: &DeckFault) -> Result<Vec<u8>, AllocError>
    requires { NamesKey fault.now }
    ensures { IfOk result (λ text. text.items ≡ deck_line fault.now) }
{
    let line = format!(in alloc; "swiftq: deck refused: {}\n", Wrong(*fault))?;
    Ok(line.into_bytes())
}

/// What is wrong.
#[derive(Clone, Copy)]
struct Wrong(DeckFault);

impl fmt::Display for Wrong {
    ghost output = { λ wrong. Some (fault_text wrong.0) };

    fn fmt<W: fmt::Write>(&self, f: &mut fmt::Formatter<W>) -> fmt::Result {
        match self.0 {
            DeckFault::TooLong => f.write_str("longer than 16777216 bytes"),
            DeckFault::NotToml => f.write_str("not TOML"),
            DeckFault::Unknown(place) => write!(f, "unknown key at {}", Row(place.row)),
            DeckFault::Missing(place) => write!(f, "missing {}", At(place)),
            DeckFault::WrongKind(place) => write!(f, "wrong kind of {}", At(place)),
            DeckFault::OutOfRange(place, value) => {
                write!(f, "{} out of range: {value}", At(place))
            }
            DeckFault::NoParticles => f.write_str("no particles"),
            DeckFault::TooMany(count) => write!(f, "too many particles: {count}"),
            DeckFault::BadEvery { every, unit } => {
                write!(f, "every {every} is not a multiple of {unit}")
            }
            DeckFault::BadTicks { ticks, every } => {
                write!(f, "ticks {ticks} is not a multiple of {every}")
            }
            DeckFault::BadBins { min, max } => { write!(f, "bin_min {min} is above bin_max {max}") }
            DeckFault::Sums(bound) => write!(f, "sums may reach {bound}"),
        }
    }
}

/// The key at its row.
#[derive(Clone, Copy)]
struct At(Place);

impl fmt::Display for At {
    ghost output = { λ at. Some (place_text at.0) };

    fn fmt<W: fmt::Write>(&self, f: &mut fmt::Formatter<W>) -> fmt::Result {
        write!(f, "{} at {}", name_numbered(self.0.key), Row(self.0.row))
    }
}

/// The top, or a particle by its number.
#[derive(Clone, Copy)]
struct Row(u32);

impl fmt::Display for Row {
    ghost output = { λ row. Some (row_text row.0) };

    fn fmt<W: fmt::Write>(&self, f: &mut fmt::Formatter<W>) -> fmt::Result {
        match self.0 {
            0 => f.write_str("the top"),
            number => write!(f, "particle {number}"),
        }
    }
}

/// The name of the key of this number, and no text where there is none.
fn name_numbered(number: u32) -> &'static str
    ensures { result.now ≡ name_numbered number }
{
    match Key::numbered(number) {
        Some(key) => key.name(),
        None => "",
    }
}

#[cfg(test)]
mod tests {
    use super::*;
    use std::test::Fail;

    fn has_line(alloc: Global, fault: DeckFault, line: &str) -> Result<bool, AllocError>
        requires { NamesKey fault }
    {
        let text = deck_text(alloc, &fault)?;
        Ok(text.as_slice() == line.as_bytes())
    }

    #[test]
    fn each_fault_of_a_place_has_its_line(rt: HostRuntime) -> Result<(), Fail> {
        let alloc = rt.alloc();
        let unknown = DeckFault::Unknown(Place { key: 0, row: 2 });
        let missing = DeckFault::Missing(Place { key: 1, row: 0 });
        let wrong_kind = DeckFault::WrongKind(Place { key: 11, row: 0 });
        let out_of_range = DeckFault::OutOfRange(Place { key: 12, row: 3 }, -5);
        assert!(rt;
            has_line(
                alloc,
                unknown,
                "swiftq: deck refused: unknown key at particle 2\n"
            )?
        );
        assert!(rt;
            has_line(
                alloc,
                missing,
                "swiftq: deck refused: missing ticks at the top\n"
            )?
        );
        assert!(rt;
            has_line(
                alloc,
                wrong_kind,
                "swiftq: deck refused: wrong kind of particle at the top\n"
            )?
        );
        assert!(rt;
            has_line(
                alloc,
                out_of_range,
                "swiftq: deck refused: mass at particle 3 out of range: -5\n"
            )?
        );
        Ok(())
    }

    #[test]
    fn each_other_fault_has_its_line(rt: HostRuntime) -> Result<(), Fail> {
        let alloc = rt.alloc();
        let bad_every = DeckFault::BadEvery { every: 6, unit: 4 };
        let bad_ticks = DeckFault::BadTicks { ticks: 7, every: 2 };
        let bad_bins = DeckFault::BadBins { min: 3, max: 1 };
        let sums = DeckFault::Sums(79_229_593_140_405_403_728_966_844_416);
        assert!(rt;
            has_line(
                alloc,
                DeckFault::TooLong,
                "swiftq: deck refused: longer than 16777216 bytes\n"
            )?
        );
        assert!(rt;
            has_line(
                alloc,
                DeckFault::NotToml,
                "swiftq: deck refused: not TOML\n"
            )?
        );
        assert!(rt;
            has_line(
                alloc,
                DeckFault::NoParticles,
                "swiftq: deck refused: no particles\n"
            )?
        );
        assert!(rt;
            has_line(
                alloc,
                DeckFault::TooMany(32_769),
                "swiftq: deck refused: too many particles: 32769\n"
            )?
        );
        assert!(rt;
            has_line(
                alloc,
                bad_every,
                "swiftq: deck refused: every 6 is not a multiple of 4\n"
            )?
        );
        assert!(rt;
            has_line(
                alloc,
                bad_ticks,
                "swiftq: deck refused: ticks 7 is not a multiple of 2\n"
            )?
        );
        assert!(rt;
            has_line(
                alloc,
                bad_bins,
                "swiftq: deck refused: bin_min 3 is above bin_max 1\n"
            )?
        );
        assert!(rt;
            has_line(
                alloc,
                sums,
                "swiftq: deck refused: sums may reach 79229593140405403728966844416\n"
            )?
        );
        Ok(())
    }
}
