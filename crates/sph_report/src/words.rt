//! The lines of the words' faults.
ghost use Rattle.std.specs.Prelude.{◌≡◌, IfOk, Some};
ghost use Rattle.sph_report.specs.WordsLines.{words_fault_text, words_line};

use sph_words::WordsFault;
use std::alloc::{AllocError, Global};
use std::fmt;

/// The line on standard error for a fault, with its end.
pub fn words_text(alloc: Global, fault: &WordsFault) -> Result<Vec<u8>, AllocError>
    ensures { IfOk result (λ text. text.items ≡ words_line fault.now) }
{
    let line = format!(in alloc; "swiftq: {}\n", WrongWords(*fault))?;
    Ok(line.into_bytes())
}

/// What is wrong.
#[derive(Clone, Copy)]
struct WrongWords(WordsFault);

impl fmt::Display for WrongWords {
    ghost output = { λ wrong. Some (words_fault_text wrong.0) };

    fn fmt<W: fmt::Write>(&self, f: &mut fmt::Formatter<W>) -> fmt::Result {
        match self.0 {
            WordsFault::Usage => f.write_str(
                "usage: run [--workers N] | plain | check | tree | generate SIDE SEED | sample SIDE SEED [--workers N]",
            ),
            WordsFault::Workers(number) => write!(f, "workers must be 1 to 64, not {number}"),
            WordsFault::Side(number) => write!(f, "side must be 1 to 32, not {number}"),
        }
    }
}

#[cfg(test)]
mod tests {
    use super::*;
    use std::test::Fail;

    const LINES: [(WordsFault, &str); 4] = [
        (
            WordsFault::Usage,
            "swiftq: usage: run [--workers N] | plain | check | tree | generate SIDE SEED | sample SIDE SEED [--workers N]\n",
        ),
        (
            WordsFault::Workers(65),
            "swiftq: workers must be 1 to 64, not 65\n",
        ),
        (
            WordsFault::Workers(18_446_744_073_709_551_615),
            "swiftq: workers must be 1 to 64, not 18446744073709551615\n",
        ),
        (
            WordsFault::Side(33),
            "swiftq: side must be 1 to 32, not 33\n",
        ),
    ];

    #[test]
    fn each_fault_of_the_words_has_its_line(rt: HostRuntime) -> Result<(), Fail> {
        for (fault, line) in LINES {
            assert!(rt; words_text(rt.alloc(), &fault)?.as_slice() == line.as_bytes());
        }
        Ok(())
    }
}
