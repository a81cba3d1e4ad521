//! The line of a deck that is only checked.
ghost use Rattle.std.specs.Prelude.{◌≡◌, IfOk};
ghost use Rattle.sph_report.specs.CheckLine.{check_line};

use sph_deck::{Deck, bound_of};
use std::alloc::{AllocError, Global};

/// The line for an accepted deck, with its end: the number of its particles, and the bound that the
/// momenta of its run keep below 2^96.
pub fn check_text(alloc: Global, deck: &Deck) -> Result<Vec<u8>, AllocError>
    ensures { IfOk result (λ text. text.items ≡ check_line deck.now) }
{
    let bound = bound_of(&deck.params, deck.particles.as_slice());
    let count = deck.particles.len();
    let line = format!(in alloc; "accepted: particles {count} bound {bound}\n")?;
    Ok(line.into_bytes())
}

#[cfg(test)]
mod tests {
    use super::*;
    use crate::decks::{PAIR, TOP};
    use sph_deck::read_deck;
    use std::test::Fail;

    #[test]
    fn a_pair_has_its_line(rt: HostRuntime) -> Result<(), Fail> {
        let alloc = rt.alloc();
        let text = format!(in alloc; "{TOP}leaf = 16\npairs = 4096\n{PAIR}")?;
        let deck = read_deck(alloc, text.as_bytes()).ok().ok_or("refused")?;
        let text = check_text(alloc, &deck)?;
        assert!(rt; text.as_slice() == b"accepted: particles 2 bound 13190071320576\n".as_slice());
        Ok(())
    }
}
