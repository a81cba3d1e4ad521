//! Reading the words.
ghost use Rattle.std.specs.Prelude.{map, string_bytes};
ghost use Rattle.sph_words.specs.Jobs.{AnswersWords};

use crate::ask::ask;
use crate::fault::{WordsFault, WordsRefusal};
use crate::job::Job;
use crate::order::are_in_order;
use crate::table::job_of;
use std::alloc::Global;

/// The job that the words name, of which the first is the program's name, or their first fault.
pub fn read_words(alloc: Global, words: &[String]) -> Result<Job, WordsRefusal>
    ensures { AnswersWords (map string_bytes words.now) result }
{
    if !are_in_order(words) {
        return Err(WordsRefusal::Fault(WordsFault::Usage));
    }
    let texts = ask(alloc, words)?;
    Ok(job_of(&texts)?)
}
