//! The top call.
ghost use Rattle.std.specs.Prelude.{◌≡◌, ◌<◌, ◌⊎◌, List, ℕ, Some};
ghost use Rattle.std.specs.Io.KnownBytes.{Appends};
ghost use Rattle.sph_deck.specs.FirstFault.{IsFirstFault};
ghost use Rattle.sph_deck.specs.declared.fault.DeckFault.{DeckFault};
ghost use Rattle.sph_edge.specs.Causes.{Rose, Stayed};
ghost use Rattle.sph_top.specs.Answers.{change, HasAcceptedDeck, IsDone, IsDeckRefused, AppendsSome, AppendsToAnEnd, IsWithoutFault, IsWithoutOutput, Rests, TellsWriteFault, Yields};
ghost use Rattle.sph_top.specs.Lines.{error_line};
ghost use Rattle.sph_top.specs.inner.Steps.{status_of};
ghost use Rattle.sph_top.specs.Words.{HasWordsFault, NamesAJob, NamesAReader};
ghost use Rattle.sph_words.specs.declared.fault.WordsFault.{WordsFault};

use crate::job::do_job;
use crate::report::report;
use crate::status::Status;
use qs_gate::Gate;
use sph_deck::DeckFault;
use sph_edge::{Sink, Source};
use sph_words::{WordsFault, WordsRefusal, read_words};
use std::alloc::Global;
use std::thread::Threads;

/// All that the program does. It reads the words, then the whole source where the job reads a deck, does the
/// job, writes the output to `out`, and writes the line of a refusal to `err`. The workers of a run, or fewer
/// where a step has few tasks, go over its tasks in as many threads, the calling one among them; before that as
/// many threads at most make the blocks of its leaves; all else is done on the calling thread.
pub fn swiftq<R: Threads + Sync, S: Source, O: Sink, E: Sink, G: Gate>(
    rt: &R,
    alloc: Global,
    words: &[String],
    source: &mut S,
    out: &mut O,
    err: &mut E,
    gate: &G,
) -> Status
    // Done: the whole input was read, the whole output written, and `err` is as before.
    ensures done { result ≡ Status.Done → IsDone words.now (change S.left S.faults source.old source.new)
        (change O.held O.faults out.old out.new) }
    ensures err_untouched { result ≡ Status.Done → err.new ≡ err.old }

    // The words are refused exactly where they have a fault, and for their first. Nothing is read unless they name a job that reads a deck.
    ensures usage { (fault : WordsFault) → result ≡ Status.Usage fault → HasWordsFault words.now fault }
    ensures usage_where { (fault : WordsFault) → HasWordsFault words.now fault
        → Yields (Status.Usage fault) result (change E.held E.faults err.old err.new) }
    ensures nothing_read { (NamesAReader words.now → ⊥) → source.new ≡ source.old }

    // A deck is refused exactly where it has a fault, and for its first.
    ensures deck_refused { (fault : DeckFault) → result ≡ Status.DeckRefused fault
        → IsDeckRefused fault words.now (change S.left S.faults source.old source.new) }
    ensures deck_refused_where { NamesAReader words.now → (bytes : List ℕ) → S.left source.old ≡ Some bytes
        → Stayed (S.faults source.old) (S.faults source.new) → (fault : DeckFault) → IsFirstFault bytes fault
        → Yields (Status.DeckRefused fault) result (change E.held E.faults err.old err.new) }

    // A fault comes only where a count of faults rose, and where none is told no count rose.
    ensures read_fault { result ≡ Status.ReadFault → Rose (S.faults source.old) (S.faults source.new) }
    ensures write_fault { result ≡ Status.WriteFault
        → Rose (O.faults out.old) (O.faults out.new) ⊎ Rose (E.faults err.old) (E.faults err.new) }
    ensures none_failed { IsWithoutFault result → (S.faults source.new ≡ S.faults source.old)
        × (O.faults out.new ≡ O.faults out.old) × (E.faults err.new ≡ E.faults err.old) }

    // What stands after an answer that isn't Done.
    ensures write_fault_output { result ≡ Status.WriteFault → AppendsSome words.now
        (change S.left S.faults source.old source.new) (change O.held O.faults out.old out.new) }
    ensures no_memory { result ≡ Status.NoMemory → AppendsToAnEnd words.now
        (change S.left S.faults source.old source.new) (change O.held O.faults out.old out.new) }
    ensures output_untouched { IsWithoutOutput result → out.new ≡ out.old }
    ensures error_line { (result ≡ Status.WriteFault → ⊥) → Appends (E.held err.old) (E.held err.new) (error_line result) }
    ensures error_line_of_write_fault { result ≡ Status.WriteFault → TellsWriteFault words.now
        (change S.left S.faults source.old source.new) (change O.held O.faults out.old out.new)
        (change E.held E.faults err.old err.new) }

    // A named job, an accepted deck where it reads one, and no fault give Done, unless memory runs out.
    ensures complete { NamesAJob words.now
        → (NamesAReader words.now → HasAcceptedDeck (change S.left S.faults source.old source.new))
        → Stayed (O.faults out.old) (O.faults out.new) → Stayed (E.faults err.old) (E.faults err.new)
        → (result ≡ Status.Done) ⊎ (result ≡ Status.NoMemory) }
{
    let status = answer(rt, alloc, words, source, out, gate);
    report(alloc, status, err)
}

/// The answer before its line is written: reads the words, and does their job.
fn answer<R: Threads + Sync, S: Source, O: Sink, G: Gate>(
    rt: &R,
    alloc: Global,
    words: &[String],
    source: &mut S,
    out: &mut O,
    gate: &G,
) -> Status
    ensures rests { Rests result words.now (change S.left S.faults source.old source.new)
        (change O.held O.faults out.old out.new) }
    ensures unread { (NamesAReader words.now → ⊥) → source.new ≡ source.old }
    ensures kept { IsWithoutFault result → S.faults source.new ≡ S.faults source.old }
    ensures untouched { IsWithoutOutput result → out.new ≡ out.old }
{
    match read_words(alloc, words) {
        Ok(job) => do_job(rt, alloc, job, source, out, gate),
        Err(refusal) => status_of(refusal),
    }
}

/// The answer to words that are refused.
fn status_of(refusal: WordsRefusal) -> Status
    ensures { result ≡ status_of refusal }
{
    match refusal {
        WordsRefusal::Fault(fault) => Status::Usage(fault),
        WordsRefusal::Memory => Status::NoMemory,
    }
}
