//! The laws of the machine.
ghost use Rattle.qs_core.specs.Laws.{AllAreDone, ClaimedInOrder, ClaimedOnce, DoneWasReturned, FinishedWasReturned, MadeIsReached, OpeningIsSound, PlayedIsReached, ReleasedMeansNone, ReturnedOnce, RunsAreSound, SoundIsExclusive, SoundIsInOrder, StepsChangeDone, StepsKeepSound, UnreleasedAreCounted};

/// Does nothing: its contract is the law of each step. The opening state is sound, and an allowed step from a
/// sound state gives a sound one. In a sound state no two chains own cells of which one contains the other, and
/// what precedes a claimed task is claimed and done. A step makes a task done on a leaf just where it returns
/// the leaf for it. A task has no edge left to wait for just where each edge into it is released, and the edges
/// left are as many as the tasks that they come from.
pub fn steps_are_sound()
    ensures opening { OpeningIsSound }
    ensures kept { StepsKeepSound }
    ensures exclusive { SoundIsExclusive }
    ensures in_order { SoundIsInOrder }
    ensures done { StepsChangeDone }
    ensures released { ReleasedMeansNone }
    ensures counted { UnreleasedAreCounted }
{}

/// Does nothing: its contract is the law of every list of events from the opening state. A state that was made
/// is reached by no events, and one that plays an allowed event by one event more, so the law holds of every
/// state. Where a list ends with every task claimed and none running, each leaf was returned for just the tasks
/// that touch it, for each of them once.
pub fn runs_are_sound()
    ensures made { MadeIsReached }
    ensures played { PlayedIsReached }
    ensures sound { RunsAreSound }
    ensures claimed_once { ClaimedOnce }
    ensures claimed_in_order { ClaimedInOrder }
    ensures returned_once { ReturnedOnce }
    ensures done_was_returned { DoneWasReturned }
    ensures all_are_done { AllAreDone }
    ensures finished { FinishedWasReturned }
{}
