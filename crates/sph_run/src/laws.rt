//! Laws of every run's stream.
ghost use Rattle.sph_run.specs.Laws.{OutputsIgnoreWork, SnapshotsAreWhole, SnapshotsKeepMomentum, StreamsCanBeRead};

/// Does nothing: its contract is the law. At each snapshot of an accepted deck every particle was just
/// kicked and has its numbers in their ranges, so the run's bytes are the stream of its snapshots.
pub fn streams_can_be_read()
    ensures whole { SnapshotsAreWhole }
    ensures read { StreamsCanBeRead }
{}

/// Does nothing: its contract is the law. What a run writes, in either form, doesn't depend on `leaf`,
/// `pairs` and `slack`.
pub fn outputs_ignore_work()
    ensures { OutputsIgnoreWork }
{}

/// Does nothing: its contract is the law. Where all particles have one time bin, each snapshot has the
/// momentum of the deck.
pub fn snapshots_keep_momentum()
    ensures { SnapshotsKeepMomentum }
{}
