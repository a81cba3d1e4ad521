//! Streams can be told apart.
ghost use Rattle.sph_snap.specs.Laws.{JustOneFault, NoneBeginsAnother, StreamsHaveNoFault};

/// Does nothing: its contract is the law. No stream is the beginning of another, none has two lists of
/// snapshots, and no bytes have two faults or a fault and a list.
pub fn streams_differ()
    ensures none_begins_another { NoneBeginsAnother }
    ensures no_fault { StreamsHaveNoFault }
    ensures just_one { JustOneFault }
{}
