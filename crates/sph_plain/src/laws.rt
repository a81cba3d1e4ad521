//! The laws on which every run of an accepted deck rests.
ghost use Rattle.sph_plain.specs.Laws.{MomentumIsKept, RunsStayInBounds, StepsFollow};

/// Does nothing: its contract is the law. The list before each step of an accepted deck is in bounds, and
/// the list after a step is the one before the next.
pub fn runs_stay_in_bounds()
    ensures in_bounds { RunsStayInBounds }
    ensures follow { StepsFollow }
{}

/// Does nothing: its contract is the law. Where all particles have one time bin, two particles push each
/// other by opposite forces at each step, so no step changes the sum of the momenta.
pub fn momentum_is_kept()
    ensures { MomentumIsKept }
{}
