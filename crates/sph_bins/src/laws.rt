//! The law that lets a whole run go by whole numbers of fixed width.
ghost use Rattle.sph_bins.specs.Laws.{StepsKeepBounds, SumsAreNarrow};

/// Does nothing: its contract is the law. From a list in bounds no density, force or momentum of a step
/// gets too large, and the step leaves a list in bounds for the next one.
pub fn steps_keep_bounds()
    ensures narrow { SumsAreNarrow }
    ensures kept { StepsKeepBounds }
{}
