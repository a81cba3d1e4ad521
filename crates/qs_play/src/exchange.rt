//! What a step makes of the word that it saw, and the kind that its note tells.
ghost use Rattle.std.specs.Prelude.{◌≡◌};
ghost use Rattle.qs_core.specs.Machine.{kind_of};
ghost use Rattle.qs_core.specs.Steps.{exchanged};

use qs_core::{CLAIMED, Step, StepKind};

/// The kind of a step.
pub fn kind_of(step: Step) -> StepKind
    ensures { result ≡ kind_of step }
{
    match step {
        Step::Lock { .. } => StepKind::Lock,
        Step::Raise => StepKind::Raise,
        Step::Lower => StepKind::Lower,
        Step::Unlock => StepKind::Unlock,
        Step::Fetch { .. } => StepKind::Fetch,
        Step::Return { .. } => StepKind::Return,
        Step::Claim { .. } => StepKind::Claim,
        Step::Release => StepKind::Release,
    }
}

/// What the word becomes that a step saw.
pub fn exchanged(step: Step, seen: u64) -> u64
    ensures { result ≡ exchanged step seen }
{
    match step {
        Step::Lock { .. } if seen == 0 => 1,
        Step::Claim { .. } if seen == 0 => CLAIMED,
        Step::Lock { .. } | Step::Claim { .. } => seen,
        Step::Raise => seen.wrapping_add(2),
        Step::Lower => seen.wrapping_sub(2),
        Step::Unlock | Step::Release => seen.wrapping_sub(1),
        Step::Fetch { .. } => 1,
        Step::Return { .. } => 0,
    }
}
