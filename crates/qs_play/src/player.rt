//! Plays one event.
ghost use Rattle.std.specs.Prelude.{◌≡◌, IfOk, MatchBool, OnErr};
ghost use Rattle.qs_core.specs.Machine.{IsMachine, played};
ghost use Rattle.qs_core.specs.Steps.{IsAllowed};

use crate::state::State;
use qs_core::{Event, Work};
use std::alloc::{AllocError, Global};

/// Plays an event where it is allowed, and answers whether it was. The only error is of memory, which only
/// an allowed event takes. The work is there for the condition that the state is one of it: the state
/// asks its own copy.
pub fn play<W: Work>(
    alloc: Global,
    work: &W,
    state: &mut State,
    event: Event,
) -> Result<bool, AllocError>
    requires { state.old.shape ≡ W.shape (W.plan work.now) }
    ensures played { IfOk result (λ done. MatchBool done (IsAllowed state.old.shape state.old.core event × (state.new ≡ played state.old event)) ((IsAllowed state.old.shape state.old.core event → ⊥) × (state.new ≡ state.old))) }
    ensures unchanged { OnErr result (state.new ≡ state.old) }
    ensures allowed { OnErr result (IsAllowed state.old.shape state.old.core event) }
    ensures machine { IsMachine state.new }
{
    let _ = work;
    if !state.may(event) {
        return Ok(false);
    }
    state.make(alloc, event)?;
    Ok(true)
}
