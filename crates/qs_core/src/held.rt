//! What a seat holds, as a type for the proofs: no value of these types is made.
use std::collections::LinkedList;
use std::marker::Model;

/// A chain of locks.
pub struct HeldChain {
    cell: u32,
    raises: u32,
    stopped: bool,
    giving: bool,
}

impl Model for HeldChain {
    ghost use Rattle.qs_core.specs.Core.{Chain};

    ghost Value = { Chain };

    ghost view = { λ c. record { cell = c.cell; raises = c.raises; stopped = c.stopped; giving = c.giving } };
}

/// A running task, with the leaves and the successors that it has left.
pub struct HeldTask {
    task: u32,
    leaves: LinkedList<u32>,
    successors: LinkedList<u32>,
}

impl Model for HeldTask {
    ghost use Rattle.qs_core.specs.Core.{Running};

    ghost Value = { Running };

    ghost view = { λ r. record { task = r.task; leaves = r.leaves; successors = r.successors } };
}

/// What a seat holds: its chains, the newest first, the leaves that it has out, and its running task.
pub struct Held {
    chains: LinkedList<HeldChain>,
    out: LinkedList<u32>,
    running: Option<HeldTask>,
}

impl Model for Held {
    ghost use Rattle.qs_core.specs.Core.{View};

    ghost Value = { View };

    ghost view = { λ h. record { chains = h.chains; out = h.out; running = h.running } };
}
