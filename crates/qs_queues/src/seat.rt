//! The token of one caller.
use crate::steps::HeapSeat;
use std::marker::Model;

/// The token of one caller: it steps with it, and what the steps teach stands in the proofs. Between calls it holds no queue.
#[derive(Drop)]
pub struct QueueSeat {
    pub(crate) seat: HeapSeat,
}

impl Model for QueueSeat {
    ghost use Rattle.std.specs.Prelude.{[], ◌≡◌, None};
    ghost use Rattle.qs_queues.specs.Seats.{QueueTokenView};

    ghost Value = { QueueTokenView };

    ghost view = { λ s. record { id = s.seat.table_id; view = s.seat.me.0 } };

    ghost invariant = { λ s. (s.seat.me.0.held ≡ None) × (s.seat.me.1 ≡ []) };
}
