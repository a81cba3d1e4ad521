//! What the seats hold and have noted in the opening state: nothing.
ghost use Rattle.std.specs.Prelude.{◌≡◌, replicate, IfOk, None};
ghost use Rattle.qs_core.specs.Core.{empty_view};

use crate::seat::Seat;
use qs_core::Note;
use std::alloc::{AllocError, Global};

/// Seats that hold nothing.
pub fn seats(alloc: Global, count: u32) -> Result<Vec<Seat>, AllocError>
    ensures { IfOk result (λ v. v.items ≡ replicate count empty_view) }
{
    let mut seats = Vec::with_capacity(alloc, count as usize)?;
    for _seat in 0..count {
        seats.push(Seat::new(alloc))?;
    }
    Ok(seats)
}

/// No note for any seat.
pub fn notes(alloc: Global, count: u32) -> Result<Vec<Option<Note>>, AllocError>
    ensures { IfOk result (λ v. v.items ≡ replicate count None) }
{
    let mut notes = Vec::with_capacity(alloc, count as usize)?;
    for _seat in 0..count {
        notes.push(None)?;
    }
    Ok(notes)
}
