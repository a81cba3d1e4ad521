//! The words of the opening state: nothing is locked, every leaf is home, and each task waits for the edges into it.
ghost use Rattle.std.specs.Prelude.{◌≡◌, IfOk};
ghost use Rattle.qs_core.specs.Core.{opening};

use crate::work::Work;
use std::alloc::{AllocError, Global};

/// The words at the opening: those of the seats, the cells and the leaves are 0.
pub fn opening_words<W: Work>(alloc: Global, work: &W) -> Result<Vec<u64>, AllocError>
    ensures { IfOk result (λ v. v.items ≡ (opening (W.shape (W.plan work.now)) 0).words) }
{
    let homes = 1 + work.cells() as usize + work.leaves() as usize;
    let mut words = vec![in alloc; 0u64; homes]?;
    for task in 0..work.tasks() {
        words.push(u64::from(work.waits(task)))?;
    }
    Ok(words)
}
