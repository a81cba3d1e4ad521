//! What the program can be asked to do.

/// A job, with its numbers.
#[derive(Clone, Copy, Debug, PartialEq, Eq)]
pub enum Job {
    /// Runs a deck by 1 to 64 workers and writes its stream.
    Run { workers: u32 },
    /// The same by plain double sums on the calling thread.
    Plain,
    /// Says that a deck is accepted, and how large its sums may get.
    Check,
    /// Shows how large a deck's tree and the graph of its tasks are.
    Tree,
    /// Writes the text of the deck of `side`^3 particles, drawn from the seed; the side is 1 to 32.
    Generate { side: u32, seed: u64 },
    /// Runs that deck and writes a line for each snapshot.
    Sample { side: u32, seed: u64, workers: u32 },
}
