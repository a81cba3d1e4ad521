//! Where the parts of a snapshot stand.

/// The eight bytes in front of a snapshot.
pub const MARK: [u8; 8] = *b"SPHSNAP1";

/// The eight bytes behind the last snapshot of a stream.
pub const END: [u8; 8] = *b"SPHSNEND";

/// How many bytes stand in front of a snapshot's rows.
pub const HEAD: usize = 16;

/// How many bytes a row has.
pub const ROW: usize = 84;
