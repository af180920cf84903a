//! The ranges of a file that were written, as a disk may report them.

/// What a crash may leave of a range that was written.
#[derive(Clone, Copy, Debug, PartialEq, Eq)]
pub enum RangeState {
    /// Any bytes, until a sync succeeds.
    Unsynced,
    /// Any bytes, whatever later syncs answer, until it is written anew: the write itself failed, or a sync after it did.
    Lost,
    /// What was written.
    Kept,
}

/// A range of a file that was written.
#[derive(Clone, Copy, Debug, PartialEq, Eq)]
pub struct WrittenRange {
    /// The offset of its first byte.
    pub at: u64,
    /// Its number of bytes.
    pub size: u64,
    /// What a crash may leave of it.
    pub state: RangeState,
}
