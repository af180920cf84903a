//! How a call of a disk in memory goes, and what a crash leaves of its files.

/// How a call of a disk in memory goes.
#[derive(Clone, Copy, Debug, PartialEq, Eq)]
pub enum Calling {
    /// It succeeds.
    Succeeds,
    /// It fails, and changes nothing.
    FailsUndone,
    /// It fails, although what it was to write or truncate is written or truncated. A sync that fails so may have lost what
    /// was written since the last one: a crash may leave any bytes of it, whatever later syncs answer.
    FailsDone,
    /// A write that fails after this many bytes, or after all of them if there are fewer. A truncation and a sync go as
    /// `FailsDone`.
    FailsTorn(u64),
}

/// What a crash leaves of one range that was written.
#[derive(Clone, Copy, Debug, PartialEq, Eq)]
pub enum RangeLeft {
    /// What was written.
    Kept,
    /// This byte throughout.
    Lost(u8),
    /// This many bytes of what was written, and after them what was there before; zeroes where the file ended before.
    Torn(u64),
    /// What was there before; zeroes where the file ended before.
    Old,
}

/// Which image a crash leaves of each file.
#[derive(Clone, Copy, Debug, PartialEq, Eq)]
pub enum Leaving {
    /// What reads give.
    Whole,
    /// What reads give, with this byte throughout the ranges that were written and aren't durable.
    Torn(u8),
    /// A prefix of what reads give, of the least size that a crash may leave.
    Shortest,
    /// What reads give, with one of the ranges that were written left so, where it isn't durable: the one of this index, in
    /// the order of the writes since the last sync, or since the last one before a sync failed.
    Range { index: usize, left: RangeLeft },
}
