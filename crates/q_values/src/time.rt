//! Spans of time.

/// The nanoseconds of a day.
pub const NANOSECONDS_PER_DAY: i64 = 86_400_000_000_000;
