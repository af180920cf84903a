//! The kinds whose literals are numbers, by how they are stored.

use q_values::{IntegerKind, LongKind};

/// A kind whose values are numbers.
#[derive(Clone, Copy, PartialEq, Eq)]
pub enum NumberKind {
    /// Booleans: 0 is false.
    Boolean,
    /// Bytes.
    Byte,
    /// 16 bits: shorts.
    Short,
    /// 32 bits: ints, months, dates, minutes, seconds and times.
    Integers(IntegerKind),
    /// 64 bits: longs, timestamps and timespans.
    Longs(LongKind),
}
