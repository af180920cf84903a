//! How a write of a link in memory goes.

/// How a write of a link in memory goes.
#[derive(Clone, Copy, Debug, PartialEq, Eq)]
pub enum Taking {
    /// All bytes are taken.
    All,
    /// At most this number of bytes is taken, from the front, and the write fails.
    Front(usize),
}
