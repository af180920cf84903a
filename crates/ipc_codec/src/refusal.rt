//! Why bytes are refused.

use thiserror::Error;

/// Why the bytes don't begin with an object: the first fault from left to right, with its offset in bytes.
#[derive(Clone, Copy, Debug, PartialEq, Eq, Error)]
pub enum DecodeRefusal {
    /// The bytes end within the object. The offset is the number of the bytes.
    #[error("the bytes end at offset {0}, within an object")]
    Truncated(usize),
    /// No object of kdb+ begins with the type byte at this offset.
    #[error("no type of kdb+ at offset {0}")]
    BadType(usize),
    /// A count above 2147483647, a part of a table of the wrong type, or a table or dictionary whose parts differ in
    /// length.
    #[error("a table, dictionary or count out of shape at offset {0}")]
    BadShape(usize),
    /// The object at this offset is of a type of kdb+ that this crate does not read.
    #[error("a type that is not supported at offset {0}")]
    NotBuilt(usize),
    /// The object at this offset is the first one more than 64 levels deep.
    #[error("nested more than 64 levels deep at offset {0}")]
    TooDeep(usize),
    /// Out of memory. Only `decode` returns it.
    #[error("out of memory")]
    NoMemory,
}
