//! The faults of a stream.

/// What is wrong with the bytes of a stream (KX, IPC reference). The numbers are those of the table of
/// bad messages in docs/FORMATS.md.
#[derive(Clone, Copy, Debug, PartialEq, Eq)]
pub enum Bad {
    /// The first byte of a header is neither 0 (big-endian) nor 1 (little-endian).
    Order = 1,
    /// The message is a response, or of an unknown type.
    Kind = 2,
    /// The message is compressed.
    Compressed = 3,
    /// The length is less than a header and the shortest object: less than 9 bytes.
    Length = 4,
    /// The length is above the limit on messages.
    TooLong = 5,
    /// The bytes after the header are no object, or one that doesn't fill the message.
    Object = 6,
    /// The handshake is longer than the limit.
    Greeting = 7,
}
