//! How a session ends.
use ipc_frame::Bad;

/// Why a session ended.
#[derive(Clone, Copy, Debug, PartialEq, Eq)]
pub enum End {
    /// The input ended before its first byte or between two messages.
    Closed,
    /// The input ended within the handshake or within a message.
    Truncated,
    /// The bytes at the offset `at`, counted from the session's first byte, are no handshake or message; `code` is the
    /// rule of the protocol that they break.
    BadMessage { code: Bad, at: u64 },
    /// A read failed.
    ReadFault,
    /// A write failed. A prefix of the response may have been written.
    WriteFault,
    /// As many reads timed out as the limits allow.
    Idle,
    /// There was no memory for the buffers; nothing was read or written.
    NoMemory,
}

/// What is reported of a session that ended.
#[derive(Clone, Copy, Debug, PartialEq, Eq)]
pub struct Report {
    /// Why it ended.
    pub end: End,
}
