//! What holds of streams and framers, whatever the bytes and however they are split into pieces. Each law is the contract
//! of a function with an empty body.
ghost use Rattle.ipc_frame.specs.Laws.{StreamIsReadOnce, StreamIsRead, MessageIsSpelled, FeedGoesOn, FramerIsExact};

/// Bytes are a handshake, messages and an ending in one way at most.
pub fn stream_is_read_once()
    ensures { StreamIsReadOnce }
{}

/// Bytes are a handshake, messages and an ending in one way at least.
pub fn stream_is_read()
    ensures { StreamIsRead }
{}

/// Bytes are a whole message of a value exactly where they are a header and, after it, an encoding of that value.
pub fn message_is_spelled()
    ensures { MessageIsSpelled }
{}

/// A call of `feed` takes something of a piece that isn't empty exactly where `next` would return `Need`.
pub fn feed_goes_on()
    ensures { FeedGoesOn }
{}

/// However a stream is split into the pieces that a new framer is fed, and whenever `next` is called: what `next` has
/// returned is the handshake, messages and fault of the stream, in order, from the first on; all of them where it
/// returns `Need`, and all but the fault where the fault comes next.
pub fn framer_is_exact()
    ensures { FramerIsExact }
{}
