//! What a framer returns.

use crate::bad::Bad;
use q_values::Value;

/// A message that has a value.
#[derive(Drop)]
pub struct Message {
    /// Whether the sender waits for a response.
    pub sync: bool,
    /// What was sent.
    pub value: Value,
}

/// What comes next in a stream. An offset is counted in bytes from the first byte of the stream, and saturates.
#[derive(Drop)]
pub enum Next {
    /// The handshake.
    Greeting {
        /// The capability that it asks for: 0 to 6.
        capability: u8,
    },
    /// A message.
    Message(Message),
    /// A message whose object has a type of kdb+ that is not supported.
    NotBuilt {
        /// Whether the sender waits for a response.
        sync: bool,
        /// The offset of that type's byte.
        at: u64,
    },
    /// A message whose value could not be allocated. Its bytes are skipped.
    Skipped {
        /// Whether the sender waits for a response.
        sync: bool,
    },
    /// Nothing yet: the bytes so far end within the next handshake or message, and show no fault.
    Need,
    /// The stream is at fault. Nothing is read after it.
    Bad {
        /// The fault.
        code: Bad,
        /// Its offset.
        at: u64,
    },
}

impl Next {
    ghost use Rattle.std.specs.Prelude.{◌≡◌};
    ghost use Rattle.ipc_frame.specs.Framing.{is_passed};

    // Whether the bytes of what is returned are dropped from the buffer.
    pub(crate) fn is_passed(&self) -> bool
        ensures { result ≡ is_passed self.now }
    {
        match self {
            Next::Greeting { .. } => true,
            Next::Message(_) => true,
            Next::NotBuilt { .. } => true,
            Next::Skipped { .. } => true,
            Next::Need => false,
            Next::Bad { .. } => false,
        }
    }
}
