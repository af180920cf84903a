//! What a subscriber is sent.

/// What a subscriber is sent.
#[derive(Drop)]
pub enum Publications {
    /// The bytes of all messages, in order.
    Messages(Vec<u8>),
    /// Nothing: a message would be longer than its header can say, 4,294,967,295 bytes.
    TooLong,
}
