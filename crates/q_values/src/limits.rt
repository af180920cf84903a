//! What bounds a plant and its sessions.

/// The limits of a plant and its sessions.
#[derive(Clone, Copy, Debug, PartialEq, Eq)]
pub struct Limits {
    /// The greatest number of bytes of a message that is read, its header included.
    pub message: u32,
    /// The greatest number of bytes of a handshake before its NUL.
    pub greeting: u32,
    /// The greatest number of bytes of a response, its header included.
    pub reply: u32,
    /// The greatest number of bytes of a logged chunk.
    pub chunk: u32,
    /// The greatest number of bytes of a symbol in an update.
    pub symbol: u32,
    /// The greatest number of rows of all tables together in one date.
    pub day_rows: u64,
    /// The greatest number of distinct symbols of all saved dates.
    pub names: u32,
    /// The number of read timeouts after which a session ends.
    pub idle: u64,
    /// Whether publications are batched.
    pub batch: bool,
    /// The number of parallel parts of an evaluation by dates.
    pub workers: u32,
}

impl Limits {
    ghost use Rattle.std.specs.Prelude.{◌≡◌};
    ghost use Rattle.q_values.specs.Limits.{AreLimits, standard_limits};

    /// The limits that a plant has unless others are given.
    pub fn standard() -> Limits
        ensures these { result ≡ standard_limits }
        ensures limits { AreLimits result }
    {
        Limits {
            message: 16_777_216,
            greeting: 1_024,
            reply: 1_073_741_824,
            chunk: 67_108_864,
            symbol: 256,
            day_rows: 67_108_864,
            names: 4_194_304,
            idle: 4_294_967_296,
            batch: false,
            workers: 4,
        }
    }
}
