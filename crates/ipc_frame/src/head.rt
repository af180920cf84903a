//! The header of a message.
ghost use Rattle.std.specs.Prelude.{◌≡◌, ◌≤◌, [], ◌∷◌, ◌++◌, if◌then◌else◌, IfOk, IfErr};
ghost use Rattle.std.specs.Int.{w32, to_le_bytes};
ghost use Rattle.ipc_frame.specs.Stream.{header_of};

use crate::bad::Bad;
use ipc_codec::Order;
use q_values::Limits;

/// The length of a header in bytes.
pub const HEADER: usize = 8;

/// What a header says about its message.
#[derive(Clone, Copy)]
pub struct Head {
    /// The order of the bytes of numbers.
    pub order: Order,
    /// Whether the sender waits for a response.
    pub sync: bool,
    /// The length of the message in bytes, its header included.
    pub length: u32,
}

/// What is wrong with a header.
#[derive(Clone, Copy)]
pub struct BadHeader {
    /// The fault.
    pub code: Bad,
    /// Its offset in the header, in bytes.
    pub at: u64,
}

/// What a header says, or its first fault.
pub fn head_of(header: &[u8; 8], limits: &Limits) -> Result<Head, BadHeader>
    ensures value { result ≡ header_of limits.now header.now }
    ensures fits { IfOk result (λ h. (9 ≤ h.length) × (h.length ≤ limits.now.message)) }
{
    let bad = |code: Bad, at: u64| Err(BadHeader { code, at });
    let order = if header[0] == 1 {
        Order::Little
    } else {
        Order::Big
    };
    let bytes = [header[4], header[5], header[6], header[7]];
    let length = match order {
        Order::Little => u32::from_le_bytes(bytes),
        Order::Big => u32::from_be_bytes(bytes),
    };
    let sync = header[1] == 1;
    if header[0] > 1 {
        bad(Bad::Order, 0)
    } else if header[1] > 1 {
        bad(Bad::Kind, 1)
    } else if header[2] != 0 {
        bad(Bad::Compressed, 2)
    } else if length < 9 {
        bad(Bad::Length, 4)
    } else if length > limits.message {
        bad(Bad::TooLong, 4)
    } else {
        Ok(Head {
            order,
            sync,
            length,
        })
    }
}

/// The eight bytes of a little-endian header: of a response where `sync_reply`, and else of an asynchronous message.
/// `length` is that of the whole message in bytes, the header included (KX, IPC reference).
pub fn header(sync_reply: bool, length: u32) -> [u8; 8]
    ensures { result ≡ 1 ∷ (if sync_reply then 2 else 0) ∷ 0 ∷ 0 ∷ to_le_bytes w32 length }
{
    let [a, b, c, d] = length.to_le_bytes();
    let kind = if sync_reply { 2 } else { 0 };
    [1, kind, 0, 0, a, b, c, d]
}
