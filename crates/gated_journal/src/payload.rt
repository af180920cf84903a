//! The payload of a record, as an append writes it.
ghost use Rattle.std.specs.Prelude.{◌≡◌, ◌==◌, ◌<◌, ◌≤◌, ◌+◌, ◌++◌, [], ◌∷◌, length, take, drop, IfOk};
ghost use Rattle.gated_journal.specs.Format.{longest_payload, measured, closed_gate};
ghost use Rattle.outside_api.specs.Disk.{put};

use crate::layout::{CLOSED_GATE, LENGTH_BYTES, RECORD_OVERHEAD};
use q_values::NoMemory;
use std::alloc::Global;
use std::marker::Model;

/// The payload of a record, with room for a number of bytes. It is kept between its length and a closed gate, so that
/// one write sends all three and copies nothing.
#[derive(Drop)]
pub struct Payload {
    // The length, the payload, a closed gate, and then what is left of the room: 5 bytes more than the room.
    buffer: Vec<u8>,
    // The number of bytes of the payload, at most the room.
    len: usize,
}

impl Model for Payload {
    ghost use Rattle.std.specs.Prelude.{◌≡◌, ◌<◌, ◌≤◌, ◌+◌, ◌-◌, ◌++◌, [], ◌∷◌, length, take, drop};
    ghost use Rattle.gated_journal.specs.Format.{longest_payload, measured, closed_gate};
    ghost use Rattle.gated_journal.specs.Payload.{PayloadView};

    ghost Value = { PayloadView };

    ghost view = { λ p. record { bytes = take p.len (drop 4 p.buffer.items); room = length p.buffer.items - 5 } };

    ghost invariant = { λ p. (p.len + 5 ≤ length p.buffer.items) × (length p.buffer.items ≤ longest_payload + 5)
        × (0 < p.len → take (p.len + 5) p.buffer.items ≡ measured (take p.len (drop 4 p.buffer.items)) ++ closed_gate ∷ []) };
}

impl Payload {
    /// An empty payload with room for `room` bytes, at most 2,147,483,647.
    pub fn with_room(alloc: Global, room: u32) -> Result<Payload, NoMemory>
        requires { room ≤ longest_payload }
        ensures bytes { IfOk result (λ p. p.bytes ≡ []) }
        ensures room { IfOk result (λ p. p.room ≡ room) }
    {
        Ok(Payload {
            buffer: vec![in alloc; 0; room as usize + RECORD_OVERHEAD]?,
            len: 0,
        })
    }

    /// The bytes of a buffer after its first four, which are written over with their number; there are from 1 to
    /// 2,147,483,647. It takes no memory where the buffer has room for one more byte.
    pub fn from_buffer(mut buffer: Vec<u8>) -> Result<Payload, NoMemory>
        requires some { 5 ≤ length buffer.items }
        requires short { length buffer.items ≤ longest_payload + 4 }
        ensures bytes { IfOk result (λ p. p.bytes ≡ drop 4 buffer.items) }
        ensures room { IfOk result (λ p. p.room + 4 ≡ length buffer.items) }
    {
        let len = buffer.as_slice().len() - LENGTH_BYTES;
        buffer.reserve(1)?;
        put_at(buffer.as_mut_slice(), 0, &(len as u32).to_le_bytes());
        buffer.push_reserved(CLOSED_GATE);
        Ok(Payload { buffer, len })
    }

    /// A buffer of four bytes, in the memory of the payload. A payload that is appended to it and given to
    /// [`Payload::from_buffer`] is built in place.
    pub fn into_buffer(self) -> Vec<u8>
        ensures { length result.items ≡ 4 }
    {
        let Payload { mut buffer, len: _ } = self;
        buffer.truncate(LENGTH_BYTES);
        buffer
    }

    /// The payload is these bytes, from 1 to its room. It takes no memory.
    pub fn fill(&mut self, bytes: &[u8])
        requires some { 0 < length bytes.now }
        requires within { length bytes.now ≤ self.old.room }
        ensures bytes { self.new.bytes ≡ bytes.now }
        ensures room { self.new.room ≡ self.old.room }
    {
        let len = bytes.len();
        lay_out(self.buffer.as_mut_slice(), bytes);
        self.len = len;
    }

    /// Whether it has no bytes.
    pub fn is_empty(&self) -> bool
        ensures { result ≡ (length self.now.bytes == 0) }
    {
        self.len == 0
    }

    /// The number of its bytes.
    pub fn len(&self) -> usize
        ensures { result ≡ length self.now.bytes }
    {
        self.len
    }

    /// Its length, its bytes and a closed gate.
    pub fn body(&self) -> &[u8]
        requires { 0 < length self.now.bytes }
        ensures body { result.now ≡ measured self.now.bytes ++ closed_gate ∷ [] }
        ensures within { length self.now.bytes ≤ longest_payload }
    {
        &self.buffer[..self.len + RECORD_OVERHEAD]
    }
}

// Puts bytes into the buffer from an offset on.
fn put_at(buffer: &mut [u8], at: usize, bytes: &[u8])
    requires { at + length bytes.now ≤ length buffer.old }
    ensures { buffer.new ≡ put buffer.old at bytes.now }
{
    buffer[at..at + bytes.len()].copy_from_slice(bytes);
}

// Puts the length, the bytes and a closed gate at the front of the buffer.
fn lay_out(buffer: &mut [u8], bytes: &[u8])
    requires within { length bytes.now + 5 ≤ length buffer.old }
    requires short { length bytes.now ≤ longest_payload }
    ensures { buffer.new ≡ (measured bytes.now ++ closed_gate ∷ []) ++ drop (length bytes.now + 5) buffer.old }
{
    let size = bytes.len();
    put_at(buffer, 0, &(size as u32).to_le_bytes());
    put_at(buffer, LENGTH_BYTES, bytes);
    put_at(buffer, size + LENGTH_BYTES, &[CLOSED_GATE]);
}
