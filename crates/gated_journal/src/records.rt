//! The payloads of a journal's records, all in one vector of bytes.
ghost use Rattle.std.specs.Prelude.{◌≡◌, ◌==◌, ◌<◌, ◌+◌, ◌≤◌, ◌^◌, ◌++◌, [], ◌∷◌, ℕ, List, Some, slice_get, option_copied, take, drop, length, OnOk, OnErr};
ghost use Rattle.gated_journal.specs.Format.{before_gate};
ghost use Rattle.gated_journal.specs.Records.{payloads_in, AreInside, FollowOn, gate_after};

use crate::layout::{FILE_LIMIT, FIRST_GATE, PAYLOAD_OFFSET};
use crate::payloads::Payloads;
use q_values::NoMemory;
use std::alloc::Global;
use std::marker::Model;

/// A part of the bytes.
#[derive(Clone, Copy, Debug, PartialEq, Eq)]
pub struct Span {
    /// The offset of its first byte.
    pub start: usize,
    /// Its number of bytes.
    pub len: usize,
}

/// The payloads of records, first to last, seen as a list of payloads. They are parts of one vector of bytes, which a load
/// reads at once, and cost 16 bytes each beside it. Each has the offset that it has in the file of a journal whose first
/// records these are.
#[derive(Drop)]
pub struct Records {
    // The bytes that hold the payloads.
    bytes: Vec<u8>,
    // Where each payload is, within the bytes, and in a journal's file.
    spans: Vec<Span>,
    // The offset of the gate after the last of them, below 2^63.
    end: usize,
}

impl Model for Records {
    ghost use Rattle.std.specs.Prelude.{◌≡◌, ◌<◌, ◌^◌, List, ℕ, length};
    ghost use Rattle.gated_journal.specs.Records.{payloads_in, AreInside, FollowOn, gate_after};

    ghost Value = { List (List ℕ) };

    ghost view = { λ r. payloads_in r.bytes.items r.spans.items };

    ghost invariant = { λ r. AreInside (length r.bytes.items) r.spans.items
        × FollowOn 8 r.spans.items × (r.end ≡ gate_after 8 r.spans.items) × (r.end < 2 ^ 63) };
}

impl Records {
    /// No records. It takes no memory.
    pub fn new(alloc: Global) -> Records
        ensures { result ≡ [] }
    {
        Records {
            bytes: Vec::new(alloc),
            spans: Vec::new(alloc),
            end: FIRST_GATE,
        }
    }

    /// The payloads in these spans of the bytes, with the offset of the gate after them.
    pub fn from_parts(bytes: Vec<u8>, spans: Vec<Span>, end: usize) -> Records
        requires inside { AreInside (length bytes.items) spans.items }
        requires follow { FollowOn 8 spans.items }
        requires end { end ≡ gate_after 8 spans.items }
        requires small { end < 2 ^ 63 }
        ensures { result ≡ payloads_in bytes.items spans.items }
    {
        Records { bytes, spans, end }
    }

    /// The number of records.
    pub fn len(&self) -> usize
        ensures { result ≡ length self.now }
    {
        self.spans.len()
    }

    /// Whether there are no records.
    pub fn is_empty(&self) -> bool
        ensures { result ≡ (length self.now == 0) }
    {
        self.len() == 0
    }

    /// Lends the payload at the index `i`, if there is one.
    pub fn get(&self, i: usize) -> Option<&[u8]>
        ensures { option_copied result ≡ slice_get self.now i }
    {
        if i < self.spans.len() {
            Some(self.at(i))
        } else {
            None
        }
    }

    /// Goes over the payloads, in order.
    pub fn iter(&self) -> Payloads<'_>
        ensures { result ≡ self.now }
    {
        Payloads {
            bytes: self.bytes.as_slice(),
            spans: self.spans.as_slice(),
        }
    }

    /// Lends the payload at the index `i`.
    pub fn at(&self, i: usize) -> &[u8]
        requires { i < length self.now }
        ensures { slice_get self.now i ≡ Some result.now }
    {
        let span = self.spans[i];
        part(self.bytes.as_slice(), span.start, span.len)
    }

    /// The offset of the gate before the record at the index `i`, in the file of a journal whose first records these are.
    pub fn gate_of(&self, i: usize) -> u64
        requires { i < length self.now }
        ensures { result ≡ length (before_gate (take i self.now)) }
    {
        let payload = self.spans[i].start;
        (payload - PAYLOAD_OFFSET) as u64
    }

    /// The offset of the gate after the last record, or of the first gate where there is no record.
    pub fn end(&self) -> u64
        ensures offset { result ≡ length (before_gate self.now) }
        ensures small { result < 2 ^ 63 }
    {
        self.end as u64
    }

    /// Puts a payload at the end. A refused call changes nothing; one that would pass 2^63 bytes is out of memory.
    pub fn push(&mut self, payload: &[u8]) -> Result<(), NoMemory>
        ensures ok { OnOk result (self.new ≡ self.old ++ payload.now ∷ []) }
        ensures err { OnErr result (self.new ≡ self.old) }
    {
        let start = self.end + PAYLOAD_OFFSET;
        let len = payload.len();
        if len >= FILE_LIMIT.saturating_sub(start) {
            return Err(NoMemory);
        }
        self.spans.reserve(1)?;
        put_from(&mut self.bytes, start, payload)?;
        self.spans.push_reserved(Span { start, len });
        self.end = start + len;
        Ok(())
    }
}

// Makes these the last bytes, from the offset `at` on; what is missing before it is zeroes. A refused call may drop
// bytes from that offset on, and no other.
fn put_from(bytes: &mut Vec<u8>, at: usize, last: &[u8]) -> Result<(), NoMemory>
    ensures ok { OnOk result (length bytes.new.items ≡ at + length last.now) }
    ensures put { OnOk result (drop at bytes.new.items ≡ last.now) }
    ensures kept { (more : List ℕ) × (bytes.new.items ≡ take at bytes.old.items ++ more) }
{
    bytes.resize(at, 0)?;
    bytes.extend_from_slice(last)?;
    Ok(())
}

/// The `len` bytes from the offset `start` on.
pub fn part(bytes: &[u8], start: usize, len: usize) -> &[u8]
    requires { start + len ≤ length bytes.now }
    ensures { result.now ≡ take len (drop start bytes.now) }
{
    &bytes[start..][..len]
}
