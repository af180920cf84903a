//! Reading the bytes of a journal's file.
ghost use Rattle.std.specs.Prelude.{◌≡◌, ◌<◌, ◌≤◌, ◌+◌, ◌^◌, [], ◌∷◌, ◌++◌, length, take, OnOk, IfOk, IfSome, IfNone};
ghost use Rattle.std.specs.Bool.{MatchBool};
ghost use Rattle.std.specs.Int.{w32, to_le_bytes};
ghost use Rattle.gated_journal.specs.Format.{HasHeader, IsStrange, IsBroken, IsPrefix, open_gate, longest_payload};
ghost use Rattle.gated_journal.specs.Records.{payloads_in, AreInside, FollowOn, gate_after};

use crate::layout::{
    FIRST_GATE, LONGEST_PAYLOAD, MAGIC, OPEN_GATE, PAYLOAD_OFFSET, RECORD_OVERHEAD, SHORTEST_FILE,
};
use crate::records::{Records, Span};
use q_values::NoMemory;
use std::alloc::Global;

/// The records of a file up to its first fault.
#[derive(Drop)]
pub struct ValidPrefix {
    /// The whole records before the first fault, or all of them.
    pub records: Records,
    /// The offset of the first fault, if there is one: of the open gate that has no whole record after it, or 0 where the
    /// file doesn't begin as a journal does or has fewer than nine bytes.
    pub fault: Option<u64>,
}

// Where the payloads of a file are, up to its first fault.
#[derive(Drop)]
struct Scanned {
    // Where each payload is.
    spans: Vec<Span>,
    // The offset of the gate after them.
    end: usize,
    // The offset of the first fault, if there is one.
    fault: Option<u64>,
}

// Whether the bytes begin as a journal does, and have a gate.
fn begins_well(bytes: &[u8]) -> bool
    ensures { MatchBool result (HasHeader bytes.now) (IsStrange bytes.now) }
{
    bytes.len() >= SHORTEST_FILE && bytes.starts_with(&MAGIC)
}

// The length of the payload after an open gate, where a whole record and the next gate are there.
fn payload_len(after: &[u8]) -> Option<usize>
    ensures long { IfSome result (λ n. 4 + n < length after.now) }
    ensures some { IfSome result (λ n. 0 < n) }
    ensures small { IfSome result (λ n. n ≤ longest_payload) }
    ensures spelled { IfSome result (λ n. take 4 after.now ≡ to_le_bytes w32 n) }
    ensures none { IfNone result (IsBroken (open_gate ∷ after.now)) }
{
    match after {
        [a, b, c, d, rest @ ..] => {
            let size = u32::from_le_bytes([*a, *b, *c, *d]);
            if size == 0 || size > LONGEST_PAYLOAD || size as usize >= rest.len() {
                return None;
            }
            Some(size as usize)
        }
        _ => None,
    }
}

// Puts a span at the end.
fn push_span(spans: &mut Vec<Span>, span: Span) -> Result<(), NoMemory>
    ensures { OnOk result (spans.new.items ≡ spans.old.items ++ span ∷ []) }
{
    Ok(spans.push(span)?)
}

// Goes over the records of a file that begins as a journal does.
fn scan(alloc: Global, bytes: &[u8]) -> Result<Scanned, NoMemory>
    requires { HasHeader bytes.now }
    ensures prefix { IfOk result (λ s. IsPrefix bytes.now (payloads_in bytes.now s.spans.items) s.fault) }
    ensures inside { IfOk result (λ s. AreInside (length bytes.now) s.spans.items) }
    ensures follow { IfOk result (λ s. FollowOn 8 s.spans.items) }
    ensures end { IfOk result (λ s. s.end ≡ gate_after 8 s.spans.items) }
    ensures within { IfOk result (λ s. s.end < length bytes.now) }
{
    let mut spans = Vec::new(alloc);
    let mut at = FIRST_GATE;
    while bytes[at] == OPEN_GATE {
        let Some(len) = payload_len(&bytes[at + 1..]) else {
            return Ok(Scanned {
                spans,
                end: at,
                fault: Some(at as u64),
            });
        };
        push_span(
            &mut spans,
            Span {
                start: at + PAYLOAD_OFFSET,
                len,
            },
        )?;
        at += len + RECORD_OVERHEAD;
    }
    Ok(Scanned {
        spans,
        end: at,
        fault: None,
    })
}

/// The records in the bytes of a file, up to the first fault.
pub fn valid_prefix(alloc: Global, bytes: Vec<u8>) -> Result<ValidPrefix, NoMemory>
    requires { length bytes.items < 2 ^ 63 }
    ensures prefix { IfOk result (λ v. IsPrefix bytes.items v.records v.fault) }
{
    if !begins_well(bytes.as_slice()) {
        return Ok(ValidPrefix {
            records: Records::new(alloc),
            fault: Some(0),
        });
    }
    let Scanned { spans, end, fault } = scan(alloc, bytes.as_slice())?;
    Ok(ValidPrefix {
        records: Records::from_parts(bytes, spans, end),
        fault,
    })
}
