//! Taking bytes up to the end of a handshake or a message.
ghost use Rattle.std.specs.Prelude.{◌≡◌, ◌≤◌, ◌<◌, ◌+◌, ◌++◌, ◌↔◌, length, take, vec_capacity, IsTrue, IfSome, IfNone};
ghost use Rattle.q_values.specs.Bytes.{HasNoNul};
ghost use Rattle.ipc_frame.specs.Taking.{Takes, NeedsGreeting, NeedsMessage, IsFirstNul, UpToNul, EndsInNul};
ghost use Rattle.ipc_frame.specs.Holding.{IsOneGreeting, IsOneMessage, room};

use crate::head::{HEADER, head_of};
use q_values::Limits;

// Appends bytes, for which there is room.
fn append(held: &mut Vec<u8>, bytes: &[u8])
    requires { length held.old.items + length bytes.now ≤ vec_capacity held.old }
    ensures items { held.new.items ≡ held.old.items ++ bytes.now }
    ensures room { vec_capacity held.old ≤ vec_capacity held.new }
{
    let _ = held.extend_from_slice(bytes);
}

/// Whether the last byte is a NUL.
pub fn ends_in_nul(bytes: &[u8]) -> bool
    ensures { IsTrue result ↔ EndsInNul bytes.now }
{
    match bytes {
        [] => false,
        [.., last] => *last == 0,
    }
}

// The index of the first NUL.
fn first_nul(bytes: &[u8]) -> Option<usize>
    ensures some { IfSome result (IsFirstNul bytes.now) }
    ensures none { IfNone result (HasNoNul bytes.now) }
{
    bytes.iter().position(|byte| *byte == 0)
}

// The number of bytes up to and including the first NUL, or `most`.
fn up_to_nul(piece: &[u8], most: usize) -> usize
    requires { most ≤ length piece.now }
    ensures { UpToNul piece.now most result }
{
    match first_nul(&piece[..most]) {
        Some(at) => at + 1,
        None => most,
    }
}

// The number of bytes of a piece that belong to the handshake.
fn greeting_part(held: &[u8], limits: &Limits, piece: &[u8]) -> usize
    requires { IsOneGreeting limits.now held.now }
    ensures takes { Takes (NeedsGreeting limits.now) held.now piece.now result }
    ensures one { IsOneGreeting limits.now (held.now ++ take result piece.now) }
{
    let limit = limits.greeting as usize;
    if held.len() > limit || ends_in_nul(held) {
        return 0;
    }
    up_to_nul(piece, piece.len().min(limit - held.len() + 1))
}

// The number of bytes of a piece that belong to the body of a message, whose header is held.
fn body_part(held: &[u8], limits: &Limits, piece: &[u8]) -> usize
    requires { IsOneMessage limits.now held.now }
    ensures takes { 8 ≤ length held.now → Takes (NeedsMessage limits.now) held.now piece.now result }
    ensures header { length held.now < 8 → result ≡ 0 }
    ensures one { IsOneMessage limits.now (held.now ++ take result piece.now) }
{
    match held.split_first_chunk::<HEADER>() {
        None => 0,
        Some((header, _)) => match head_of(header, limits) {
            Ok(head) => piece
                .len()
                .min((head.length as usize).saturating_sub(held.len())),
            Err(_) => 0,
        },
    }
}

/// Takes the bytes of a piece that belong to the handshake; returns their number.
pub fn take_greeting(held: &mut Vec<u8>, limits: &Limits, piece: &[u8]) -> usize
    requires room { room limits.now ≤ vec_capacity held.old }
    requires one { IsOneGreeting limits.now held.old.items }
    ensures takes { Takes (NeedsGreeting limits.now) held.old.items piece.now result }
    ensures held { held.new.items ≡ held.old.items ++ take result piece.now }
    ensures one { IsOneGreeting limits.now held.new.items }
    ensures room { vec_capacity held.old ≤ vec_capacity held.new }
{
    let taken = greeting_part(held, limits, piece);
    append(held, &piece[..taken]);
    taken
}

/// Takes the bytes of a piece that belong to a message; returns their number.
pub fn take_message(held: &mut Vec<u8>, limits: &Limits, piece: &[u8]) -> usize
    requires room { room limits.now ≤ vec_capacity held.old }
    requires one { IsOneMessage limits.now held.old.items }
    ensures takes { Takes (NeedsMessage limits.now) held.old.items piece.now result }
    ensures held { held.new.items ≡ held.old.items ++ take result piece.now }
    ensures one { IsOneMessage limits.now held.new.items }
    ensures room { vec_capacity held.old ≤ vec_capacity held.new }
{
    let first = piece.len().min(HEADER.saturating_sub(held.len()));
    append(held, &piece[..first]);
    let rest = &piece[first..];
    let second = body_part(held, limits, rest);
    append(held, &rest[..second]);
    first + second
}
